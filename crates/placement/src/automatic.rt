// The second pass: automatic BARs, by size descending, then device, then slot.
ghost use Rattle.std.specs.Prelude.{◌≡◌, ◌<◌};
ghost use Rattle.placement.specs.Keys.{key_count};
ghost use Rattle.placement.specs.Place.{lowest_of};
ghost use Rattle.placement.specs.Passes.{fitted, auto_step, auto_after};

use crate::keys::KEY_COUNT;
use crate::placing::KeyRefusal;
use crate::search::first_fit;
use crate::waiting::next_automatic;
use bar::{Aperture, MemoryBar, Range};
use refusal::Refusal;

// Gives a key the lowest place for its size.
#[tactic(auto, using(crate::proofs::Places::is_lowest))]
fn place_lowest(
    aperture: Aperture,
    size: u64,
    mut placed: [Range; KEY_COUNT],
    key: usize,
) -> Result<[Range; KEY_COUNT], KeyRefusal>
    requires { key < key_count }
    ensures { result ≡ fitted placed key size (lowest_of aperture size placed) }
{
    match first_fit(aperture, size, placed) {
        None => Err(KeyRefusal {
            refusal: Refusal::NoPlace,
            key,
        }),
        Some(start) => {
            placed[key] = Range { start, size };
            Ok(placed)
        }
    }
}

// The next BAR, if one waits.
#[tactic(auto, unfolding(crate::specs::Passes::auto_step))]
fn automatic_step(
    aperture: Aperture,
    bars: [MemoryBar; KEY_COUNT],
    placed: [Range; KEY_COUNT],
) -> Result<[Range; KEY_COUNT], KeyRefusal>
    ensures { result ≡ auto_step aperture bars placed }
{
    match next_automatic(bars, placed) {
        None => Ok(placed),
        Some(key) => {
            let bar = bars[key];
            place_lowest(aperture, bar.size(), placed, key)
        }
    }
}

// There are no more automatic BARs than keys.
#[tactic(auto, unfolding(crate::specs::Passes::auto_after))]
pub(crate) fn place_automatic(
    aperture: Aperture,
    bars: [MemoryBar; KEY_COUNT],
    mut placed: [Range; KEY_COUNT],
) -> Result<[Range; KEY_COUNT], KeyRefusal>
    ensures { result ≡ auto_after aperture bars placed key_count }
{
    for _turn in 0..KEY_COUNT {
        placed = automatic_step(aperture, bars, placed)?;
    }
    Ok(placed)
}
