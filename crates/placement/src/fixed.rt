// The first pass: fixed BARs, by device then slot.
ghost use Rattle.std.specs.Prelude.{◌≡◌, ◌<◌};
ghost use Rattle.placement.specs.Keys.{key_count};
ghost use Rattle.placement.specs.Place.{is_place};
ghost use Rattle.placement.specs.Passes.{fixed_verdict, fixed_step, fixed_after};

use crate::conflict::conflict_with;
use crate::keys::KEY_COUNT;
use crate::placing::{KeyRefusal, nothing_yet};
use bar::{Aperture, MemoryBar, Range, Request};
use refusal::Refusal;

// The checks of a fixed range, in order.
#[tactic(auto, unfolding(crate::specs::Passes::fixed_verdict, crate::specs::Place::is_place))]
fn checked_bar_range(
    aperture: Aperture,
    placed: [Range; KEY_COUNT],
    range: Range,
) -> Result<(), Refusal>
    ensures { result ≡ fixed_verdict aperture placed range }
{
    if !range.multiple() {
        return Err(Refusal::NotMultiple);
    }
    if !range.lies_in(aperture) {
        return Err(Refusal::OutsideAperture);
    }
    match conflict_with(range, placed) {
        None => Ok(()),
        Some(_) => Err(Refusal::OverlapsPlaced),
    }
}

// Whether a BAR may stand at an address, given the ranges of others.
#[tactic(auto, using(crate::proofs::Verdicts::verdict_place))]
pub fn is_place(aperture: Aperture, size: u64, placed: [Range; KEY_COUNT], address: u64) -> bool
    ensures { result ≡ is_place aperture size placed address }
{
    let range = Range {
        start: address,
        size,
    };
    checked_bar_range(aperture, placed, range).is_ok()
}

// The BAR of one key: a fixed one is checked and placed.
#[tactic(auto, unfolding(crate::specs::Passes::fixed_step))]
fn fixed_step(
    aperture: Aperture,
    bars: [MemoryBar; KEY_COUNT],
    key: usize,
    mut placed: [Range; KEY_COUNT],
) -> Result<[Range; KEY_COUNT], KeyRefusal>
    requires { key < key_count }
    ensures { result ≡ fixed_step aperture bars key placed }
{
    let bar = bars[key];
    match bar.request() {
        Request::Auto => Ok(placed),
        Request::Fixed(start) => {
            let range = Range {
                start,
                size: bar.size(),
            };
            match checked_bar_range(aperture, placed, range) {
                Err(refusal) => Err(KeyRefusal { refusal, key }),
                Ok(()) => {
                    placed[key] = range;
                    Ok(placed)
                }
            }
        }
    }
}

#[tactic(auto, unfolding(crate::specs::Passes::fixed_after))]
pub(crate) fn place_fixed(
    aperture: Aperture,
    bars: [MemoryBar; KEY_COUNT],
) -> Result<[Range; KEY_COUNT], KeyRefusal>
    ensures { result ≡ fixed_after aperture bars key_count }
{
    let mut placed = nothing_yet();
    for key in 0..KEY_COUNT {
        placed = fixed_step(aperture, bars, key, placed)?;
    }
    Ok(placed)
}
