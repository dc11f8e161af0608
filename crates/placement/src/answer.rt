// What placement answers.
ghost use Rattle.std.specs.Prelude.{◌≡◌};
ghost use Rattle.placement.specs.Passes.{placing_of};
ghost use Rattle.placement.specs.Answer.{addresses_of, device_of, refused_at, placement_of};

use crate::automatic::place_automatic;
use crate::declared_bars::{DeclaredBars, collect_placements};
use crate::fixed::place_fixed;
use crate::keys::KEY_COUNT;
use crate::placing::KeyRefusal;
use address::limits::{BAR_SLOTS, FUNCTION_LIMIT};
use bar::{Aperture, MemoryBar, Range};
use refusal::Refusal;

// Why placement refuses, and the BAR that it refuses.
#[derive(Clone, Copy, Debug, PartialEq, Eq)]
pub struct PlacementRefusal {
    pub refusal: Refusal,
    pub device: u8,
    pub slot: u8,
}

fn device_of(declared: DeclaredBars, index: usize) -> u8
    ensures { result ≡ device_of declared index }
{
    if index < FUNCTION_LIMIT {
        let function = declared.functions[index];
        return function.device;
    }
    0
}

// A refusal with the device and the slot of its key.
fn refused_at(declared: DeclaredBars, refused: KeyRefusal) -> PlacementRefusal
    ensures { result ≡ refused_at declared refused.refusal refused.key }
{
    PlacementRefusal {
        refusal: refused.refusal,
        device: device_of(declared, refused.key / BAR_SLOTS),
        slot: (refused.key % BAR_SLOTS) as u8,
    }
}

// The start of each key's range.
fn addresses_of(placed: [Range; KEY_COUNT]) -> [u64; KEY_COUNT]
    ensures { result ≡ addresses_of placed }
{
    let mut addresses = [0u64; KEY_COUNT];
    for key in 0..KEY_COUNT {
        let range = placed[key];
        addresses[key] = range.start;
    }
    addresses
}

// Both passes, fixed BARs first.
#[tactic(auto, unfolding(crate::specs::Passes::placing_of))]
fn place_bars(
    aperture: Aperture,
    bars: [MemoryBar; KEY_COUNT],
) -> Result<[Range; KEY_COUNT], KeyRefusal>
    ensures { result ≡ placing_of aperture bars }
{
    let placed = place_fixed(aperture, bars)?;
    place_automatic(aperture, bars, placed)
}

// The address of every BAR in the aperture by key, 0 where there is no BAR.
#[tactic(auto, unfolding(crate::specs::Answer::placement_of))]
pub fn resolve_bar_addresses(
    aperture: Aperture,
    declared: DeclaredBars,
) -> Result<[u64; KEY_COUNT], PlacementRefusal>
    ensures { result ≡ placement_of aperture declared }
{
    match place_bars(aperture, collect_placements(declared)) {
        Ok(placed) => Ok(addresses_of(placed)),
        Err(refused) => Err(refused_at(declared, refused)),
    }
}
