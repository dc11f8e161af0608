// Which effect owns a byte of config space.
ghost use Rattle.std.specs.Prelude.{◌≡◌};
ghost use Rattle.capability.specs.Owner.{capability_count, effect_count, effect_at, capability_at, start_of, region_start, touches, holds, first_touched, owner_of};

use crate::placed::{Placed, PlacedCapability, PlacedEffect};
use address::limits::{CAPABILITY_LIMIT, EFFECT_LIMIT};
use address::{Access, ConfigOffset};

// How many capabilities there are.
pub fn capability_count(placed: Placed) -> usize
    ensures { result ≡ capability_count placed }
{
    placed.count.min(CAPABILITY_LIMIT)
}

// How many effects there are.
fn effect_count(placed: Placed) -> usize
    ensures { result ≡ effect_count placed }
{
    placed.effect_count.min(EFFECT_LIMIT)
}

// The capability at an index, blank past the last.
pub(crate) fn capability_in(placed: Placed, i: usize) -> PlacedCapability
    ensures { result ≡ capability_at placed i }
{
    let n = capability_count(placed);
    placed.capabilities[..n]
        .get(i)
        .copied()
        .unwrap_or(PlacedCapability::none())
}

// Where the capability at an index starts, 0 past the last.
pub fn capability_start(placed: Placed, i: usize) -> u16
    ensures { result ≡ start_of placed i }
{
    let capability = capability_in(placed, i);
    capability.offset.value()
}

// The effect at an index, blank past the last. One function for both lists needs as many lines at each call.
pub(crate) fn effect_at(placed: Placed, i: usize) -> PlacedEffect
    ensures { result ≡ effect_at placed i }
{
    let n = effect_count(placed);
    placed.effects[..n]
        .get(i)
        .copied()
        .unwrap_or(PlacedEffect::none())
}

// Where the region of an effect starts in config space.
#[tactic(auto, unfolding(crate::specs::Owner::region_start))]
pub(crate) fn region_start(placed: Placed, effect: PlacedEffect) -> usize
    ensures { result ≡ region_start placed effect }
{
    let start = capability_start(placed, effect.capability as usize);
    (start as usize) + (effect.offset as usize)
}

// Whether some byte of an access lies in the region of the effect at an index.
#[tactic(auto, unfolding(crate::specs::Owner::touches))]
fn effect_touched(placed: Placed, access: Access, i: usize) -> bool
    ensures { result ≡ touches placed access.offset.0 access.width i }
{
    let e = effect_at(placed, i);
    let start = region_start(placed, e);
    word::overlap(
        access.offset.value() as u64,
        access.width as u64,
        start as u64,
        e.length as u64,
    )
}

// Whether every byte of it does.
#[tactic(auto, using(crate::proofs::Regions::held_none, crate::proofs::Regions::held_before, crate::proofs::Regions::held_test))]
pub(crate) fn effect_holds(placed: Placed, access: Access, i: usize) -> bool
    ensures { result ≡ holds placed access.offset.0 access.width i }
{
    let offset = access.offset.value() as usize;
    let width = access.width;
    if width == 0 {
        return true;
    }
    let e = effect_at(placed, i);
    let start = region_start(placed, e);
    let length = e.length as usize;
    if offset < start {
        return false;
    }
    if length < offset - start {
        return false;
    }
    width <= length - (offset - start)
}

// The first effect of which an access touches a byte, by its index.
pub(crate) fn first_touched(placed: Placed, access: Access) -> Option<usize>
    ensures { result ≡ first_touched placed access.offset.0 access.width }
{
    (0..effect_count(placed)).find(|i| effect_touched(placed, access, *i))
}

// The effect that owns a byte, by its index.
#[tactic(auto, using(crate::proofs::Owners::touched_byte))]
pub fn owner_of(placed: Placed, offset: ConfigOffset) -> Option<usize>
    ensures { result ≡ owner_of placed offset.0 }
{
    first_touched(placed, Access { offset, width: 1 })
}
