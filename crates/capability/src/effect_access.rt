// Access to an effect: refusal 19.
ghost use Rattle.std.specs.Prelude.{◌≡◌};
ghost use Rattle.capability.specs.Touch.{allows, decision, touch_of};

use crate::effect::EffectAccess;
use crate::owner::{capability_in, effect_at, effect_holds, first_touched, region_start};
use crate::placed::{Placed, PlacedEffect};
use address::{Access, ConfigOffset};
use refusal::Refusal;

// An access inside an effect: the capability's id, the region, and the access's offset from the capability's start and from the region's own.
#[repr(C)]
#[derive(Clone, Copy, Debug, PartialEq, Eq)]
pub struct EffectHit {
    pub capability_id: u8,
    pub region: PlacedEffect,
    pub offset: u16,
    pub region_offset: u16,
}

// Whether an effect with this access number allows a direction.
#[tactic(auto, using(crate::proofs::Accesses::number_is, crate::proofs::Accesses::refused_number))]
fn access_allows(access: u8, write: bool) -> bool
    ensures { result ≡ allows write access }
{
    match EffectAccess::new(access) {
        Ok(access) => access.allows(write),
        Err(_) => false,
    }
}

// The answer at the effect that the access touches first.
#[tactic(auto, unfolding(crate::specs::Touch::decision))]
fn decided(
    placed: Placed,
    access: Access,
    write: bool,
    i: usize,
) -> Result<Option<EffectHit>, Refusal>
    ensures { result ≡ decision placed access.offset.0 access.width write i }
{
    let offset = access.offset.value();
    let region = effect_at(placed, i);
    if effect_holds(placed, access, i) && access_allows(region.access, write) {
        let capability = capability_in(placed, region.capability as usize);
        let inside = (offset as usize).saturating_sub(region_start(placed, region));
        return Ok(Some(EffectHit {
            capability_id: capability.id,
            region,
            offset: offset.saturating_sub(capability.offset.value()),
            region_offset: inside as u16,
        }));
    }
    Err(Refusal::BadTouch)
}

// An access of `width` bytes, checked before: untouched, answered by the effect that owns all of it, or refused.
#[tactic(auto, using(crate::proofs::Touches::touch_effect, crate::proofs::Touches::touch_nobody))]
pub fn effect_for_access(
    placed: Placed,
    offset: ConfigOffset,
    width: usize,
    write: bool,
) -> Result<Option<EffectHit>, Refusal>
    ensures { result ≡ touch_of placed offset.0 width write }
{
    let access = Access { offset, width };
    match first_touched(placed, access) {
        Some(i) => decided(placed, access, write, i),
        None => Ok(None),
    }
}
