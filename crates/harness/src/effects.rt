// Accesses to effects, modes of bytes, views and copies of bodies, as numbers: C has no Option and no Result.
ghost use Rattle.std.specs.Prelude.{◌≡◌};
ghost use Rattle.address.specs.Layout.{config_space_size};
ghost use Rattle.address.specs.Check.{access_of};
ghost use Rattle.address.specs.Kinds.{offset_of};
ghost use Rattle.capability.specs.Snapshot.{snapshot_of};
ghost use Rattle.capability.specs.View.{view_of, view_copy};
ghost use Rattle.harness.specs.Effects.{touched_none, touch_numbers, touch_checked, mode_number, mode_at};

use address::config_layout::CONFIG_SPACE_SIZE;
use address::{ConfigOffset, check};
use capability::{
    ByteMode, EffectHit, Placed, PlacedEffect, Snapshot, ViewCopy, effect_for_access, mode_of,
    snapshot_of, view_copy,
};
use refusal::Refusal;

// The mode of a byte, as C has it.
#[derive(Clone, Copy, Debug, PartialEq, Eq)]
enum Mode {
    Outside = 0,
    Constant = 1,
    Stored = 2,
    Effect = 3,
}

// What an access does to the effects; blank but for the refusal where it is not inside one.
#[repr(C)]
#[derive(Clone, Copy)]
pub struct Touched {
    pub refusal: u8,
    pub inside: bool,
    pub capability_id: u8,
    pub region: PlacedEffect,
    pub offset: u16,
    pub region_offset: u16,
}

// An access that is inside no effect.
fn outside(refusal: u8) -> Touched
    ensures { result ≡ touched_none refusal }
{
    Touched {
        refusal,
        inside: false,
        capability_id: 0,
        region: PlacedEffect::none(),
        offset: 0,
        region_offset: 0,
    }
}

fn touch_numbers(touch: Result<Option<EffectHit>, Refusal>) -> Touched
    ensures { result ≡ touch_numbers touch }
{
    let refusal = refusal::number(touch);
    match touch {
        Ok(None) => outside(refusal),
        Ok(Some(hit)) => Touched {
            refusal,
            inside: true,
            capability_id: hit.capability_id,
            region: hit.region,
            offset: hit.offset,
            region_offset: hit.region_offset,
        },
        Err(_) => outside(refusal),
    }
}

// Refusal 18 first, then 19, or the effect that the access is inside.
#[unsafe(no_mangle)]
pub extern "C" fn harness_touch(placed: Placed, offset: usize, width: usize, write: bool) -> Touched
    ensures { result ≡ touch_checked placed write (access_of config_space_size offset width) }
{
    match check(CONFIG_SPACE_SIZE, offset, width) {
        Ok(access) => touch_numbers(effect_for_access(placed, access.offset, access.width, write)),
        Err(refusal) => outside(refusal.number()),
    }
}

fn mode_number(mode: Option<ByteMode>) -> u8
    ensures { result ≡ mode_number mode }
{
    match mode {
        Some(ByteMode::Constant) => Mode::Constant as u8,
        Some(ByteMode::StoredMasked) => Mode::Stored as u8,
        Some(ByteMode::EffectOnly) => Mode::Effect as u8,
        None => Mode::Outside as u8,
    }
}

// The mode of a byte: 0 outside every capability, 1 constant, 2 stored under its mask, 3 an effect's.
#[unsafe(no_mangle)]
pub extern "C" fn harness_mode(placed: Placed, mask: &[u8], offset: usize) -> u8
    ensures { result ≡ mode_at placed mask.now (offset_of config_space_size offset) }
{
    match ConfigOffset::new(CONFIG_SPACE_SIZE, offset) {
        Some(at) => mode_number(mode_of(placed, mask, at)),
        None => Mode::Outside as u8,
    }
}

// A copy of the view of the capability at an index, in the live one of two lent images or in the power-on one.
#[unsafe(no_mangle)]
pub extern "C" fn harness_view<'a>(
    placed: Placed,
    index: usize,
    live: &'a [u8],
    power: &'a [u8],
    from_live: bool,
) -> ViewCopy
    ensures { result ≡ view_copy (view_of placed index live.now power.now config_space_size from_live) }
{
    view_copy(placed, index, live, power, CONFIG_SPACE_SIZE, from_live)
}

// A copy of the body of the capability at an index.
#[unsafe(no_mangle)]
pub extern "C" fn harness_snapshot(placed: Placed, image: &[u8], index: usize) -> Snapshot
    ensures { result ≡ snapshot_of placed image.now index }
{
    snapshot_of(placed, image, index)
}
