// A read of config space.
ghost use Rattle.std.specs.Prelude.{◌≡◌};
ghost use Rattle.config.specs.Read.{register_bytes, read_touched, read_good, read_of};

use crate::state::{FunctionState, bar_at, in_bar, slot_at, space_of};
use address::config_layout::CONFIG_BAR_REGISTER_SIZE;
use address::{ConfigOffset, check};
use capability::{EffectHit, Snapshot, effect_for_access, snapshot_of};
use refusal::Refusal;

// What a read gives: a value, or the effect that it is inside, with the copy of the live body.
#[derive(Clone, Copy)]
pub enum ReadAnswer {
    Value(u64),
    Effect { hit: EffectHit, body: Snapshot },
}

// The bytes asked of what a BAR's register shows.
fn register_bytes(state: FunctionState, offset: usize, width: usize) -> u64
    ensures { result ≡ register_bytes state offset width }
{
    let bars = state.bars;
    let bar = bar_at(bars, slot_at(offset));
    let lane = offset % CONFIG_BAR_REGISTER_SIZE;
    let mut bytes = [0u8; CONFIG_BAR_REGISTER_SIZE];
    word::put(&mut bytes, 0, CONFIG_BAR_REGISTER_SIZE, bar.raw_dword());
    word::read(&bytes, lane, width)
}

// A read outside the BARs, by what it does to the effects.
fn read_touched(
    state: FunctionState,
    offset: usize,
    width: usize,
    touch: Result<Option<EffectHit>, Refusal>,
) -> Result<ReadAnswer, Refusal>
    ensures { result ≡ read_touched state offset width touch }
{
    let live = state.live;
    match touch? {
        None => Ok(ReadAnswer::Value(word::read(&live, offset, width))),
        Some(hit) => {
            let placed = state.placed;
            let body = snapshot_of(placed, &live, hit.region.capability as usize);
            Ok(ReadAnswer::Effect { hit, body })
        }
    }
}

// A checked read.
fn read_good(
    state: FunctionState,
    offset: ConfigOffset,
    width: usize,
) -> Result<ReadAnswer, Refusal>
    ensures { result ≡ read_good state offset.0 width }
{
    let at = offset.value() as usize;
    let bars = state.bars;
    let register = in_bar(bars, at);
    if register {
        return Ok(ReadAnswer::Value(register_bytes(state, at, width)));
    }
    let placed = state.placed;
    let touch = effect_for_access(placed, offset, width, false);
    read_touched(state, at, width, touch)
}

// Reads `width` bytes at `offset`, or answers 18 or 19; nothing changes.
pub fn read(state: FunctionState, offset: usize, width: usize) -> Result<ReadAnswer, Refusal>
    ensures { result ≡ read_of state offset width }
{
    let access = check(space_of(state), offset, width)?;
    read_good(state, access.offset, access.width)
}
