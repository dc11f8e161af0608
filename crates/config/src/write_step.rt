// A write to config space, in two steps where it asks for a relocation.
ghost use Rattle.std.specs.Prelude.{◌≡◌, Ok, Err};
ghost use Rattle.config.specs.Write.{write_done, store_of, bar_step, write_touched, write_good, write_of, relocated_in, relocated_at};

use crate::state::{FunctionState, bar_at, in_bar, slot_at, space_of, with_bar};
use crate::store_leaf::store_live;
use address::{ConfigOffset, Slot, check, config_layout};
use bar::BarWrite;
use capability::{EffectHit, Snapshot, effect_for_access, snapshot_of};
use refusal::Refusal;

// What a write did: stored, started a probe, asks for a candidate (nothing is changed until the bus answers), or is inside an effect, with the copy of the live body.
#[derive(Clone, Copy)]
pub enum WriteAnswer {
    Stored,
    Probing(usize),
    Candidate { slot: usize, address: u64 },
    Effect { hit: EffectHit, body: Snapshot },
}

// What it did or refusal 18, 19 or 20, and the state after it.
#[derive(Clone, Copy)]
pub struct WriteDone {
    pub answer: Result<WriteAnswer, Refusal>,
    pub state: FunctionState,
}

fn did(answer: WriteAnswer, state: FunctionState) -> WriteDone
    ensures { result ≡ write_done (Ok answer) state }
{
    WriteDone {
        answer: Ok(answer),
        state,
    }
}

// A refused write changes nothing.
fn refused(refusal: Refusal, state: FunctionState) -> WriteDone
    ensures { result ≡ write_done (Err refusal) state }
{
    WriteDone {
        answer: Err(refusal),
        state,
    }
}

// The store, by value over the leaf.
fn store_step(state: FunctionState, offset: usize, width: usize, value: u64) -> WriteDone
    ensures { result ≡ store_of state offset width value }
{
    let mut live = state.live;
    let mask = state.mask;
    let mut revision = state.revision;
    let kept = store_live(&mut live, &mask, &mut revision, offset, width, value);
    if kept {
        let mut out = state;
        out.live = live;
        out.revision = revision;
        return did(WriteAnswer::Stored, out);
    }
    refused(Refusal::RevisionExhausted, state)
}

// A write to the register of a BAR.
fn bar_step(state: FunctionState, offset: usize, width: usize, value: u64) -> WriteDone
    ensures { result ≡ bar_step state offset width value }
{
    let i = slot_at(offset);
    let bars = state.bars;
    let bar = bar_at(bars, i);
    match bar.write(
        offset % config_layout::CONFIG_BAR_REGISTER_SIZE,
        width,
        value,
    ) {
        BarWrite::Probe => did(WriteAnswer::Probing(i), with_bar(state, i, bar.set_probe())),
        BarWrite::Relocate(address) => did(WriteAnswer::Candidate { slot: i, address }, state),
    }
}

// A write outside the BARs, by what it does to the effects.
fn write_touched(
    state: FunctionState,
    offset: usize,
    width: usize,
    value: u64,
    touch: Result<Option<EffectHit>, Refusal>,
) -> WriteDone
    ensures { result ≡ write_touched state offset width value touch }
{
    match touch {
        Ok(None) => store_step(state, offset, width, value),
        Ok(Some(hit)) => {
            let live = state.live;
            let placed = state.placed;
            let body = snapshot_of(placed, &live, hit.region.capability as usize);
            did(WriteAnswer::Effect { hit, body }, state)
        }
        Err(refusal) => refused(refusal, state),
    }
}

// A checked write.
fn write_good(state: FunctionState, offset: ConfigOffset, width: usize, value: u64) -> WriteDone
    ensures { result ≡ write_good state offset.0 width value }
{
    let at = offset.value() as usize;
    let bars = state.bars;
    let register = in_bar(bars, at);
    if register {
        return bar_step(state, at, width, value);
    }
    let placed = state.placed;
    let touch = effect_for_access(placed, offset, width, true);
    write_touched(state, at, width, value, touch)
}

// Writes `width` bytes of `value` at `offset`.
pub fn write(state: FunctionState, offset: usize, width: usize, value: u64) -> WriteDone
    ensures { result ≡ write_of state offset width value }
{
    match check(space_of(state), offset, width) {
        Ok(access) => write_good(state, access.offset, access.width, value),
        Err(refusal) => refused(refusal, state),
    }
}

// The second step of a relocation, at an index: the bus accepted the candidate or did not.
pub fn finish_at(state: FunctionState, i: usize, accepted: Option<u64>) -> FunctionState
    ensures { result ≡ relocated_in state i accepted }
{
    let bars = state.bars;
    let bar = bar_at(bars, i);
    with_bar(state, i, bar.finish_relocation(accepted))
}

// The same at a slot.
pub fn finish_relocation(state: FunctionState, slot: Slot, accepted: Option<u64>) -> FunctionState
    ensures { result ≡ relocated_at state slot accepted }
{
    finish_at(state, slot.index(), accepted)
}
