// A function's state and its steps, as numbers: C has no Option and no Result.
ghost use Rattle.std.specs.Prelude.{◌≡◌};
ghost use Rattle.address.specs.Kinds.{slot_of};
ghost use Rattle.config.specs.Read.{read_of};
ghost use Rattle.config.specs.Write.{write_of};
ghost use Rattle.config.specs.Reset.{reset_done};
ghost use Rattle.harness.specs.Function.{read_plain, read_numbers, write_plain, write_numbers, write_done_numbers, relocation, finished, reset_numbers};
ghost use Rattle.config.specs.Start.{power_on_state};

use address::Slot;
use address::limits::BAR_SLOTS;
use bar::BarState;
use capability::{Placed, PlacedEffect, Snapshot};
use config::{FunctionState, PowerOn, ReadAnswer, WriteAnswer, no_body};
use refusal::Refusal;

// What a write did, as C has it; a refused one has the kind of one that stored.
#[derive(Clone, Copy, Debug, PartialEq, Eq)]
enum Kind {
    Stored = 0,
    Probing = 1,
    Candidate = 2,
    Effect = 3,
}

#[repr(C)]
#[derive(Clone, Copy)]
pub struct Bars {
    pub bars: [BarState; BAR_SLOTS],
}

// A value, or an effect that the read is inside, or a refusal; what is not told is blank.
#[repr(C)]
#[derive(Clone, Copy)]
pub struct ReadOut {
    pub refusal: u8,
    pub inside: bool,
    pub value: u64,
    pub capability_id: u8,
    pub region: PlacedEffect,
    pub offset: u16,
    pub region_offset: u16,
    pub body: Snapshot,
}

// What the write did by its kind, or a refusal, and the state after it; what is not told is blank.
#[repr(C)]
#[derive(Clone, Copy)]
pub struct WriteOut {
    pub refusal: u8,
    pub kind: u8,
    pub slot: usize,
    pub address: u64,
    pub capability_id: u8,
    pub region: PlacedEffect,
    pub offset: u16,
    pub region_offset: u16,
    pub body: Snapshot,
    pub state: FunctionState,
}

#[repr(C)]
#[derive(Clone, Copy)]
pub struct ResetOut {
    pub refusal: u8,
    pub state: FunctionState,
}

// The state of a function at power-on.
#[unsafe(no_mangle)]
pub extern "C" fn harness_start(power_on: PowerOn, bars: Bars, placed: Placed) -> FunctionState
    ensures { result ≡ power_on_state power_on bars.bars placed }
{
    let states = bars.bars;
    FunctionState::new(power_on, states, placed)
}

// A read that no effect answers.
fn plain_read(refusal: u8, value: u64, body: Snapshot) -> ReadOut
    ensures { result ≡ read_plain refusal value body }
{
    ReadOut {
        refusal,
        inside: false,
        value,
        capability_id: 0,
        region: PlacedEffect::none(),
        offset: 0,
        region_offset: 0,
        body,
    }
}

fn read_out(answer: Result<ReadAnswer, Refusal>) -> ReadOut
    ensures { result ≡ read_numbers answer }
{
    match answer {
        Ok(ReadAnswer::Value(value)) => plain_read(refusal::ACCEPTED, value, no_body()),
        Ok(ReadAnswer::Effect { hit, body }) => ReadOut {
            refusal: refusal::ACCEPTED,
            inside: true,
            value: 0,
            capability_id: hit.capability_id,
            region: hit.region,
            offset: hit.offset,
            region_offset: hit.region_offset,
            body,
        },
        Err(refusal) => plain_read(refusal.number(), 0, no_body()),
    }
}

// Reads `width` bytes at `offset`.
#[unsafe(no_mangle)]
pub extern "C" fn harness_read(state: FunctionState, offset: usize, width: usize) -> ReadOut
    ensures { result ≡ read_numbers (read_of state offset width) }
{
    read_out(config::read(state, offset, width))
}

// A write that no effect answers.
fn plain_write(refusal: u8, kind: u8, slot: usize, address: u64, state: FunctionState) -> WriteOut
    ensures { result ≡ write_plain refusal kind slot address state }
{
    WriteOut {
        refusal,
        kind,
        slot,
        address,
        capability_id: 0,
        region: PlacedEffect::none(),
        offset: 0,
        region_offset: 0,
        body: no_body(),
        state,
    }
}

fn write_out(answer: Result<WriteAnswer, Refusal>, state: FunctionState) -> WriteOut
    ensures { result ≡ write_numbers state answer }
{
    let refusal = refusal::ACCEPTED;
    match answer {
        Ok(WriteAnswer::Stored) => plain_write(refusal, Kind::Stored as u8, 0, 0, state),
        Ok(WriteAnswer::Probing(slot)) => plain_write(refusal, Kind::Probing as u8, slot, 0, state),
        Ok(WriteAnswer::Candidate { slot, address }) => {
            plain_write(refusal, Kind::Candidate as u8, slot, address, state)
        }
        Ok(WriteAnswer::Effect { hit, body }) => WriteOut {
            refusal,
            kind: Kind::Effect as u8,
            slot: 0,
            address: 0,
            capability_id: hit.capability_id,
            region: hit.region,
            offset: hit.offset,
            region_offset: hit.region_offset,
            body,
            state,
        },
        Err(refusal) => plain_write(refusal.number(), Kind::Stored as u8, 0, 0, state),
    }
}

// Writes `width` bytes of `value` at `offset`; a candidate waits for `harness_finish`.
#[unsafe(no_mangle)]
pub extern "C" fn harness_write(
    state: FunctionState,
    offset: usize,
    width: usize,
    value: u64,
) -> WriteOut
    ensures { result ≡ write_done_numbers (write_of state offset width value) }
{
    let done = config::write(state, offset, width, value);
    write_out(done.answer, done.state)
}

fn relocation_of(accepted: bool, address: u64) -> Option<u64>
    ensures { result ≡ relocation address accepted }
{
    if accepted { Some(address) } else { None }
}

// The second step of a relocation; a slot above 5 changes nothing.
#[unsafe(no_mangle)]
pub extern "C" fn harness_finish(
    state: FunctionState,
    slot: u8,
    accepted: bool,
    address: u64,
) -> FunctionState
    ensures { result ≡ finished state (relocation address accepted) (slot_of slot) }
{
    match Slot::new(slot) {
        Ok(at) => { config::finish_relocation(state, at, relocation_of(accepted, address)) }
        Err(_) => state,
    }
}

// Restores the live image and the BARs, and counts.
#[unsafe(no_mangle)]
pub extern "C" fn harness_reset(state: FunctionState) -> ResetOut
    ensures { result ≡ reset_numbers (reset_done state) }
{
    let done = config::reset(state);
    let answer = done.answer;
    let after = done.state;
    ResetOut {
        refusal: refusal::number(answer),
        state: after,
    }
}
