// The BARs that a record asks for.
use crate::record::{DEVICES, PLACES, number};
use address::Slot;
use address::limits::{BAR_SLOTS, FUNCTION_LIMIT};
use bar::{MemoryBar, Request};
use placement::{DeclaredBars, FunctionBars};
use std::array;

// The kinds as the record on disk has them.
const KIND_NONE: u64 = 0;

const KIND_FIXED: u64 = 2;

fn slot_at(index: usize) -> Slot {
    if index < BAR_SLOTS {
        return Slot::new(index as u8).unwrap_or(Slot::zero());
    }
    Slot::zero()
}

fn request_of(kind: u64, address: u64) -> Request {
    if kind == KIND_FIXED {
        return Request::Fixed(address);
    }
    Request::Auto
}

// Number `part` of what the record has of a slot of a function: kind, size, address.
fn number_of(record: &[u8], function: usize, slot: usize, part: usize) -> u64 {
    if function < FUNCTION_LIMIT && slot < BAR_SLOTS && part < 3 {
        return number(record, PLACES + (function * BAR_SLOTS + slot) * 3 + part);
    }
    0
}

fn bar_in(record: &[u8], function: usize, slot: usize) -> MemoryBar {
    let kind = number_of(record, function, slot, 0);
    if kind == KIND_NONE {
        return MemoryBar::none();
    }
    let size = number_of(record, function, slot, 1);
    let address = number_of(record, function, slot, 2);
    MemoryBar::new(slot_at(slot), size, request_of(kind, address)).unwrap_or(MemoryBar::none())
}

fn bars_in(record: &[u8], function: usize) -> [MemoryBar; BAR_SLOTS] {
    array::from_fn(|slot| bar_in(record, function, slot))
}

fn device_in(record: &[u8], function: usize) -> u8 {
    if function < FUNCTION_LIMIT {
        return u8::try_from(number(record, DEVICES + function)).unwrap_or(0);
    }
    0
}

fn function_in(record: &[u8], function: usize) -> FunctionBars {
    FunctionBars {
        device: device_in(record, function),
        count: BAR_SLOTS,
        bars: bars_in(record, function),
    }
}

// A function that the record does not use has no BAR, so that all eight can be passed.
pub fn declared(record: &[u8]) -> DeclaredBars {
    DeclaredBars {
        count: FUNCTION_LIMIT,
        functions: array::from_fn(|function| function_in(record, function)),
    }
}
