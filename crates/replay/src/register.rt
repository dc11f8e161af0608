// BAR registers. A record: size, address, probing, lane, width, value; what the register shows; 0 probe or 1 relocate, and the candidate.
use crate::input::next;
use address::Slot;
use bar::{BarState, BarWrite, Plan};
use std::io;
use std::io::Read;

// The BAR as it stands before the write.
fn bar_now(size: u64, address: u64, probing: u64) -> BarState {
    let plan = Plan {
        slot: Slot::zero(),
        size,
        address,
    };
    let bar = BarState::new(plan);
    if probing == 0 {
        return bar;
    }
    bar.set_probe()
}

// Whether a write asks for what the record says.
fn same_write(asked: BarWrite, kind: u64, candidate: u64) -> bool {
    match asked {
        BarWrite::Probe => kind == 0,
        BarWrite::Relocate(address) => kind == 1 && address == candidate,
    }
}

// Whether the library shows and asks what the record says.
fn same_bar(record: &[u8]) -> bool {
    let size = word::read(record, 0, 8);
    let address = word::read(record, 8, 8);
    let probing = word::read(record, 16, 8);
    let bar = bar_now(size, address, probing);
    let shown = bar.raw_dword();
    if shown != word::read(record, 48, 8) {
        return false;
    }
    let lane = word::read(record, 24, 8) as usize;
    let width = word::read(record, 32, 8) as usize;
    let asked = bar.write(lane, width, word::read(record, 40, 8));
    same_write(asked, word::read(record, 56, 8), word::read(record, 64, 8))
}

// Whether the record is there and the library answers as it says.
pub fn same_register<R: Read>(input: &mut R) -> io::Result<bool> {
    let mut record = [0u8; 72];
    if !next(input, &mut record)? {
        return Ok(false);
    }
    Ok(same_bar(&record))
}
