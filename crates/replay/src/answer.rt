// Placements; record.rt has the record.
use crate::input::next;
use crate::record::{ADDRESSES, RECORD_SIZE, REFUSAL, number};
use crate::request::declared;
use bar::Aperture;
use placement::{KEY_COUNT, resolve_bar_addresses};
use refusal::ACCEPTED;
use std::io;
use std::io::Read;

fn same_refusal(record: &[u8], refusal: u8, device: u8, slot: u8) -> bool {
    u64::from(refusal) == number(record, REFUSAL)
        && u64::from(device) == number(record, REFUSAL + 1)
        && u64::from(slot) == number(record, REFUSAL + 2)
}

fn same_addresses(record: &[u8], addresses: [u64; KEY_COUNT]) -> bool {
    for key in 0..KEY_COUNT {
        if addresses[key] != number(record, ADDRESSES + key) {
            return false;
        }
    }
    true
}

// Both the verdict and every address, which a refusal records as 0.
fn same_answer(record: &[u8]) -> bool {
    let aperture = Aperture {
        start: number(record, 0),
        end: number(record, 1),
    };
    match resolve_bar_addresses(aperture, declared(record)) {
        Ok(addresses) => {
            same_refusal(record, ACCEPTED, 0, 0) && same_addresses(record, addresses)
        }
        Err(refused) => {
            same_refusal(
                record,
                refused.refusal.number(),
                refused.device,
                refused.slot,
            ) && same_addresses(record, [0u64; KEY_COUNT])
        }
    }
}

// Whether the record is there and the library answers as it says.
pub fn same_placement<R: Read>(input: &mut R) -> io::Result<bool> {
    let mut record = [0u8; RECORD_SIZE];
    if !next(input, &mut record)? {
        return Ok(false);
    }
    Ok(same_answer(&record))
}
