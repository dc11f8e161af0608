// A record of a placement: the aperture's start and end; 48 times 0 none, 1 automatic or 2 fixed, with size and address; 8 devices;
// then what axdevice answered: the refusal or 0, its device and slot, and 48 addresses.
pub const PLACES: usize = 2;

pub const DEVICES: usize = 146;

pub const REFUSAL: usize = 154;

pub const ADDRESSES: usize = 157;

const NUMBERS: usize = 205;

pub const RECORD_SIZE: usize = NUMBERS * 8;

// The number at an index; 0 past the last.
pub fn number(record: &[u8], index: usize) -> u64 {
    if index < NUMBERS {
        return word::read(record, index * 8, 8);
    }
    0
}
