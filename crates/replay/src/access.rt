// Config accesses. A record: offset, width, 1 if the access passes.
use crate::input::next;
use address::config_layout::CONFIG_SPACE_SIZE;
use std::io;
use std::io::Read;

// 1 where the library lets the access pass.
fn passes(offset: usize, width: usize) -> u64 {
    match address::check(CONFIG_SPACE_SIZE, offset, width) {
        Ok(_) => 1,
        Err(_) => 0,
    }
}

// Whether the record is there and the library answers as it says.
pub fn same_access<R: Read>(input: &mut R) -> io::Result<bool> {
    let mut record = [0u8; 24];
    if !next(input, &mut record)? {
        return Ok(false);
    }
    let offset = word::read(&record, 0, 8) as usize;
    let width = word::read(&record, 8, 8) as usize;
    Ok(passes(offset, width) == word::read(&record, 16, 8))
}
