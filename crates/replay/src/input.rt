// The recorded answers on standard input: a header, then records, each with its kind before it.
use std::io;
use std::io::Read;

// "vgreplay" in bytes.
const MAGIC: u64 = 0x7961_6c70_6572_6776;

// Fills a buffer; false where the input ends before.
pub fn next<R: Read>(input: &mut R, bytes: &mut [u8]) -> io::Result<bool> {
    let got = streams::fill(input, bytes)?;
    Ok(got == bytes.len())
}

// How many records follow: the header has the magic number, the count and the seed; 0 where it is no header.
pub fn records<R: Read>(input: &mut R) -> io::Result<u64> {
    let mut header = [0u8; 24];
    next(input, &mut header)?;
    let magic = word::read(&header, 0, 8);
    if magic == MAGIC {
        return Ok(word::read(&header, 8, 8));
    }
    Ok(0)
}

// The kind of the next record, if there is one.
pub fn kind<R: Read>(input: &mut R) -> io::Result<Option<u64>> {
    let mut number = [0u8; 8];
    if next(input, &mut number)? {
        return Ok(Some(word::read(&number, 0, 8)));
    }
    Ok(None)
}
