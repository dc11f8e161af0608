// Bytes stored under a write mask, on a lent image.
ghost use Rattle.std.specs.Prelude.{◌≡◌, ◌-◌, min, get_or};
ghost use Rattle.word.specs.Number.{byte_of};
ghost use Rattle.word.specs.Store.{blend, stored};

use crate::bounds::{at_most, past};

// Byte k of a number.
fn byte_of(value: u64, k: usize) -> u8
    ensures { result ≡ byte_of value k }
{
    match value.to_le_bytes().get(k) {
        Some(byte) => *byte,
        None => 0,
    }
}

// The bits of value where mask is 1, those of old elsewhere.
pub fn blended(mask: u8, old: u8, value: u8) -> u8
    ensures { result ≡ blend mask old value }
{
    (old & !mask) | (value & mask)
}

// Byte j after a store, without storing.
pub fn stored_byte(
    live: &[u8],
    mask: &[u8],
    offset: usize,
    width: usize,
    value: u64,
    j: usize,
) -> u8
    ensures { result ≡ get_or (stored mask.now live.now offset width value) j 0 }
{
    if live.len() <= j {
        return 0;
    }
    if j < offset {
        return live[j];
    }
    if width <= j - offset {
        return live[j];
    }
    if mask.len() <= j {
        return live[j];
    }
    blended(mask[j], live[j], byte_of(value, j - offset))
}

// How many places from `offset` on both a store of `width` bytes and a list of `len` have.
pub fn reach(len: usize, offset: usize, width: usize) -> usize
    ensures { result ≡ min width (len - offset) }
{
    at_most(width, past(len, offset))
}

// Stores `width` bytes of `value` from `offset` on, byte by byte under the mask.
pub fn store(live: &mut [u8], mask: &[u8], offset: usize, width: usize, value: u64)
    ensures { live.new ≡ stored mask.now live.old offset width value }
{
    let many = reach(mask.len(), offset, reach(live.len(), offset, width));
    let mut rest = value;
    for i in 0..many {
        let at = offset + i;
        let b = blended(mask[at], live[at], (rest % 256) as u8);
        live[at] = b;
        rest = rest / 256;
    }
}
