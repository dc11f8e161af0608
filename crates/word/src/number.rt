// Numbers in bytes, lowest byte first.
ghost use Rattle.std.specs.Prelude.{◌≡◌, ◌+◌, ◌<◌, ◌≤◌, length, get_or};
ghost use Rattle.word.specs.Number.{number, part_of, read_at, bytes_of, merge};

use crate::bounds::at_most;
use crate::masked::store;

// The byte at an index; 0 past the end.
pub fn byte_at(bytes: &[u8], i: usize) -> u8
    ensures { result ≡ get_or bytes.now i 0 }
{
    if bytes.len() <= i {
        return 0;
    }
    bytes[i]
}

// The number that at most eight bytes spell.
fn spelt(bytes: &[u8]) -> u64
    requires { length bytes.now ≤ 8 }
    ensures { result ≡ number bytes.now }
{
    let mut n = 0;
    for i in (0..bytes.len()).rev() {
        n = n * 256 + u64::from(bytes[i]);
    }
    n
}

// As much as there is of the part of `width` bytes from `offset` on.
pub fn part<'a>(bytes: &'a [u8], offset: usize, width: usize) -> &'a [u8]
    ensures { result.now ≡ part_of bytes.now offset width }
{
    let from = at_most(offset, bytes.len());
    let to = from + at_most(width, bytes.len() - from);
    &bytes[from..to]
}

// As many bytes as there are, one after the other.
fn read_part(bytes: &[u8], offset: usize, width: usize) -> u64
    ensures { result ≡ read_at bytes.now offset width }
{
    spelt(part(bytes, offset, at_most(width, 8)))
}

// Two bytes, and four, that are there: no loop, so that a config access is one load.
fn word_there(bytes: &[u8], offset: usize) -> u64
    requires { offset + 2 ≤ length bytes.now }
    ensures { result ≡ read_at bytes.now offset 2 }
{
    u64::from(u16::from_le_bytes([bytes[offset], bytes[offset + 1]]))
}

fn dword_there(bytes: &[u8], offset: usize) -> u64
    requires { offset + 4 ≤ length bytes.now }
    ensures { result ≡ read_at bytes.now offset 4 }
{
    u64::from(u32::from_le_bytes([
        bytes[offset],
        bytes[offset + 1],
        bytes[offset + 2],
        bytes[offset + 3],
    ]))
}

// Bytes that are there, by their width.
fn read_there(bytes: &[u8], offset: usize, width: usize) -> u64
    requires { offset + width ≤ length bytes.now }
    ensures { result ≡ read_at bytes.now offset width }
{
    if width == 4 {
        return dword_there(bytes, offset);
    }
    if width == 2 {
        return word_there(bytes, offset);
    }
    read_part(bytes, offset, width)
}

// The number in `width` bytes, eight at most, from `offset` on.
pub fn read(bytes: &[u8], offset: usize, width: usize) -> u64
    ensures { result ≡ read_at bytes.now offset width }
{
    if offset <= bytes.len() {
        if width <= bytes.len() - offset {
            return read_there(bytes, offset, width);
        }
    }
    read_part(bytes, offset, width)
}

// `width` bytes of a value in place of those of the dword from `lane` on.
pub fn merged(dword: u32, lane: usize, width: usize, value: u64) -> u32
    ensures { result ≡ merge dword lane width value }
{
    let mut bytes = dword.to_le_bytes();
    let all = [255u8; 4];
    store(&mut bytes, &all, lane, width, value);
    spelt(&bytes) as u32
}
