// Copies of capability bodies.
ghost use Rattle.std.specs.Prelude.{◌≡◌, ◌<◌, replicate};
ghost use Rattle.capability.specs.Size.{body_most};
ghost use Rattle.capability.specs.Snapshot.{body_start, body_length, snapshot_of, copy_of};

use crate::owner::{capability_in, capability_start};
use crate::placed::{CAPABILITY_BODY_MAX_SIZE, CAPABILITY_HEADER_SIZE, Placed};

// `length` bytes of a body; what lies past them is zero. C reads this layout.
#[repr(C)]
#[derive(Clone, Copy, Debug, PartialEq, Eq)]
pub struct Snapshot {
    pub length: u8,
    pub bytes: [u8; CAPABILITY_BODY_MAX_SIZE],
}

// Where the body of the capability at an index starts in config space.
#[tactic(auto, unfolding(crate::specs::Snapshot::body_start))]
pub(crate) fn body_start(placed: Placed, i: usize) -> usize
    ensures { (result ≡ body_start placed i) × (result < 0x10002) }
{
    (capability_start(placed, i) as usize) + CAPABILITY_HEADER_SIZE
}

// How long that body is.
#[tactic(auto, unfolding(crate::specs::Snapshot::body_length))]
pub(crate) fn body_length(placed: Placed, i: usize) -> usize
    ensures { result ≡ body_length placed i }
{
    let capability = capability_in(placed, i);
    (capability.length as usize).min(CAPABILITY_BODY_MAX_SIZE)
}

fn blank() -> [u8; CAPABILITY_BODY_MAX_SIZE]
    ensures { result ≡ replicate body_most 0 }
{
    [0u8; CAPABILITY_BODY_MAX_SIZE]
}

// The body of the capability at an index, as far as the image reaches.
#[tactic(auto, using(crate::proofs::Views::body_most_lem, word::proofs::Tables::blank_filled, word::proofs::Tables::filled_more))]
pub fn snapshot_of(placed: Placed, image: &[u8], i: usize) -> Snapshot
    ensures { result ≡ snapshot_of placed image.now i }
{
    let start = body_start(placed, i);
    let length = body_length(placed, i);
    let mut bytes = blank();
    for k in 0..length {
        bytes[k] = word::byte_at(image, start + k);
    }
    Snapshot {
        length: length as u8,
        bytes,
    }
}

// A slice's bytes, as many as a body may have; no library call fills the rest with zeros.
#[tactic(auto, using(word::proofs::Tables::blank_filled, word::proofs::Tables::filled_more))]
pub(crate) fn copy_of(bytes: &[u8]) -> Snapshot
    ensures { result ≡ copy_of bytes.now }
{
    let length = bytes.len().min(CAPABILITY_BODY_MAX_SIZE);
    let mut copy = blank();
    for k in 0..length {
        copy[k] = bytes[k];
    }
    Snapshot {
        length: length as u8,
        bytes: copy,
    }
}
