// Which capability holds a config byte, and the mode of each byte.
ghost use Rattle.std.specs.Prelude.{◌≡◌};
ghost use Rattle.capability.specs.Mode.{in_capability, holder_of, body_mode, byte_mode_of};

use crate::owner::{capability_count, capability_in, capability_start, owner_of};
use crate::placed::{CAPABILITY_HEADER_SIZE, Placed};
use address::ConfigOffset;

// How a config byte of a capability is kept.
#[derive(Clone, Copy, Debug, PartialEq, Eq)]
pub enum ByteMode {
    Constant,
    StoredMasked,
    EffectOnly,
}

// Whether a byte lies in the capability at an index.
#[tactic(auto, unfolding(crate::specs::Mode::in_capability))]
fn capability_covers(placed: Placed, offset: usize, i: usize) -> bool
    ensures { result ≡ in_capability placed offset i }
{
    let capability = capability_in(placed, i);
    word::covered(
        capability.offset.value() as usize,
        CAPABILITY_HEADER_SIZE + (capability.length as usize),
        offset,
    )
}

// The capability that holds a byte, by its index.
pub fn capability_at(placed: Placed, offset: ConfigOffset) -> Option<usize>
    ensures { result ≡ holder_of placed offset.0 }
{
    let at = offset.value() as usize;
    (0..capability_count(placed)).find(|i| capability_covers(placed, at, *i))
}

// The mode of a body byte.
fn body_mode(owner: Option<usize>, mask: u8) -> ByteMode
    ensures { result ≡ body_mode owner mask }
{
    match owner {
        Some(_) => ByteMode::EffectOnly,
        None => {
            if mask == 0 {
                ByteMode::Constant
            } else {
                ByteMode::StoredMasked
            }
        }
    }
}

// The mode of a byte, by the write masks of the whole config space; none outside every capability.
#[tactic(auto, unfolding(crate::specs::Mode::byte_mode_of))]
pub fn mode_of(placed: Placed, mask: &[u8], offset: ConfigOffset) -> Option<ByteMode>
    ensures { result ≡ byte_mode_of placed mask.now offset.0 }
{
    let at = offset.value() as usize;
    let i = capability_at(placed, offset)?;
    let start = capability_start(placed, i) as usize;
    let header = word::covered(start, CAPABILITY_HEADER_SIZE, at);
    if header {
        return Some(ByteMode::Constant);
    }
    Some(body_mode(owner_of(placed, offset), word::byte_at(mask, at)))
}
