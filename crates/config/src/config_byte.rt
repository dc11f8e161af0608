// Where config bytes may stand: refusal 9.
ghost use Rattle.std.specs.Prelude.{◌≡◌};
ghost use Rattle.config.specs.ConfigByte.{byte_count, byte_ok, byte_check_of};
ghost use Rattle.refusal.specs.declared.refusal.Refusal.TheVariants.{BadConfigByte as bad_config_byte};

use crate::function::Contents;
use address::limits::CONFIG_BYTE_LIMIT;
use address::{ConfigOffset, config_layout};
use capability::{Placed, capability_at};
use refusal::Refusal;

// The config byte at fault, by its index.
#[derive(Clone, Copy, Debug, PartialEq, Eq)]
pub struct BadConfigByte(pub usize);

impl From<BadConfigByte> for Refusal {
    ghost from_gives = { λ _ refusal. refusal ≡ bad_config_byte };

    fn from(_bad: BadConfigByte) -> Refusal {
        Refusal::BadConfigByte
    }
}

// How many config bytes there are.
pub fn byte_count(contents: Contents) -> usize
    ensures { result ≡ byte_count contents }
{
    word::at_most(contents.byte_count, CONFIG_BYTE_LIMIT)
}

// Whether a config byte may stand at an offset in a config space of `space` bytes.
fn byte_ok(space: u16, placed: Placed, offset: ConfigOffset) -> bool
    ensures { result ≡ byte_ok space placed offset.0 }
{
    let at = offset.value() as usize;
    if at == config_layout::CONFIG_CACHE_LINE_SIZE_OFFSET {
        return true;
    }
    if at == config_layout::CONFIG_LATENCY_TIMER_OFFSET {
        return true;
    }
    if at == config_layout::CONFIG_INTERRUPT_LINE_OFFSET {
        return true;
    }
    if at < config_layout::CONFIG_STANDARD_HEADER_END {
        return false;
    }
    if (space as usize) <= at {
        return false;
    }
    capability_at(placed, offset).is_none()
}

// Refusal 9: the first config byte that may not stand where it is.
pub fn check_config_bytes(
    space: u16,
    contents: Contents,
    placed: Placed,
) -> Result<(), BadConfigByte>
    ensures { result ≡ byte_check_of space contents placed }
{
    let n = byte_count(contents);
    for i in 0..n {
        let byte = contents.bytes[i];
        let good = byte_ok(space, placed, byte.offset);
        if !good {
            return Err(BadConfigByte(i));
        }
    }
    Ok(())
}
