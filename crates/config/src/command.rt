// The command bits that a guest may write and that the revision follows.
ghost use Rattle.std.specs.Prelude.{◌≡◌};
ghost use Rattle.word.specs.Store.{stored};
ghost use Rattle.config.specs.Command.{watched_bits, watched};

use address::config_layout;
use address::config_layout::CONFIG_SPACE_BYTES;

// Bits 1 and 2, in the byte at 0x04.
pub const COMMAND_LOW: u8 = config_layout::COMMAND_MEMORY_SPACE_ENABLE
    | config_layout::COMMAND_BUS_MASTER_ENABLE;

// Bit 10, in the byte at 0x05.
pub const COMMAND_HIGH: u8 = config_layout::COMMAND_INTERRUPT_DISABLE;

// These bits of two bytes, as one number.
fn command_bits(low: u8, high: u8) -> u16
    ensures { result ≡ watched_bits low high }
{
    let enables = low & COMMAND_LOW;
    let disable = high & COMMAND_HIGH;
    (enables as u16) + 256 * (disable as u16)
}

// And of an image.
pub fn command_of(live: &[u8; CONFIG_SPACE_BYTES]) -> u16
    ensures { result ≡ watched live.now }
{
    command_bits(
        live[config_layout::CONFIG_COMMAND_OFFSET],
        live[config_layout::CONFIG_COMMAND_OFFSET + 1],
    )
}

// And of the image after a store.
pub fn command_after(
    live: &[u8; CONFIG_SPACE_BYTES],
    mask: &[u8; CONFIG_SPACE_BYTES],
    offset: usize,
    width: usize,
    value: u64,
) -> u16
    ensures { result ≡ watched (stored mask.now live.now offset width value) }
{
    let at = config_layout::CONFIG_COMMAND_OFFSET;
    let low = word::stored_byte(live, mask, offset, width, value, at);
    let high = word::stored_byte(live, mask, offset, width, value, at + 1);
    command_bits(low, high)
}
