// What is declared of a function, as numbers, since C has no Option and no Result, and the image that it gives.
ghost use Rattle.std.specs.Prelude.{◌≡◌};
ghost use Rattle.config.specs.ConfigByte.{byte_check_of};
ghost use Rattle.config.specs.PowerOn.{power_on_of};
ghost use Rattle.harness.specs.Contents.{intx_of, contents_of, bytes_out};
ghost use Rattle.address.specs.Layout.{config_space_size};

use crate::function::Bars;
use address::config_layout::CONFIG_SPACE_SIZE;
use address::limits::CONFIG_BYTE_LIMIT;
use capability::Placed;
use config::{
    BODY_SPACE, BadConfigByte, ConfigByte, Contents, Identity, Intx, PowerOn, check_config_bytes,
};
use refusal::Refusal;

// A function's contents; pin and line count where there is INTx.
#[repr(C)]
#[derive(Clone, Copy)]
pub struct ContentsNumbers {
    pub identity: Identity,
    pub has_intx: bool,
    pub pin: u8,
    pub line: u8,
    pub bytes: [ConfigByte; CONFIG_BYTE_LIMIT],
    pub byte_count: usize,
    pub bodies: [u8; BODY_SPACE],
    pub masks: [u8; BODY_SPACE],
}

// Refusal 9 with the index of the first config byte at fault; 0 and 0 where all may stand.
#[repr(C)]
#[derive(Clone, Copy)]
pub struct BytesOut {
    pub refusal: u8,
    pub index: usize,
}

fn intx_of(has_intx: bool, pin: u8, line: u8) -> Option<Intx>
    ensures { result ≡ intx_of pin line has_intx }
{
    if has_intx {
        Some(Intx { pin, line })
    } else {
        None
    }
}

fn contents_of(contents: ContentsNumbers) -> Contents
    ensures { result ≡ contents_of contents }
{
    let identity = contents.identity;
    let bytes = contents.bytes;
    let bodies = contents.bodies;
    let masks = contents.masks;
    Contents {
        identity,
        intx: intx_of(contents.has_intx, contents.pin, contents.line),
        bytes,
        byte_count: contents.byte_count,
        bodies,
        masks,
    }
}

// The image and the write masks at power-on.
#[unsafe(no_mangle)]
pub extern "C" fn harness_power_on(contents: ContentsNumbers, bars: Bars, placed: Placed) -> PowerOn
    ensures { result ≡ power_on_of config_space_size (contents_of contents) bars.bars placed }
{
    let states = bars.bars;
    PowerOn::build(contents_of(contents), states, placed)
}

fn bytes_out(answer: Result<(), BadConfigByte>) -> BytesOut
    ensures { result ≡ bytes_out answer }
{
    match answer {
        Ok(()) => BytesOut {
            refusal: refusal::ACCEPTED,
            index: 0,
        },
        Err(bad) => BytesOut {
            refusal: Refusal::from(bad).number(),
            index: bad.0,
        },
    }
}

// Where the config bytes stand.
#[unsafe(no_mangle)]
pub extern "C" fn harness_config_bytes(contents: ContentsNumbers, placed: Placed) -> BytesOut
    ensures { result ≡ bytes_out (byte_check_of config_space_size (contents_of contents) placed) }
{
    bytes_out(check_config_bytes(CONFIG_SPACE_SIZE, contents_of(contents), placed))
}
