// Memory lookup.
ghost use Rattle.std.specs.Prelude.{◌≡◌, ◌&&◌};
ghost use Rattle.bus.specs.Lookup.{decodes, decoding_on, lies_within, lookup_of};

use crate::ranges::ranges_on;
use crate::state::Bus;
use address::config_layout;
use address::limits::{BAR_SLOTS, FUNCTION_LIMIT};
use bar::Range;
use config::FunctionState;
use placement::KEY_COUNT;
use refusal::Refusal;

// The BAR that holds an access, and the access's offset in it.
#[derive(Clone, Copy, Debug, PartialEq, Eq)]
pub struct Hit {
    pub device: u8,
    pub slot: usize,
    pub offset: u64,
}

const WIDTH_MOST: usize = 8;

// Whether a function answers memory accesses.
fn decodes_memory(function: FunctionState) -> bool
    ensures { result ≡ decodes function }
{
    let command = function.live[config_layout::CONFIG_COMMAND_OFFSET];
    command / config_layout::COMMAND_MEMORY_SPACE_ENABLE % 2 == 1
}

// Whether a whole access lies in a range.
fn lies_within(range: Range, address: u64, width: usize) -> bool
    ensures { result ≡ lies_within range address width }
{
    if address < range.start {
        return false;
    }
    let offset = address - range.start;
    if range.size < offset {
        return false;
    }
    (width as u64) <= range.size - offset
}

// Whether each function answers them.
fn decoding_on(bus: Bus) -> [bool; FUNCTION_LIMIT]
    ensures { result ≡ decoding_on bus }
{
    bus.functions.map(|function| decodes_memory(function))
}

// Whether a BAR with this range, of a function that answers or does not, holds an access.
fn holds(answers: bool, range: Range, address: u64, width: usize) -> bool
    ensures { result ≡ answers && lies_within range address width }
{
    if answers {
        return lies_within(range, address, width);
    }
    false
}

// The BAR that answers an access of `width` bytes at a memory address; none is a miss, and another width is refusal 18.
pub fn lookup(bus: Bus, address: u64, width: usize) -> Result<Option<Hit>, Refusal>
    ensures { result ≡ lookup_of bus address width }
{
    let known = word::width_ok(WIDTH_MOST, width);
    if !known {
        return Err(Refusal::BadAccess);
    }
    let ranges = ranges_on(bus);
    let decoding = decoding_on(bus);
    for key in 0..KEY_COUNT {
        let held = holds(decoding[key / BAR_SLOTS], ranges[key], address, width);
        if held {
            let range = ranges[key];
            return Ok(Some(Hit {
                device: bus.devices[key / BAR_SLOTS],
                slot: key % BAR_SLOTS,
                offset: address - range.start,
            }));
        }
    }
    Ok(None)
}
