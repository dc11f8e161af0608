// The declared BARs of all functions, and the list of them by key.
ghost use Rattle.std.specs.Prelude.{◌≡◌, ◌<◌, replicate};
ghost use Rattle.bar.specs.Bar.{no_bar};
ghost use Rattle.placement.specs.Keys.{key_count};
ghost use Rattle.placement.specs.Keys.{bars_in, slot_bar, declared_at, bars_of};

use crate::keys::KEY_COUNT;
use address::limits::{BAR_SLOTS, FUNCTION_LIMIT};
use bar::MemoryBar;

// The BARs of one function, the first `count` of the array, in any order of slots. There is no heap.
#[derive(Clone, Copy)]
pub struct FunctionBars {
    pub device: u8,
    pub count: usize,
    pub bars: [MemoryBar; BAR_SLOTS],
}

// Those of all functions, the first `count` of the array, in ascending order of devices. There is no heap.
#[derive(Clone, Copy)]
pub struct DeclaredBars {
    pub count: usize,
    pub functions: [FunctionBars; FUNCTION_LIMIT],
}

fn bars_in(function: FunctionBars) -> usize
    ensures { result ≡ bars_in function }
{
    function.count.min(BAR_SLOTS)
}

// The first BAR that a function has at a slot.
fn bar_in_slot(function: FunctionBars, slot: usize) -> MemoryBar
    ensures { result ≡ slot_bar function slot }
{
    for i in 0..bars_in(function) {
        let bar = function.bars[i];
        let at = bar.slot().index();
        if at == slot {
            return bar;
        }
    }
    MemoryBar::none()
}

fn bar_at(declared: DeclaredBars, key: usize) -> MemoryBar
    requires { key < key_count }
    ensures { result ≡ declared_at declared key }
{
    let i = key / BAR_SLOTS;
    if i < declared.count {
        let functions = declared.functions;
        let function = functions[i];
        return bar_in_slot(function, key % BAR_SLOTS);
    }
    MemoryBar::none()
}

fn no_bars() -> [MemoryBar; KEY_COUNT]
    ensures { result ≡ replicate key_count no_bar }
{
    let none = MemoryBar::none();
    [none; KEY_COUNT]
}

// All BARs by key.
pub(crate) fn collect_placements(declared: DeclaredBars) -> [MemoryBar; KEY_COUNT]
    ensures { result ≡ bars_of declared }
{
    let mut bars = no_bars();
    for key in 0..KEY_COUNT {
        let bar = bar_at(declared, key);
        bars[key] = bar;
    }
    bars
}
