// The committed ranges on the bus, and the acceptance of a candidate.
ghost use Rattle.std.specs.Prelude.{◌≡◌, ◌<◌, replicate};
ghost use Rattle.address.specs.Layout.{bar_count};
ghost use Rattle.address.specs.Limits.{function_room};
ghost use Rattle.placement.specs.Keys.{key_count};
ghost use Rattle.placement.specs.Place.{no_range};
ghost use Rattle.bus.specs.Bus.{ranges_on};
ghost use Rattle.bus.specs.Access.{ranges_but, accepts};

use crate::state::{Bus, count_on};
use address::limits::BAR_SLOTS;
use bar::Range;
use placement::{KEY_COUNT, is_place};

// The empty range, which meets nothing.
fn no_range() -> Range
    ensures { result ≡ no_range }
{
    Range { start: 0, size: 0 }
}

fn no_ranges() -> [Range; KEY_COUNT]
    ensures { result ≡ replicate key_count no_range }
{
    let none = no_range();
    [none; KEY_COUNT]
}

// The committed ranges at all keys; the empty one where there is no such function. One loop here: a call for each key would copy the bus each time.
pub fn ranges_on(bus: Bus) -> [Range; KEY_COUNT]
    ensures { result ≡ ranges_on bus }
{
    let end = count_on(bus.count) * BAR_SLOTS;
    let mut ranges = no_ranges();
    for key in 0..end {
        let function = bus.functions[key / BAR_SLOTS];
        let bars = function.bars;
        let bar = bars[key % BAR_SLOTS];
        let range = bar.range();
        ranges[key] = range;
    }
    ranges
}

// Those of every BAR but the one at `key`.
fn ranges_but(bus: Bus, key: usize) -> [Range; KEY_COUNT]
    requires { key < key_count }
    ensures { result ≡ ranges_but bus key }
{
    let mut ranges = ranges_on(bus);
    let none = no_range();
    ranges[key] = none;
    ranges
}

// Whether the bus accepts an address for slot i of the function at index k.
pub(crate) fn accepted_at(bus: Bus, k: usize, i: usize, address: u64) -> bool
    requires { (k < function_room) × (i < bar_count) }
    ensures { result ≡ accepts bus k i address }
{
    let function = bus.functions[k];
    let bar = function.bars[i];
    let others = ranges_but(bus, k * BAR_SLOTS + i);
    is_place(bus.aperture, bar.plan.size, others, address)
}
