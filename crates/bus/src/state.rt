// A bus: an aperture and functions in device order.
ghost use Rattle.std.specs.Prelude.{◌≡◌, min, replicate};
ghost use Rattle.address.specs.Layout.{config_space_size};
ghost use Rattle.address.specs.Limits.{function_room};
ghost use Rattle.bus.specs.Bus.{no_function_state, empty_bus, function_at, index_found};

use address::config_layout::CONFIG_SPACE_BYTES;
use address::limits::{BAR_SLOTS, FUNCTION_LIMIT};
use bar::{Aperture, BarState};
use capability::Placed;
use config::FunctionState;

// The function at an index has the device at that index; devices ascend; what lies past the count is blank. C reads this layout, and there is no heap.
#[repr(C)]
#[derive(Clone, Copy)]
pub struct Bus {
    pub aperture: Aperture,
    pub devices: [u8; FUNCTION_LIMIT],
    pub functions: [FunctionState; FUNCTION_LIMIT],
    pub count: usize,
}

fn no_image() -> [u8; CONFIG_SPACE_BYTES]
    ensures { result ≡ replicate config_space_size 0 }
{
    [0u8; CONFIG_SPACE_BYTES]
}

// What stands past the last function.
pub(crate) fn no_function_state() -> FunctionState
    ensures { result ≡ no_function_state }
{
    let none = BarState::none();
    FunctionState {
        live: no_image(),
        power_on: no_image(),
        mask: no_image(),
        bars: [none; BAR_SLOTS],
        placed: Placed::none(),
        revision: 0,
    }
}

impl Bus {
    // No aperture and no functions.
    pub fn none() -> Bus
        ensures { result ≡ empty_bus }
    {
        let none = no_function_state();
        Bus {
            aperture: Aperture { start: 0, end: 0 },
            devices: [0u8; FUNCTION_LIMIT],
            functions: [none; FUNCTION_LIMIT],
            count: 0,
        }
    }
}

// How many functions there are.
pub(crate) fn count_on(count: usize) -> usize
    ensures { result ≡ min count function_room }
{
    word::at_most(count, FUNCTION_LIMIT)
}

// The index of a device among the first `count`, if it is one of them.
pub fn index_of(devices: &[u8], count: usize, device: usize) -> Option<usize>
    ensures { result ≡ index_found devices.now count device }
{
    (0..count).find(|k| word::byte_at(devices, *k) as usize == device)
}

// The function at an index; the blank one past the last place.
pub fn function_at(bus: Bus, k: usize) -> FunctionState
    ensures { result ≡ function_at bus k }
{
    if k < FUNCTION_LIMIT {
        return bus.functions[k];
    }
    no_function_state()
}
