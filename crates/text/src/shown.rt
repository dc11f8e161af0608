// What of a bus is shown.
ghost use Rattle.std.specs.Prelude.{◌≡◌};
ghost use Rattle.text.specs.Text.{shown_of};

use address::limits::FUNCTION_LIMIT;
use bar::{Aperture, Range};
use bus::{Bus, ranges_on};
use placement::KEY_COUNT;

// Slot s of function f has the key f * 6 + s, and an empty range where it has no BAR.
#[derive(Clone, Copy)]
pub struct Shown {
    pub aperture: Aperture,
    pub devices: [u8; FUNCTION_LIMIT],
    pub ranges: [Range; KEY_COUNT],
}

pub(crate) fn shown_of(bus: Bus) -> Shown
    ensures { result ≡ shown_of bus }
{
    let aperture = bus.aperture;
    let devices = bus.devices;
    Shown {
        aperture,
        devices,
        ranges: ranges_on(bus),
    }
}
