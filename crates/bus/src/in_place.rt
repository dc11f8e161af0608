// Write and reset on a bus that is lent and changed in place; by value and in place are both promised (docs/PROMISES.md).
ghost use Rattle.std.specs.Prelude.{◌≡◌};
ghost use Rattle.bus.specs.Access.{bus_write_of};
ghost use Rattle.bus.specs.Reset.{bus_reset_of};

use crate::bus_reset::{Exhausted, reset};
use crate::state::Bus;
use crate::write_access::{BusWriteAnswer, WriteRefusal, write};

// `width` bytes of `value`, to be written at `offset` of a device.
#[repr(C)]
#[derive(Clone, Copy)]
pub struct BusWrite {
    pub device: usize,
    pub offset: usize,
    pub width: usize,
    pub value: u64,
}

// Writes to a lent bus.
pub fn write_in_place(bus: &mut Bus, w: BusWrite) -> Result<BusWriteAnswer, WriteRefusal>
    ensures { (result ≡ (bus_write_of bus.old w.device w.offset w.width w.value).answer) × (bus.new ≡ (bus_write_of bus.old w.device w.offset w.width w.value).bus) }
{
    let d = write(*bus, w.device, w.offset, w.width, w.value);
    *bus = d.bus;
    d.answer
}

// Resets a lent bus.
pub fn reset_in_place(bus: &mut Bus) -> Result<(), Exhausted>
    ensures { (result ≡ (bus_reset_of bus.old).answer) × (bus.new ≡ (bus_reset_of bus.old).bus) }
{
    let d = reset(*bus);
    *bus = d.bus;
    d.answer
}
