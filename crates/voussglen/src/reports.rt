// Enumeration.
ghost use Rattle.std.specs.Prelude.{◌≡◌};
ghost use Rattle.enumeration.specs.Enumerate.{enumerate_of};

use bus::Bus;
use enumeration::{Enumerated, Report, enumerate};

// The step by value.
fn step(bus: Bus, device: usize) -> Enumerated
    ensures { result ≡ enumerate_of bus device }
{
    enumerate(bus, device)
}

// Reports a device as a guest would find it, by reads and writes of the lent bus.
#[unsafe(no_mangle)]
pub extern "C" fn vg_enumerate(bus: &mut Bus, device: usize) -> Report
    ensures { (result ≡ (enumerate_of bus.old device).report) × (bus.new ≡ (enumerate_of bus.old device).bus) }
{
    let d = step(*bus, device);
    *bus = d.bus;
    d.report
}
