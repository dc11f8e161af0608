// Enumeration, by the bus's own reads and writes.
ghost use Rattle.std.specs.Prelude.{◌≡◌};
ghost use Rattle.enumeration.specs.Enumerate.{absent_report, enumerate_of};

use crate::asked::{ask_byte, ask_word, read_identity};
use crate::capability_list::{no_list, read_list};
use crate::report::Report;
use crate::slots::{enumerate_slots, no_slots};
use address::config_layout;
use bus::Bus;
use config::Identity;

// What is reported, and the bus afterwards.
#[derive(Clone, Copy)]
pub struct Enumerated {
    pub report: Report,
    pub bus: Bus,
}

fn absent_report() -> Report
    ensures { result ≡ absent_report }
{
    Report {
        present: false,
        identity: Identity {
            vendor: 0,
            device: 0,
            subsystem_vendor: 0,
            subsystem: 0,
            revision: 0,
            base_class: 0,
            subclass: 0,
            programming_interface: 0,
        },
        pin: 0,
        slots: no_slots(),
        list: no_list(),
        list_count: 0,
    }
}

// Reports a device as a guest would find it.
pub fn enumerate(bus: Bus, device: usize) -> Enumerated
    ensures { result ≡ enumerate_of bus device }
{
    if ask_word(bus, device, config_layout::CONFIG_VENDOR_ID_OFFSET)
        == config_layout::ABSENT_VENDOR_ID
    {
        return Enumerated {
            report: absent_report(),
            bus,
        };
    }
    let identity = read_identity(bus, device);
    let pin = ask_byte(bus, device, config_layout::CONFIG_INTERRUPT_PIN_OFFSET);
    let done = enumerate_slots(bus, device);
    let slots = done.slots;
    let after = done.bus;
    let listed = read_list(after, device);
    let list = listed.list;
    Enumerated {
        report: Report {
            present: true,
            identity,
            pin,
            slots,
            list,
            list_count: listed.count,
        },
        bus: after,
    }
}
