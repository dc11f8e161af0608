// The slots of a device: each is sized by a probe and put back.
ghost use Rattle.std.specs.Prelude.{◌≡◌, ◌<◌, replicate};
ghost use Rattle.address.specs.Layout.{bar_count};
ghost use Rattle.enumeration.specs.Enumerate.{register_at, slot_by, empty_slot, slot_read, after_slot, slots_read, after_slots};

use crate::asked::ask_dword;
use crate::report::SlotReport;
use address::config_layout;
use address::limits::BAR_SLOTS;
use bus::{Bus, write};

// The register of a slot.
fn register_at(slot: usize) -> usize
    requires { slot < bar_count }
    ensures { result ≡ register_at slot }
{
    config_layout::CONFIG_BAR_START + config_layout::CONFIG_BAR_REGISTER_SIZE * slot
}

// The dword that starts a probe.
const ONES: u64 = 0xffff_ffff;

// A slot's size and address, by its register before and after ones were written to it.
fn slot_by(address: u64, mask: u64) -> SlotReport
    ensures { result ≡ slot_by address mask }
{
    if mask == 0 {
        return SlotReport {
            size: 0,
            address: 0,
        };
    }
    SlotReport {
        size: bar::size_mask(mask),
        address,
    }
}

#[derive(Clone, Copy)]
struct SlotDone {
    pub report: SlotReport,
    pub bus: Bus,
}

// One slot: read, write ones, read, write back.
#[tactic(auto, unfolding(crate::specs::Enumerate::slot_read, crate::specs::Enumerate::after_slot))]
fn enumerate_slot(bus: Bus, device: usize, slot: usize) -> SlotDone
    requires { slot < bar_count }
    ensures { (result.report ≡ slot_read bus device slot) × (result.bus ≡ after_slot bus device slot) }
{
    let register = register_at(slot);
    let address = ask_dword(bus, device, register);
    let ones = write(bus, device, register, 4, ONES);
    let sized = ones.bus;
    let mask = ask_dword(sized, device, register);
    let back = write(sized, device, register, 4, address);
    let after = back.bus;
    SlotDone {
        report: slot_by(address, mask),
        bus: after,
    }
}

#[derive(Clone, Copy)]
pub(crate) struct SlotsDone {
    pub slots: [SlotReport; BAR_SLOTS],
    pub bus: Bus,
}

pub(crate) fn no_slots() -> [SlotReport; BAR_SLOTS]
    ensures { result ≡ replicate bar_count empty_slot }
{
    let none = SlotReport {
        size: 0,
        address: 0,
    };
    [none; BAR_SLOTS]
}

// All slots, in order.
pub(crate) fn enumerate_slots(bus: Bus, device: usize) -> SlotsDone
    ensures { (result.slots ≡ slots_read bus device) × (result.bus ≡ after_slots bus device bar_count) }
{
    let mut slots = no_slots();
    let mut now = bus;
    for i in 0..BAR_SLOTS {
        let done = enumerate_slot(now, device, i);
        let report = done.report;
        slots[i] = report;
        let after = done.bus;
        now = after;
    }
    SlotsDone { slots, bus: now }
}
