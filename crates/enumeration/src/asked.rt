// Reads of the bus as numbers.
ghost use Rattle.std.specs.Prelude.{◌≡◌};
ghost use Rattle.bus.specs.Access.{bus_read_of};
ghost use Rattle.enumeration.specs.Enumerate.{value_of, asked, answers_byte, identity_read};

use address::config_layout;
use bus::{Bus, read};
use config::{Identity, ReadAnswer};

// The number that a read gives, if it gives one.
fn value_at(bus: Bus, device: usize, offset: usize, width: usize) -> Option<u64>
    ensures { result ≡ value_of (bus_read_of bus device offset width) }
{
    match read(bus, device, offset, width) {
        Ok(ReadAnswer::Value(value)) => Some(value),
        _ => None,
    }
}

// A read of the bus as a byte, a word or a dword, 0 where it gives no number. One for each: a shared one would leave the narrowing to every caller.
#[tactic(auto, unfolding(crate::specs::Enumerate::asked))]
pub(crate) fn ask_byte(bus: Bus, device: usize, offset: usize) -> u8
    ensures { result ≡ asked bus device offset 1 }
{
    (value_at(bus, device, offset, 1).unwrap_or(0) % 0x100) as u8
}

#[tactic(auto, unfolding(crate::specs::Enumerate::asked))]
pub(crate) fn ask_word(bus: Bus, device: usize, offset: usize) -> u16
    ensures { result ≡ asked bus device offset 2 }
{
    (value_at(bus, device, offset, 2).unwrap_or(0) % 0x1_0000) as u16
}

#[tactic(auto, unfolding(crate::specs::Enumerate::asked))]
pub(crate) fn ask_dword(bus: Bus, device: usize, offset: usize) -> u64
    ensures { result ≡ asked bus device offset 4 }
{
    value_at(bus, device, offset, 4).unwrap_or(0) % 0x1_0000_0000
}

// Whether a read of one byte gives one.
#[tactic(auto, unfolding(crate::specs::Enumerate::answers_byte))]
pub(crate) fn answers_byte(bus: Bus, device: usize, offset: usize) -> bool
    ensures { result ≡ answers_byte bus device offset }
{
    value_at(bus, device, offset, 1).is_some()
}

#[tactic(auto, unfolding(crate::specs::Enumerate::identity_read))]
pub(crate) fn read_identity(bus: Bus, device: usize) -> Identity
    ensures { result ≡ identity_read bus device }
{
    Identity {
        vendor: ask_word(bus, device, config_layout::CONFIG_VENDOR_ID_OFFSET),
        device: ask_word(bus, device, config_layout::CONFIG_DEVICE_ID_OFFSET),
        subsystem_vendor: ask_word(
            bus,
            device,
            config_layout::CONFIG_SUBSYSTEM_VENDOR_ID_OFFSET,
        ),
        subsystem: ask_word(
            bus,
            device,
            config_layout::CONFIG_SUBSYSTEM_DEVICE_ID_OFFSET,
        ),
        revision: ask_byte(bus, device, config_layout::CONFIG_REVISION_OFFSET),
        base_class: ask_byte(bus, device, config_layout::CONFIG_BASE_CLASS_OFFSET),
        subclass: ask_byte(bus, device, config_layout::CONFIG_SUBCLASS_OFFSET),
        programming_interface: ask_byte(
            bus,
            device,
            config_layout::CONFIG_PROGRAMMING_INTERFACE_OFFSET,
        ),
    }
}
