// A BAR slot, 0 to 5.
ghost use Rattle.std.specs.Prelude.{◌≡◌};
ghost use Rattle.address.specs.Kinds.{slot, slot_of, index_of, register_of};

use crate::config_layout::{BAR_COUNT, CONFIG_BAR_REGISTER_SIZE, CONFIG_BAR_START};
use refusal::Refusal;

#[repr(C)]
#[derive(Clone, Copy, Debug, PartialEq, Eq, PartialOrd, Ord)]
pub struct Slot(u8);

impl Slot {
    pub fn new(value: u8) -> Result<Slot, Refusal>
        ensures { result ≡ slot_of value }
    {
        if value < BAR_COUNT {
            Ok(Slot(value))
        } else {
            Err(Refusal::BadDeviceOrSlot)
        }
    }

    // The first slot, which also stands in a blank.
    pub fn zero() -> Slot
        ensures { result ≡ slot 0 }
    {
        Slot(0)
    }

    pub fn value(self) -> u8
        ensures { result ≡ self.0 }
    {
        self.0
    }

    // The place in an array of six.
    pub fn index(self) -> usize
        ensures { result ≡ index_of self }
    {
        (self.0 % BAR_COUNT) as usize
    }

    // The offset of the slot's register.
    pub fn config_offset(self) -> usize
        ensures { result ≡ register_of self }
    {
        CONFIG_BAR_START + CONFIG_BAR_REGISTER_SIZE * (self.0 as usize)
    }
}
