// A byte offset in config space.
ghost use Rattle.std.specs.Prelude.{◌≡◌};
ghost use Rattle.address.specs.Kinds.{offset, offset_of};

#[repr(C)]
#[derive(Clone, Copy, Debug, PartialEq, Eq, PartialOrd, Ord)]
pub struct ConfigOffset(u16);

impl ConfigOffset {
    // An offset in a config space of `space` bytes.
    pub fn new(space: u16, value: usize) -> Option<ConfigOffset>
        ensures { result ≡ offset_of space value }
    {
        if value < space as usize {
            Some(ConfigOffset(value as u16))
        } else {
            None
        }
    }

    // The first offset, which also stands in a blank.
    pub fn zero() -> ConfigOffset
        ensures { result ≡ offset 0 }
    {
        ConfigOffset(0)
    }

    pub fn value(self) -> u16
        ensures { result ≡ self.0 }
    {
        self.0
    }
}

// Every byte is an offset of a config space of 256.
impl From<u8> for ConfigOffset {
    ghost from_gives = { λ value at. at ≡ offset value };

    fn from(value: u8) -> ConfigOffset {
        ConfigOffset(u16::from(value))
    }
}
