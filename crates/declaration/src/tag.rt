// The tags of fields, and which body lengths each allows.
ghost use Rattle.std.specs.Prelude.{◌≡◌};
ghost use Rattle.declaration.specs.Tag.{tag_of, allows, is_long};

use capability::CAPABILITY_BODY_MAX_SIZE;

#[derive(Clone, Copy, Debug, PartialEq, Eq)]
pub(crate) enum Tag {
    Aperture = 1,
    Function = 2,
    Intx = 3,
    Bar = 4,
    ConfigByte = 5,
    Capability = 6,
    Effect = 7,
}

impl Tag {
    // The tag of a byte; no other is known.
    #[tactic(auto, unfolding(crate::specs::Tag::tag_of))]
    pub(crate) fn new(byte: u8) -> Option<Tag>
        ensures { result ≡ tag_of byte }
    {
        match byte {
            1 => Some(Tag::Aperture),
            2 => Some(Tag::Function),
            3 => Some(Tag::Intx),
            4 => Some(Tag::Bar),
            5 => Some(Tag::ConfigByte),
            6 => Some(Tag::Capability),
            7 => Some(Tag::Effect),
            _ => None,
        }
    }

    // Whether a field of this tag may have a body of `length` bytes.
    pub(crate) fn allows(self, length: usize) -> bool
        ensures { result ≡ allows self length }
    {
        match self {
            Tag::Aperture => length == 16,
            Tag::Function => length == 13,
            Tag::Intx => length == 2,
            Tag::Bar => length == 18,
            Tag::ConfigByte => length == 3,
            Tag::Capability => length % 2 == 1,
            Tag::Effect => length == 5,
        }
    }

    // Whether it is a capability whose body is too long.
    pub(crate) fn is_long(self, length: usize) -> bool
        ensures { result ≡ is_long self length }
    {
        match self {
            Tag::Capability => CAPABILITY_BODY_MAX_SIZE < length / 2,
            _ => false,
        }
    }
}
