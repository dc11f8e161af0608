// The check of a config access: refusal 18.
ghost use Rattle.std.specs.Prelude.{◌≡◌};
ghost use Rattle.address.specs.Check.{access_of};

use crate::config_layout::ACCESS_WIDTH_MOST;
use crate::offset::ConfigOffset;
use refusal::Refusal;

// Where config space is asked, and for how many bytes.
#[derive(Clone, Copy, Debug, PartialEq, Eq)]
pub struct Access {
    pub offset: ConfigOffset,
    pub width: usize,
}

// The access of `width` bytes at `offset`, if it is one in a config space of `space` bytes.
pub fn check(space: u16, offset: usize, width: usize) -> Result<Access, Refusal>
    ensures { result ≡ access_of space offset width }
{
    if !word::width_ok(ACCESS_WIDTH_MOST, width) {
        return Err(Refusal::BadAccess);
    }
    match ConfigOffset::new(space, offset) {
        Some(at) if offset % width == 0 => Ok(Access { offset: at, width }),
        _ => Err(Refusal::BadAccess),
    }
}
