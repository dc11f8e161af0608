// Where capabilities start.
ghost use Rattle.std.specs.Prelude.{◌≡◌, ◌≤◌, ◌<◌};
ghost use Rattle.address.specs.Kinds.{offset};
ghost use Rattle.capability.specs.Declaration.{count_of, length_at};
ghost use Rattle.capability.specs.Offset.{next_multiple, capability_end, offset_at};

use crate::declared::Capabilities;
use crate::placed::CAPABILITY_HEADER_SIZE;
use address::ConfigOffset;
use address::config_layout::CONFIG_STANDARD_HEADER_END;

pub const CAPABILITY_ALIGNMENT: usize = 4;

// Where the capability after one at `start` starts.
#[tactic(auto, unfolding(crate::specs::Offset::next_multiple))]
pub(crate) fn next_offset(start: usize, body: u8) -> usize
    requires { start ≤ 0x10000 }
    ensures { result ≡ next_multiple (capability_end start body) }
{
    let end = start + CAPABILITY_HEADER_SIZE + (body as usize);
    end.next_multiple_of(CAPABILITY_ALIGNMENT)
}

// An offset that is in the space.
#[tactic(auto, using(address::proofs::Offsets::offset_good, address::proofs::Offsets::offset_is))]
pub(crate) fn offset_in(space: u16, value: usize) -> ConfigOffset
    requires { value < space }
    ensures { result ≡ offset value }
{
    ConfigOffset::new(space, value).unwrap()
}

impl Capabilities {
    // Where one more capability would start.
    #[tactic(auto, using(crate::proofs::Offsets::offset_first, crate::proofs::Offsets::offset_next, crate::proofs::Offsets::next_near))]
    pub fn next_start(self) -> usize
        ensures { (result ≡ offset_at (length_at self) (count_of self)) × (result ≤ 0x10000) }
    {
        let count = self.declared_count();
        let mut start = CONFIG_STANDARD_HEADER_END;
        for i in 0..count {
            start = next_offset(start, self.length_at(i));
        }
        start
    }
}
