// The layout of declared capabilities in config space: refusals 12 and 13.
ghost use Rattle.std.specs.Prelude.{◌≡◌};
ghost use Rattle.capability.specs.Layout.{answer_of, layout_of};

use crate::declared::Capabilities;
use crate::offset::next_offset;
use crate::placed::{CAPABILITY_HEADER_SIZE, Placed};
use crate::placing::place;
use crate::repeat::repeats_at;
use address::config_layout::CONFIG_STANDARD_HEADER_END;
use refusal::Refusal;

// Why capabilities have no layout: refusal 12 or 13, with the index of the capability at fault.
#[derive(Clone, Copy, Debug, PartialEq, Eq)]
pub struct LayoutRefusal {
    pub refusal: Refusal,
    pub index: usize,
}

// The first capability at fault decides, an id before the end of the space.
fn check_layout(space: u16, declared: Capabilities) -> Result<(), LayoutRefusal>
    ensures { result ≡ answer_of space declared }
{
    let count = declared.declared_count();
    let mut start = CONFIG_STANDARD_HEADER_END;
    for i in 0..count {
        let repeated = repeats_at(declared, i);
        if repeated {
            return Err(LayoutRefusal {
                refusal: Refusal::RepeatedEffect,
                index: i,
            });
        }
        let body = declared.length_at(i);
        if (space as usize) < start + CAPABILITY_HEADER_SIZE + (body as usize) {
            return Err(LayoutRefusal {
                refusal: Refusal::PastSpace,
                index: i,
            });
        }
        start = next_offset(start, body);
    }
    Ok(())
}

// Lays the capabilities out in a config space of `space` bytes.
#[tactic(auto, unfolding(crate::specs::Layout::layout_of))]
pub fn layout_capabilities(space: u16, declared: Capabilities) -> Result<Placed, LayoutRefusal>
    ensures { result ≡ layout_of space declared }
{
    check_layout(space, declared)?;
    Ok(place(space, declared))
}
