// Views of a capability's body in one of a function's two images.
ghost use Rattle.std.specs.Prelude.{◌≡◌, option_copied};
ghost use Rattle.capability.specs.View.{view_of, view_copy};

use crate::owner::capability_count;
use crate::placed::Placed;
use crate::snapshot::{Snapshot, body_length, body_start, copy_of};

// What a view shows, copied. A flag and counts: C reads this layout.
#[repr(C)]
#[derive(Clone, Copy, Debug, PartialEq, Eq)]
pub struct ViewCopy {
    pub found: bool,
    pub body: Snapshot,
}

// The body of the capability at an index in the live image or in the power-on image, each `space` bytes long. An absent view differs from an empty body.
#[tactic(auto, using(crate::proofs::Views::body_most_lem), unfolding(crate::specs::View::view_of, crate::specs::View::viewed, crate::specs::View::body_in))]
pub fn view_of<'a>(
    placed: Placed,
    index: usize,
    live: &'a [u8],
    power: &'a [u8],
    space: u16,
    from_live: bool,
) -> Option<&'a [u8]>
    ensures { option_copied result ≡ view_of placed index live.now power.now space from_live }
{
    if capability_count(placed) <= index {
        return None;
    }
    if live.len() != space as usize {
        return None;
    }
    if power.len() != space as usize {
        return None;
    }
    let start = body_start(placed, index);
    let end = start + body_length(placed, index);
    if (space as usize) < end {
        return None;
    }
    if from_live {
        Some(&live[start..end])
    } else {
        Some(&power[start..end])
    }
}

// A copy of what `view_of` gives. Its parameters are those of `view_of`, a promise that keeps its form.
pub fn view_copy<'a>(
    placed: Placed,
    index: usize,
    live: &'a [u8],
    power: &'a [u8],
    space: u16,
    from_live: bool,
) -> ViewCopy
    ensures { result ≡ view_copy (view_of placed index live.now power.now space from_live) }
{
    match view_of(placed, index, live, power, space, from_live) {
        Some(body) => ViewCopy {
            found: true,
            body: copy_of(body),
        },
        None => ViewCopy {
            found: false,
            body: copy_of(&[]),
        },
    }
}
