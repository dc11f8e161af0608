// What a step of placing answers: the range of each key so far, or the key that is refused.
ghost use Rattle.std.specs.Prelude.{◌≡◌};
ghost use Rattle.placement.specs.Passes.{nothing_yet};

use crate::keys::KEY_COUNT;
use bar::Range;
use refusal::Refusal;

// The refusal of the BAR at a key.
#[derive(Clone, Copy)]
pub(crate) struct KeyRefusal {
    pub refusal: Refusal,
    pub key: usize,
}

// An empty range is nothing yet.
pub(crate) fn nothing_yet() -> [Range; KEY_COUNT]
    ensures { result ≡ nothing_yet }
{
    let none = Range { start: 0, size: 0 };
    [none; KEY_COUNT]
}
