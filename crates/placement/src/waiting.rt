// The automatic BARs that wait for a place.
ghost use Rattle.std.specs.Prelude.{◌≡◌, ◌<◌};
ghost use Rattle.placement.specs.Keys.{key_count};
ghost use Rattle.placement.specs.Passes.{waits, next_of};

use crate::keys::KEY_COUNT;
use bar::{MemoryBar, Range, Request};

// Whether a key has an automatic BAR that is not placed yet.
#[tactic(auto, unfolding(crate::specs::Passes::waits))]
fn waits(bars: [MemoryBar; KEY_COUNT], placed: [Range; KEY_COUNT], key: usize) -> bool
    requires { key < key_count }
    ensures { result ≡ waits bars placed key }
{
    let bar = bars[key];
    let given = placed[key];
    match bar.request() {
        Request::Fixed(_) => false,
        Request::Auto => bar.size() > 0 && given.size == 0,
    }
}

// The BAR that comes first among those that wait: the largest, and of equal ones the one of the lowest key.
pub(crate) fn next_automatic(
    bars: [MemoryBar; KEY_COUNT],
    placed: [Range; KEY_COUNT],
) -> Option<usize>
    ensures { result ≡ next_of bars placed }
{
    let mut next: Option<usize> = None;
    for key in 0..KEY_COUNT {
        if waits(bars, placed, key) {
            match next {
                None => next = Some(key),
                Some(first) => {
                    if bars[first].size() < bars[key].size() {
                        next = Some(key);
                    }
                }
            }
        }
    }
    next
}
