// The placed range that a candidate runs into.
ghost use Rattle.placement.specs.Skip.{Clash};

use crate::keys::KEY_COUNT;
use bar::Range;

// The first of the placed ranges that `range` meets.
pub(crate) fn conflict_with(range: Range, placed: [Range; KEY_COUNT]) -> Option<Range>
    ensures { Clash range placed result }
{
    placed.iter().find(|other| range.meets(**other)).copied()
}
