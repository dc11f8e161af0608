// The rule of the store on lent arrays, for a state that is carried by value and for one that is changed in place.
ghost use Rattle.std.specs.Prelude.{◌≡◌, not, cond};
ghost use Rattle.word.specs.Store.{stored};
ghost use Rattle.config.specs.Command.{exhausted, revision_after};

use crate::command::{command_after, command_of};
use address::config_layout::CONFIG_SPACE_BYTES;

pub const LARGEST_REVISION: u64 = 0xffff_ffff_ffff_ffff;

// Stores under the mask and follows the revision; false, with nothing changed, where that is at its largest and a command bit would change.
pub fn store_live(
    live: &mut [u8; CONFIG_SPACE_BYTES],
    mask: &[u8; CONFIG_SPACE_BYTES],
    revision: &mut u64,
    offset: usize,
    width: usize,
    value: u64,
) -> bool
    ensures { (result ≡ not (exhausted live.old (stored mask.now live.old offset width value) revision.old)) × (live.new ≡ cond result (stored mask.now live.old offset width value) live.old) × (revision.new ≡ cond result (revision_after live.old (stored mask.now live.old offset width value) revision.old) revision.old) }
{
    let old = command_of(live);
    let new = command_after(live, mask, offset, width, value);
    if old == new {
        word::store(live, mask, offset, width, value);
        return true;
    }
    let n = *revision;
    if n == LARGEST_REVISION {
        return false;
    }
    *revision = n + 1;
    word::store(live, mask, offset, width, value);
    true
}
