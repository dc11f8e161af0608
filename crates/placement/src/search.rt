// The search for the lowest free place.
ghost use Rattle.std.specs.Prelude.{◌≡◌};
ghost use Rattle.bar.specs.Range.{end_of};
ghost use Rattle.placement.specs.Place.{Lowest, fit_number};
ghost use Rattle.placement.specs.Skip.{aligned_from};

use crate::conflict::conflict_with;
use crate::keys::KEY_COUNT;
use bar::{Aperture, Range};
use refusal::Refusal;

// The least multiple of `size` from `from` on; the only multiple of 0 is 0.
fn align_up(from: u64, size: u64) -> Option<u64>
    ensures { result ≡ aligned_from from size }
{
    if from == 0 {
        return Some(0);
    }
    from.checked_next_multiple_of(size)
}

// The least multiple of `size` past a range.
fn align_past(range: Range, size: u64) -> Option<u64>
    ensures { result ≡ aligned_from (end_of range) size }
{
    let end = range.start.checked_add(range.size)?;
    align_up(end, size)
}

// The lowest place for `size` addresses. Each turn passes one of the placed ranges for good.
pub fn first_fit(aperture: Aperture, size: u64, placed: [Range; KEY_COUNT]) -> Option<u64>
    ensures { Lowest aperture size placed result }
{
    let mut start = align_up(aperture.start, size)?;
    // It goes from range to range and counts nothing.
    loop {
        let candidate = Range { start, size };
        if !candidate.lies_in(aperture) {
            return None;
        }
        match conflict_with(candidate, placed) {
            None => return Some(start),
            Some(other) => start = align_past(other, size)?,
        }
    }
}

// The number of an answer of the search: that of refusal 17 where there is no place.
pub fn fit_number(fit: Option<u64>) -> u8
    ensures { result ≡ fit_number fit }
{
    match fit {
        Some(_) => refusal::ACCEPTED,
        None => Refusal::NoPlace.number(),
    }
}
