// Intervals, as a start and a length.
ghost use Rattle.std.specs.Prelude.{◌≡◌};
ghost use Rattle.word.specs.Interval.{covers, overlap};

// Whether `at` is one of the `length` numbers from `start` on.
pub fn covered(start: usize, length: usize, at: usize) -> bool
    ensures { result ≡ covers start length at }
{
    if at < start {
        return false;
    }
    at - start < length
}

// Whether some number is one of the `w` from `o` on and one of the `v` from `p` on.
pub fn overlap(o: u64, w: u64, p: u64, v: u64) -> bool
    ensures { result ≡ overlap o w p v }
{
    if o < p {
        if v == 0 {
            return false;
        }
        return p - o < w;
    }
    if w == 0 {
        return false;
    }
    o - p < v
}
