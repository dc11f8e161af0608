// Differences and minima.
ghost use Rattle.std.specs.Prelude.{◌≡◌, ◌-◌, min};

// A number, but no more than `most`.
pub fn at_most(n: usize, most: usize) -> usize
    ensures { result ≡ min n most }
{
    n.min(most)
}

// How far `a` lies past `b`; 0 where it does not.
pub fn past(a: usize, b: usize) -> usize
    ensures { result ≡ a - b }
{
    a.saturating_sub(b)
}
