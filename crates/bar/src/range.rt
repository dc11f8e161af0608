// Ranges of addresses and the aperture that they must lie in.
ghost use Rattle.std.specs.Prelude.{◌≡◌};
ghost use Rattle.bar.specs.Range.{multiple, lies_in, meets, aperture_of, four_gib};

use refusal::Refusal;

pub const FOUR_GIB: u64 = 0x1_0000_0000;

// `size` addresses from `start` on.
#[repr(C)]
#[derive(Clone, Copy, Debug, PartialEq, Eq)]
pub struct Range {
    pub start: u64,
    pub size: u64,
}

// The addresses from `start` up to `end`.
#[repr(C)]
#[derive(Clone, Copy, Debug, PartialEq, Eq)]
pub struct Aperture {
    pub start: u64,
    pub end: u64,
}

impl Aperture {
    // An aperture is not empty and ends at 4 GiB at most.
    pub fn new(start: u64, end: u64) -> Result<Aperture, Refusal>
        ensures { result ≡ aperture_of four_gib start end }
    {
        if start < end {
            if end <= FOUR_GIB {
                return Ok(Aperture { start, end });
            }
        }
        Err(Refusal::BadAperture)
    }
}

impl Range {
    // Whether the range starts at a multiple of its size.
    pub fn multiple(self) -> bool
        ensures { result ≡ multiple self }
    {
        if self.size == 0 {
            return self.start == 0;
        }
        self.start % self.size == 0
    }

    pub fn lies_in(self, aperture: Aperture) -> bool
        ensures { result ≡ lies_in aperture self }
    {
        if self.start < aperture.start {
            return false;
        }
        if aperture.end < self.start {
            return false;
        }
        self.size <= aperture.end - self.start
    }

    // Whether some address lies in both.
    pub fn meets(self, other: Range) -> bool
        ensures { result ≡ meets self other }
    {
        word::overlap(self.start, self.size, other.start, other.size)
    }
}
