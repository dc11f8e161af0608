// A BAR as it is declared.
ghost use Rattle.std.specs.Prelude.{◌≡◌};
ghost use Rattle.bar.specs.Bar.{size_ok, bar_of, no_bar};

use crate::range::FOUR_GIB;
use address::Slot;
use refusal::Refusal;

// Both cases have their name in the rules ("automatic or a fixed address").
#[derive(Clone, Copy, Debug, PartialEq, Eq)]
pub enum Request {
    Auto,
    Fixed(u64),
}

#[derive(Clone, Copy, Debug, PartialEq, Eq)]
pub struct MemoryBar {
    slot: Slot,
    size: u64,
    request: Request,
}

const LEAST_SIZE: u64 = 16;

const MOST_SIZE: u64 = FOUR_GIB;

// Whether a BAR may have the size: a power of two between the least and the largest.
pub fn size_ok(size: u64) -> bool
    ensures { result ≡ size_ok size }
{
    if size < LEAST_SIZE {
        return false;
    }
    if MOST_SIZE < size {
        return false;
    }
    size.is_power_of_two()
}

impl MemoryBar {
    pub fn new(slot: Slot, size: u64, request: Request) -> Result<MemoryBar, Refusal>
        ensures { result ≡ bar_of slot size request }
    {
        let good = size_ok(size);
        if good {
            Ok(MemoryBar {
                slot,
                size,
                request,
            })
        } else {
            Err(Refusal::BadSize)
        }
    }

    // What stands past the last BAR of a list.
    pub fn none() -> MemoryBar
        ensures { result ≡ no_bar }
    {
        MemoryBar {
            slot: Slot::zero(),
            size: 0,
            request: Request::Auto,
        }
    }

    pub fn slot(self) -> Slot
        ensures { result ≡ self.slot }
    {
        self.slot
    }

    pub fn size(self) -> u64
        ensures { result ≡ self.size }
    {
        self.size
    }

    pub fn request(self) -> Request
        ensures { result ≡ self.request }
    {
        self.request
    }
}
