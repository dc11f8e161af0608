// The state of a placed BAR.
ghost use Rattle.std.specs.Prelude.{◌≡◌};
ghost use Rattle.bar.specs.Register.{committed};
ghost use Rattle.bar.specs.State.{no_state, fresh, reset_of, shown, asks, probed, relocated, range_of};

use crate::range::Range;
use crate::register::{candidate_address, committed_dword, size_mask, starts_probe};
use address::Slot;

// Where a BAR was placed. A size of 0 is no BAR.
#[repr(C)]
#[derive(Clone, Copy, Debug, PartialEq, Eq)]
pub struct Plan {
    pub slot: Slot,
    pub size: u64,
    pub address: u64,
}

#[repr(C)]
#[derive(Clone, Copy, Debug, PartialEq, Eq)]
pub struct BarState {
    pub plan: Plan,
    pub address: u64,
    pub probing: bool,
}

// What a write to a BAR's register asks for. A case for each, as axdevice has them: None would not say that a probe starts.
#[derive(Clone, Copy, Debug, PartialEq, Eq)]
pub enum BarWrite {
    Probe,
    Relocate(u64),
}

impl BarState {
    pub fn new(plan: Plan) -> BarState
        ensures { result ≡ fresh plan }
    {
        let address = plan.address;
        BarState {
            plan,
            address,
            probing: false,
        }
    }

    // What stands in a slot with no BAR.
    pub fn none() -> BarState
        ensures { result ≡ no_state }
    {
        BarState::new(Plan {
            slot: Slot::zero(),
            size: 0,
            address: 0,
        })
    }

    // The dword that a write merges into, also while probing.
    pub fn committed_dword(self) -> u32
        ensures { result ≡ committed self.address }
    {
        let address = self.address;
        committed_dword(address)
    }

    // What the register reads.
    pub fn raw_dword(self) -> u64
        ensures { result ≡ shown self }
    {
        if self.probing {
            size_mask(self.plan.size)
        } else {
            committed_dword(self.address) as u64
        }
    }

    // What a write of `width` bytes from `lane` on asks for.
    pub fn write(self, lane: usize, width: usize, value: u64) -> BarWrite
        ensures { result ≡ asks self lane width value }
    {
        let dword = word::merged(self.committed_dword(), lane, width, value);
        let probe = starts_probe(dword);
        if probe {
            BarWrite::Probe
        } else {
            BarWrite::Relocate(candidate_address(dword))
        }
    }

    pub fn set_probe(self) -> BarState
        ensures { result ≡ probed self }
    {
        BarState {
            probing: true,
            ..self
        }
    }

    // Ends probing, at the address that was accepted or where the BAR stands.
    pub fn finish_relocation(self, accepted: Option<u64>) -> BarState
        ensures { result ≡ relocated self accepted }
    {
        let mut out = self;
        out.probing = false;
        if let Some(address) = accepted {
            out.address = address;
        }
        out
    }

    pub fn reset(self) -> BarState
        ensures { result ≡ reset_of self }
    {
        let plan = self.plan;
        BarState::new(plan)
    }

    // The committed range.
    pub fn range(self) -> Range
        ensures { result ≡ range_of self }
    {
        Range {
            start: self.address,
            size: self.plan.size,
        }
    }
}
