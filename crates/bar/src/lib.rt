// Memory BARs: requests, registers, states, and the ranges that they take.
#![tactic(auto)]

mod bar_state;
mod memory_bar;
mod range;
mod register;

pub use bar_state::{BarState, BarWrite, Plan};
pub use memory_bar::{MemoryBar, Request, size_ok};
pub use range::{Aperture, Range};
pub use register::{candidate_address, committed_dword, size_mask, starts_probe};
