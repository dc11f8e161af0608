// Enumeration: what a guest finds of a device, by the bus's own reads and writes.
#![tactic(auto)]

mod asked;
mod capability_list;
mod report;
mod slots;
mod whole;

pub use report::{Listed, Report, SlotReport};
pub use whole::{Enumerated, enumerate};
