// Places in config space: slots, offsets, the layout, the limits, and the check of an access.
#![tactic(auto)]

mod access;
pub mod config_layout;
pub mod limits;
mod offset;
mod slot;

pub use access::{Access, check};
pub use offset::ConfigOffset;
pub use slot::Slot;
