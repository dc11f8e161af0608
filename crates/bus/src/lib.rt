// The bus: start, dispatch, relocation, lookup, reset; by value, and write and reset on a lent bus.
#![tactic(auto)]

mod bus_reset;
mod in_place;
mod memory_lookup;
mod power_up;
mod ranges;
mod read_access;
mod state;
mod write_access;

pub use bus_reset::{BusResetDone, Exhausted, reset};
pub use in_place::{BusWrite, reset_in_place, write_in_place};
pub use memory_lookup::{Hit, lookup};
pub use power_up::start;
pub use ranges::ranges_on;
pub use read_access::read;
pub use state::{Bus, function_at, index_of};
pub use write_access::{BusWriteAnswer, BusWriteDone, WriteRefusal, write};
