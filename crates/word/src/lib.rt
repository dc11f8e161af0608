// Little-endian numbers in bytes, the store of bytes under a write mask, and intervals.
#![tactic(auto)]

mod bounds;
mod interval;
mod masked;
mod number;
mod plain;
mod width;

pub use bounds::{at_most, past};
pub use interval::{covered, overlap};
pub use masked::{blended, store, stored_byte};
pub use number::{byte_at, merged, part, read};
pub use plain::{lay, put};
pub use width::width_ok;
