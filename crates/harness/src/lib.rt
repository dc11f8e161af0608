// A test's tool: what the comparison in compare/ links, a few functions a rule, on numbers, byte slices and plain structs. It is not the product's boundary.
// It reads no declaration, and takes for granted what one would be refused for:
// - A count past its array counts as the array's length: capabilities, effects, config bytes, functions.
// - `harness_layout` and `harness_effect` take a body length above the most as the most, and an access other than 1, 2 or 3 as read.
// - `harness_layout` tests no effect for refusal 11, nor that effects come capability by capability. `harness_effect` adds to the last capability, whatever index the effect has.
// - `harness_place` tests neither the aperture (8) nor the numbers and the order of devices (5); a size that refusal 7 is given for is no BAR.
// - `harness_power_on`, `harness_config_bytes`, `harness_start` and the steps take identity, pin, BARs, images and placed capabilities as they are, and `harness_finish` moves a BAR where it is told.
#![tactic(auto)]

mod contents;
mod effects;
mod function;
mod lists;
mod places;
mod scalar;

pub use contents::{BytesOut, ContentsNumbers, harness_config_bytes, harness_power_on};
pub use effects::{Touched, harness_mode, harness_snapshot, harness_touch, harness_view};
pub use function::{
    Bars, ReadOut, ResetOut, WriteOut, harness_finish, harness_read, harness_reset, harness_start,
    harness_write,
};
pub use lists::{DeclaredNumbers, LaidOut, harness_effect, harness_layout};
pub use places::{PlaceNumbers, PlacedOut, harness_place};
pub use scalar::{
    BarAsked, harness_bar_asks, harness_body, harness_check, harness_shown, harness_size,
    harness_size_mask,
};
