// Where BARs are placed in the aperture.
#![tactic(auto)]

mod answer;
mod automatic;
mod conflict;
mod declared_bars;
mod fixed;
mod keys;
mod placing;
mod search;
mod waiting;

pub use answer::{PlacementRefusal, resolve_bar_addresses};
pub use declared_bars::{DeclaredBars, FunctionBars};
pub use fixed::is_place;
pub use keys::KEY_COUNT;
pub use search::{first_fit, fit_number};
