// What a hypervisor links: a bus that the caller lends, and questions and answers as plain structs. include/voussglen.h says the same for C.
#![tactic(auto)]

mod lookups;
mod reads;
mod reports;
mod resets;
mod results;
mod starts;
mod writes;

// An effect as it is told, by the name that it has in C.
pub use capability::EffectHit as EffectTold;
pub use lookups::vg_lookup;
pub use reads::vg_read;
pub use reports::vg_enumerate;
pub use resets::vg_reset;
pub use results::{
    LookupAsk, LookupResult, ReadAsk, ReadResult, ResetResult, StartResult, WriteAsk, WriteResult,
};
pub use starts::vg_start;
pub use writes::vg_write;
