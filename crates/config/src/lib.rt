// A function's config space: power-on image, state, reads, writes, reset.
#![tactic(auto)]

mod command;
mod config_byte;
mod function;
mod image;
mod in_place;
mod power_on;
mod read_step;
mod reset_step;
mod start;
mod state;
mod store_leaf;
mod write_step;

pub use config_byte::{BadConfigByte, check_config_bytes};
pub use function::{BODY_SPACE, ConfigByte, Contents, Function, Identity, Intx};
pub use in_place::{ConfigWrite, write_in_place};
pub use power_on::PowerOn;
pub use read_step::{ReadAnswer, read};
pub use reset_step::{ResetDone, reset};
pub use state::{FunctionState, no_body};
pub use store_leaf::{LARGEST_REVISION, store_live};
pub use write_step::{WriteAnswer, WriteDone, finish_at, finish_relocation, write};
