// The declaration file: its fields, what they declare, and its refusals.
#![tactic(auto)]

mod answer;
mod finished;
mod frame;
mod reader;
mod reading;
mod said;
mod so_far;
mod tag;
mod take;
mod take_bus;
mod take_capability;
mod take_function;
mod whole;

pub use answer::{Declaration, DeclarationRefusal, Place, read_declaration};
pub use finished::Finished;
pub use frame::{Field, field_body, frame_at, more_at, next_at};
pub use reader::Reader;
pub use reading::{Reading, read_fields};
pub use said::{Said, say};
pub use so_far::SoFar;
pub use take::take_field;
pub use whole::Fault;
