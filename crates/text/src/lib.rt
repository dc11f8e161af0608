// The text that the placement program prints, and parts of texts for others.
#![tactic(auto)]

mod buffer;
mod lines;
mod shown;
mod whole;
mod written;

pub use buffer::Text;
pub use shown::Shown;
pub use whole::{FILE_MOST, TEXT_ROOM, file_text};
