// The console's dialogue: what is answered to a line.
#![tactic(auto)]

mod access;
mod answers;
mod dump;
mod effect;
mod part;
mod report;

pub use answers::{ANSWER_ROOM, Answered, LINE_MOST, answer};
