// What a line of the console asks.
#![tactic(auto)]

mod line;
mod numeral;

pub use line::{Command, command_of};
