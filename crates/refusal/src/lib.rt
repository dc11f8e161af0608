// Document 01's refusals and their numbers. No other code spells one of them.
#![tactic(auto)]

mod refusal;

pub use refusal::{ACCEPTED, Refusal, all, number};
