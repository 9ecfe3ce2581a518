// The code of a table in pieces: the words of each statement, built in a small array of their own.
#![tactic(auto)]

mod actions;
mod piece;
mod statements;
mod tests;

pub use piece::Piece;
pub use statements::{push_call_reset, push_delay_reset, push_statements};
