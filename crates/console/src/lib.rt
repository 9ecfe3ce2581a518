// The script of a bench test: one call a line, one answer a line, as functions on values.
#![tactic(auto)]

mod answer;
mod call;
mod numerals;
mod set_choice;
mod state;
mod tokens;

pub use answer::Answer;
pub use call::{Call, Unread, hex_words};
pub use numerals::{decimal_number, hex_word};
pub use set_choice::SetChoice;
pub use state::{Console, read_table};
pub use tokens::Tokens;
