// The equations of a table that reads, in the notation of a listing.
#![tactic(auto)]

mod equation;
mod operand;
mod operator;
mod page;

pub use equation::EquationText;
pub use page::{Page, word_at};
