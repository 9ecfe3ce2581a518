// The table of a bench test: its words, and what admission found for the chosen operator set.
#![tactic(auto)]

mod drawing;
mod set_choice;
mod verdict;

pub use drawing::Drawing;
pub use set_choice::SetChoice;
pub use verdict::{Extent, admit_for, read_for, size_of};
