// Which equations of a node come before which.
#![tactic(auto)]

mod equation_variables;
mod links;
mod order;
mod variable_set;

pub use equation_variables::{defines, reads, within};
pub use order::{comes_before, fill};
pub use variable_set::VariableSet;
