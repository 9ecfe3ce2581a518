// A table as a person reads it: its nodes, variables and equations, or what is wrong with it.
#![tactic(auto)]

mod names;
mod refusal;
mod whole;

pub use whole::Listing;
