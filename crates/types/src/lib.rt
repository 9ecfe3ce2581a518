// The rule of types: where a node first breaks it.
#![tactic(auto)]

mod calls;
mod equations;
mod nodes;
mod operands;

pub use nodes::type_offence;
