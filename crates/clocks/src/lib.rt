// The rule of clocks on a table that is read: where a node first offends against it.
#![tactic(auto)]

mod chains;
mod equations;
mod nodes;
mod operands;

pub use nodes::clock_offence;
