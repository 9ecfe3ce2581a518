// The rule of definitions: inputs are never defined, outputs once and not by a DELAY, locals once.
#![tactic(auto)]

mod offence;
mod tally;

pub use offence::definition_offence;
