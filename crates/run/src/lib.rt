// Running code: open, begin, offer, step, pass, restart and reading, and what a reading promises.
#![tactic(auto)]

mod bound_code;
mod calls_at_rest;
mod calls_in_instant;
mod front;
mod inputs;
mod refusing;
mod state;

pub use bound_code::Code;
pub use calls_at_rest::open;
pub use state::{Instant, Rest, Unbegun};
