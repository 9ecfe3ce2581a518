// A run's two states, at rest and in an instant: plain numbers, which move from the one to the other.
use calls::{Ended, Refusal};

/// A run at rest: an instant can begin, the run can be restarted, and outputs can be read.
#[derive(Drop)]
pub struct Rest {
    pub(crate) ended: Ended,
}

/// A run in an instant: inputs can be offered. It cannot be let go: only a step or a pass, which take it, end it.
pub struct Instant {
    pub(crate) ended: Ended,
    /// For each input whether it was offered a value in this instant.
    pub(crate) offered: [bool; 16],
}

/// An instant that was not begun: the run as it was, and why.
#[derive(Drop)]
pub struct Unbegun {
    pub rest: Rest,
    pub refusal: Refusal,
}
