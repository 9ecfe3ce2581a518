// How instants end.

/// How the latest instant that counts ended.
#[derive(Clone, Copy, PartialEq, Eq, Debug)]
pub enum Ended {
    /// No instant has ended yet.
    Never,
    ByStep,
    ByPass,
}
