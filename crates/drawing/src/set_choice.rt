// The operator sets that a script can choose.
ghost use Rattle.std.specs.Prelude.{◌≡◌};
ghost use Rattle.drawing.specs.Sets.{chosen_by, number_of};

/// The operator set that all later calls are given.
#[derive(Clone, Copy, PartialEq, Eq, Debug)]
pub enum SetChoice {
    /// Set 1: booleans and signed 32-bit numbers.
    Integers,
    /// Set 2: booleans and binary64.
    Doubles,
}

impl SetChoice {
    pub fn of_number(number: u64) -> Option<SetChoice>
        ensures { result ≡ chosen_by number }
    {
        match number {
            1 => Some(SetChoice::Integers),
            2 => Some(SetChoice::Doubles),
            _ => None,
        }
    }

    pub fn number(self) -> u8
        ensures { result ≡ number_of self }
    {
        match self {
            SetChoice::Integers => 1,
            SetChoice::Doubles => 2,
        }
    }
}
