// Why a call of a run is refused.
ghost use Rattle.std.specs.Prelude.{◌≡◌};
ghost use Rattle.calls.specs.Refusals.{refusal_number};

#[derive(Clone, Copy, PartialEq, Eq, Debug)]
pub enum Refusal {
    /// The code is for another operator set.
    Set,
    /// The memory is shorter than what the main node needs.
    Memory,
    /// The main node has no such input, or no such output.
    Port,
    /// The value is not of the input's type.
    Mistyped,
    /// No instant has ended.
    Early,
    /// The input was offered a value in this instant before.
    Twice,
}

impl Refusal {
    pub fn number(self) -> u8
        ensures { result ≡ refusal_number self }
    {
        match self {
            Refusal::Set => 4,
            Refusal::Memory => 13,
            Refusal::Port => 14,
            Refusal::Mistyped => 15,
            Refusal::Early => 20,
            Refusal::Twice => 21,
        }
    }
}
