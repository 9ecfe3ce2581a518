// Why a table is not translated.
ghost use Rattle.std.specs.Prelude.{◌≡◌};
ghost use Rattle.translation.specs.Faults.{translate_number};

#[derive(Clone, Copy, PartialEq, Eq, Debug)]
pub enum TranslateFault {
    /// The code is longer than code may be, or than its buffer.
    TooLong,
}

impl TranslateFault {
    /// The number of the refusal.
    pub fn number(self) -> u8
        ensures { result ≡ translate_number self }
    {
        match self {
            TranslateFault::TooLong => 12,
        }
    }
}
