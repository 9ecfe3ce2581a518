// The value of a set of booleans beside one kind of number.
ghost use Rattle.std.specs.Prelude.{◌≡◌};
ghost use Rattle.opset.specs.Scalars.{bool_literal, truth_of};

#[derive(Clone, Copy, PartialEq, Debug)]
pub enum Scalar<N> {
    Bool(bool),
    Number(N),
}

impl<N: Copy> Scalar<N> {
    // The boolean of a payload: only 0 and 1 have one.
    pub fn of_bool_payload(payload: u32) -> Option<Scalar<N>>
        ensures { result ≡ bool_literal payload }
    {
        match payload {
            0 => Some(Scalar::Bool(false)),
            1 => Some(Scalar::Bool(true)),
            _ => None,
        }
    }

    pub fn truth(self) -> bool
        ensures { result ≡ truth_of self }
    {
        match self {
            Scalar::Bool(p) => p,
            Scalar::Number(_) => false,
        }
    }
}
