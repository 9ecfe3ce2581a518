// The types of a set of booleans beside one kind of number.
ghost use Rattle.std.specs.Prelude.{◌≡◌};
ghost use Rattle.opset.specs.Scalars.{either_type, unary_type, numbers_type, bools_type, binary_type, operator_type, of_type};

use crate::scalar::Scalar;

// The numeric type of a set: its number, and whether the set has a division and a remainder.
#[derive(Clone, Copy)]
pub struct NumericType {
    pub number: u8,
    pub division: bool,
    pub remainder: bool,
}

impl NumericType {
    pub fn has_type(self, ty: u8) -> bool
        ensures { result ≡ either_type self.number ty }
    {
        ty == 0 || ty == self.number
    }

    pub fn belongs<N: Copy>(self, v: Scalar<N>, ty: u8) -> bool
        ensures { result ≡ of_type self.number v ty }
    {
        match v {
            Scalar::Bool(_) => ty == 0,
            Scalar::Number(_) => ty == self.number,
        }
    }

    pub fn result_type(self, op: u8, a: u8, b: Option<u8>) -> Option<u8>
        ensures { result ≡ operator_type self.number self.division self.remainder op a b }
    {
        match b {
            None => self.unary_type(op, a),
            Some(b) => self.binary_type(op, a, b),
        }
    }

    fn unary_type(self, op: u8, a: u8) -> Option<u8>
        ensures { result ≡ unary_type self.number op a }
    {
        match op {
            0 if self.has_type(a) => Some(a),
            1 if a == 0 => Some(0),
            2 if a == self.number => Some(a),
            _ => None,
        }
    }

    fn binary_type(self, op: u8, a: u8, b: u8) -> Option<u8>
        ensures { result ≡ binary_type self.number self.division self.remainder op a b }
    {
        if a == self.number && b == self.number {
            self.numbers_type(op)
        } else if a == 0 && b == 0 {
            bools_type(op)
        } else {
            None
        }
    }

    fn numbers_type(self, op: u8) -> Option<u8>
        ensures { result ≡ numbers_type self.number self.division self.remainder op }
    {
        match op {
            128..=130 => Some(self.number),
            131 if self.division => Some(self.number),
            132 if self.remainder => Some(self.number),
            136..=138 => Some(0),
            _ => None,
        }
    }
}

fn bools_type(op: u8) -> Option<u8>
    ensures { result ≡ bools_type op }
{
    match op {
        133..=135 => Some(0),
        _ => None,
    }
}
