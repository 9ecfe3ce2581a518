// Set 2 as a set of operators: booleans beside the numbers of its `ScalarArithmetic`.
ghost use Rattle.std.specs.Prelude.{◌≡◌, refl};
ghost use Rattle.doubles.specs.Set.{doubles_meaning, doubles};
ghost use Rattle.opset.proofs.Lawful.{lawful_of};

use opset::{OperatorSet, Scalar, ScalarArithmetic, scalar_apply, scalar_literal};

pub struct Doubles;

impl OperatorSet for Doubles {
    type Value = Scalar<f64>;

    const NUMBER: u8 = 2;

    ghost numbered = { 2 };

    ghost meaning = { doubles_meaning };

    ghost lawful = { lawful_of doubles refl };

    fn set_number() -> u8 {
        Self::NUMBER
    }

    fn has_type(ty: u8) -> bool {
        Self::numeric_type().has_type(ty)
    }

    fn literal(ty: u8, payload: u32) -> Option<Scalar<f64>> {
        scalar_literal::<Doubles>(ty, payload)
    }

    fn result_type(op: u8, a: u8, b: Option<u8>) -> Option<u8> {
        Self::numeric_type().result_type(op, a, b)
    }

    fn apply(op: u8, a: Scalar<f64>, b: Option<Scalar<f64>>) -> Scalar<f64>
        ensures { result ≡ doubles_meaning.apply op a b }
    {
        scalar_apply::<Doubles>(op, a, b)
    }

    fn truth(v: Scalar<f64>) -> bool {
        v.truth()
    }

    fn belongs(v: Scalar<f64>, ty: u8) -> bool {
        Self::numeric_type().belongs(v, ty)
    }
}
