// Set 1 as a set of operators: booleans beside the numbers of its `ScalarArithmetic`.
ghost use Rattle.std.specs.Prelude.{◌≡◌, refl};
ghost use Rattle.integers.specs.Set.{integers_meaning, integers};
ghost use Rattle.opset.proofs.Lawful.{lawful_of};

use opset::{OperatorSet, Scalar, ScalarArithmetic, scalar_apply, scalar_literal};

pub struct Integers;

impl OperatorSet for Integers {
    type Value = Scalar<i32>;

    const NUMBER: u8 = 1;

    ghost numbered = { 1 };

    ghost meaning = { integers_meaning };

    ghost lawful = { lawful_of integers refl };

    fn set_number() -> u8 {
        Self::NUMBER
    }

    fn has_type(ty: u8) -> bool {
        Self::numeric_type().has_type(ty)
    }

    fn literal(ty: u8, payload: u32) -> Option<Scalar<i32>> {
        scalar_literal::<Integers>(ty, payload)
    }

    fn result_type(op: u8, a: u8, b: Option<u8>) -> Option<u8> {
        Self::numeric_type().result_type(op, a, b)
    }

    fn apply(op: u8, a: Scalar<i32>, b: Option<Scalar<i32>>) -> Scalar<i32>
        ensures { result ≡ integers_meaning.apply op a b }
    {
        scalar_apply::<Integers>(op, a, b)
    }

    fn truth(v: Scalar<i32>) -> bool {
        v.truth()
    }

    fn belongs(v: Scalar<i32>, ty: u8) -> bool {
        Self::numeric_type().belongs(v, ty)
    }
}
