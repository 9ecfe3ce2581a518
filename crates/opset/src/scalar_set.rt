// The literals and the operators of a set of booleans beside one kind of number.
ghost use Rattle.std.specs.Prelude.{◌≡◌};
ghost use Rattle.opset.specs.Scalars.{literal_of, on_number, on_numbers, applied};

use crate::arithmetic::ScalarArithmetic;
use crate::booleans::{on_bool, on_bools};
use crate::payload::signed24;
use crate::scalar::Scalar;

pub fn scalar_literal<S: ScalarArithmetic>(ty: u8, payload: u32) -> Option<Scalar<S::Number>>
    ensures { result ≡ literal_of S.ScalarArithmetic.arithmetic ty payload }
{
    if ty == 0 {
        Scalar::of_bool_payload(payload)
    } else if ty == S::numeric_type().number && payload < 0x100_0000 {
        Some(Scalar::Number(S::whole(signed24(payload))))
    } else {
        None
    }
}

pub fn scalar_apply<S: ScalarArithmetic>(
    op: u8,
    a: Scalar<S::Number>,
    b: Option<Scalar<S::Number>>,
) -> Scalar<S::Number>
    ensures { result ≡ applied S.ScalarArithmetic.arithmetic op a b }
{
    match (a, b) {
        (Scalar::Bool(p), None) => Scalar::Bool(on_bool(op, p)),
        (Scalar::Number(x), None) => Scalar::Number(on_number::<S>(op, x)),
        (Scalar::Bool(p), Some(Scalar::Bool(q))) => Scalar::Bool(on_bools(op, p, q)),
        (Scalar::Number(x), Some(Scalar::Number(y))) => on_numbers::<S>(op, x, y),
        _ => a,
    }
}

fn on_number<S: ScalarArithmetic>(op: u8, x: S::Number) -> S::Number
    ensures { result ≡ on_number S.ScalarArithmetic.arithmetic op x }
{
    match op {
        2 => S::negate(x),
        _ => x,
    }
}

fn on_numbers<S: ScalarArithmetic>(op: u8, x: S::Number, y: S::Number) -> Scalar<S::Number>
    ensures { result ≡ on_numbers S.ScalarArithmetic.arithmetic op x y }
{
    match op {
        128 => Scalar::Number(S::add(x, y)),
        129 => Scalar::Number(S::subtract(x, y)),
        130 => Scalar::Number(S::multiply(x, y)),
        131 => Scalar::Number(S::divide(x, y)),
        132 => Scalar::Number(S::remainder(x, y)),
        136 => Scalar::Bool(S::equal(x, y)),
        137 => Scalar::Bool(S::less(x, y)),
        138 => Scalar::Bool(S::at_most(x, y)),
        _ => Scalar::Number(x),
    }
}
