// The arithmetic of set 1: it wraps, division is toward zero, and by zero it answers 0.
ghost use Rattle.integers.specs.Set.{integers};

use crate::set::Integers;
use opset::{NumericType, ScalarArithmetic};

impl ScalarArithmetic for Integers {
    type Number = i32;

    ghost arithmetic = { integers };

    fn numeric_type() -> NumericType {
        NumericType {
            number: 1,
            division: true,
            remainder: true,
        }
    }

    fn whole(z: i32) -> i32 {
        z
    }

    fn negate(x: i32) -> i32 {
        x.wrapping_neg()
    }

    fn add(x: i32, y: i32) -> i32 {
        x.wrapping_add(y)
    }

    fn subtract(x: i32, y: i32) -> i32 {
        x.wrapping_sub(y)
    }

    fn multiply(x: i32, y: i32) -> i32 {
        x.wrapping_mul(y)
    }

    fn divide(x: i32, y: i32) -> i32 {
        if y == 0 { 0 } else { x.wrapping_div(y) }
    }

    fn remainder(x: i32, y: i32) -> i32 {
        if y == 0 { 0 } else { x.wrapping_rem(y) }
    }

    fn equal(x: i32, y: i32) -> bool {
        x == y
    }

    fn less(x: i32, y: i32) -> bool {
        x < y
    }

    fn at_most(x: i32, y: i32) -> bool {
        x <= y
    }
}
