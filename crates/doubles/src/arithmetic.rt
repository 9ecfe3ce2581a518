// The arithmetic of set 2: that of binary64. There is no remainder.
ghost use Rattle.doubles.specs.Set.{doubles};

use crate::set::Doubles;
use opset::{NumericType, ScalarArithmetic};

impl ScalarArithmetic for Doubles {
    type Number = f64;

    ghost arithmetic = { doubles };

    fn numeric_type() -> NumericType {
        NumericType {
            number: 2,
            division: true,
            remainder: false,
        }
    }

    fn whole(z: i32) -> f64 {
        z as f64
    }

    fn negate(x: f64) -> f64 {
        -x
    }

    fn add(x: f64, y: f64) -> f64 {
        x + y
    }

    fn subtract(x: f64, y: f64) -> f64 {
        x - y
    }

    fn multiply(x: f64, y: f64) -> f64 {
        x * y
    }

    fn divide(x: f64, y: f64) -> f64 {
        x / y
    }

    fn remainder(x: f64, _y: f64) -> f64 {
        x
    }

    fn equal(x: f64, y: f64) -> bool {
        x == y
    }

    fn less(x: f64, y: f64) -> bool {
        x < y
    }

    fn at_most(x: f64, y: f64) -> bool {
        x <= y
    }
}
