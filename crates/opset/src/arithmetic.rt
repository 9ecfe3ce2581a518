// What a set of booleans beside one kind of number says of its numbers. The rest of such a set follows: which operator has which number, and what it does on booleans.
ghost use Rattle.std.specs.Prelude.{◌≡◌};
ghost use Rattle.opset.specs.Scalars.{Arithmetic, numeric_type, performed};

use crate::numeric_type::NumericType;

pub trait ScalarArithmetic {
    type Number: Copy + Drop;

    ghost arithmetic: { Arithmetic Self.Number };

    fn numeric_type() -> NumericType
        ensures { result ≡ numeric_type arithmetic };

    // The number that stands for a whole number, as a payload has it.
    fn whole(z: i32) -> Self::Number
        ensures { result ≡ arithmetic.whole z };

    fn negate(x: Self::Number) -> Self::Number
        ensures { result ≡ arithmetic.negated x };

    fn add(x: Self::Number, y: Self::Number) -> Self::Number
        ensures { result ≡ arithmetic.sum x y };

    fn subtract(x: Self::Number, y: Self::Number) -> Self::Number
        ensures { result ≡ arithmetic.difference x y };

    fn multiply(x: Self::Number, y: Self::Number) -> Self::Number
        ensures { result ≡ arithmetic.product x y };

    // The first operand, where the set has no division.
    fn divide(x: Self::Number, y: Self::Number) -> Self::Number
        ensures { result ≡ performed arithmetic.quotient x y };

    // The first operand, where the set has no remainder.
    fn remainder(x: Self::Number, y: Self::Number) -> Self::Number
        ensures { result ≡ performed arithmetic.remainder x y };

    fn equal(x: Self::Number, y: Self::Number) -> bool
        ensures { result ≡ arithmetic.equal x y };

    fn less(x: Self::Number, y: Self::Number) -> bool
        ensures { result ≡ arithmetic.less x y };

    fn at_most(x: Self::Number, y: Self::Number) -> bool
        ensures { result ≡ arithmetic.at_most x y };
}
