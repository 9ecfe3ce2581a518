// Set 1: booleans and signed 32-bit numbers.
#![tactic(auto)]

ghost use Rattle.integers.specs.Stands.{ArithmeticStands};
ghost use Rattle.integers.specs.Examples.{Examples};

mod arithmetic;
mod set;

pub use set::Integers;

// What the arithmetic comes to, as a theorem: the crate fails without its proof.
pub fn arithmetic_stands() -> u8
    ensures { ArithmeticStands }
{
    0
}

// A dozen worked cases, as a theorem.
pub fn examples_stand() -> u8
    ensures { Examples }
{
    0
}
