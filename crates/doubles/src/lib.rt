// Set 2: booleans and binary64.
#![tactic(auto)]

ghost use Rattle.doubles.specs.Stands.{ArithmeticStands};
ghost use Rattle.doubles.specs.Examples.{Examples};

mod arithmetic;
mod set;

pub use set::Doubles;

// What IEEE 754 makes of the operators, as a theorem: the crate fails without its proof.
pub fn arithmetic_stands() -> u8
    ensures { ArithmeticStands }
{
    0
}

// A dozen worked cases, as a theorem.
pub fn examples_stand() -> u8
    ensures { Examples }
{
    0
}
