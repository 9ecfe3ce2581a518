// The code of a table, as a definition: statements, their words and their places; and a worked example, without whose proof the crate fails.
#![tactic(auto)]

ghost use Rattle.code.specs.Examples.{CodeExamplesStand};

pub fn code_examples_stand() -> u8
    ensures { CodeExamplesStand }
{
    0
}
