// Code of a table can be run untested, and its run does what the table's statements do: the crate fails without the proofs.
#![tactic(auto)]

ghost use Rattle.layout.specs.Layout.{CodeIsSound, CodeRunsStatements};

use opset::OperatorSet;

pub fn code_is_sound() -> u8
    ensures { CodeIsSound }
{
    0
}

pub fn code_runs_statements<S: OperatorSet>() -> u8
    ensures { CodeRunsStatements S.OperatorSet.meaning }
{
    0
}
