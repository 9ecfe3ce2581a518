// A node's blocks realize its machine, whatever the operator set: the crate fails without the proof.
#![tactic(auto)]

ghost use Rattle.realization.specs.Realizes.{BlocksRealizeMachines};

use opset::OperatorSet;

pub fn blocks_realize_machines<S: OperatorSet>() -> u8
    ensures { BlocksRealizeMachines S.OperatorSet.meaning }
{
    0
}
