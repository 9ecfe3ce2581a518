// The meaning of tables as masked streams, with its theorems: the crate fails without their proofs.
#![tactic(auto)]

ghost use Rattle.streams.specs.Statements.{StreamsAlwaysExist, StreamsAlwaysUnique, StreamsAlwaysTyped, MachineShowsStreams, OrderDoesNotMatter};

use opset::OperatorSet;

pub fn streams_exist<S: OperatorSet>() -> u8
    ensures { StreamsAlwaysExist S.OperatorSet.meaning }
{
    0
}

pub fn streams_unique<S: OperatorSet>() -> u8
    ensures { StreamsAlwaysUnique S.OperatorSet.meaning }
{
    0
}

pub fn streams_typed<S: OperatorSet>() -> u8
    ensures { StreamsAlwaysTyped S.OperatorSet.meaning }
{
    0
}

pub fn machine_shows_streams<S: OperatorSet>() -> u8
    ensures { MachineShowsStreams S.OperatorSet.meaning }
{
    0
}

pub fn order_does_not_matter<S: OperatorSet>() -> u8
    ensures { OrderDoesNotMatter S.OperatorSet.meaning }
{
    0
}
