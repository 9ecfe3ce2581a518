// What the calls of a run answer, as definitions, and what all of them together promise: the crate fails without the proof.
#![tactic(auto)]

ghost use Rattle.calls.specs.Promise.{PromiseStands};

use opset::OperatorSet;

mod ended;
mod refusal;

pub use ended::Ended;
pub use refusal::Refusal;

/// Whatever calls are made of a run since it was opened: the promise is kept, for every operator set.
pub fn promise_stands<S: OperatorSet>() -> u8
    ensures { PromiseStands S.OperatorSet.meaning }
{
    0
}
