// What a set of operators is (`OperatorSet`), and what the sets of booleans beside one kind of number share.
#![tactic(auto)]

ghost use Rattle.opset.specs.Payload.{PayloadStands};

mod arithmetic;
mod booleans;
mod numeric_type;
mod operator_set;
mod payload;
mod scalar;
mod scalar_set;

pub use arithmetic::ScalarArithmetic;
pub use numeric_type::NumericType;
pub use operator_set::OperatorSet;
pub use payload::signed24;
pub use scalar::Scalar;
pub use scalar_set::{scalar_apply, scalar_literal};

// What sign extension comes to, as a theorem: the crate fails without its proof.
pub fn payload_stands() -> u8
    ensures { PayloadStands }
{
    0
}
