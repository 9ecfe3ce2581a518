// Admission: a table is admitted exactly when it keeps the rules.
#![tactic(auto)]

ghost use Rattle.admission.specs.Statement.{AdmissionStands};

use opset::OperatorSet;

mod admitted;
mod faults;
mod found;
mod node;
mod whole;

pub use admitted::Admitted;
pub use faults::{Fault, OrderFault, RuleFault, SizeFault};
pub use found::Plan;
pub use whole::admit;

/// For every table within the limits of the format: no node is at fault exactly when the table keeps the rules,
/// and an order of a node's equations exists exactly when one is found.
pub fn admission_stands<S: OperatorSet>() -> u8
    ensures { AdmissionStands S.OperatorSet.meaning }
{
    0
}
