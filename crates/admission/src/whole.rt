// A whole table: read, and then tested node by node.
ghost use Rattle.std.specs.Prelude.{◌≡◌, IfOk};
ghost use Rattle.std.specs.Result.{result_err};
ghost use Rattle.table.specs.Decoding.{table_of};
ghost use Rattle.admission.specs.Admission.{Judged, fault_for};
ghost use Rattle.admission.specs.Keeps.{KeepsRules};
ghost use Rattle.admission.specs.Planned.{Planned};

use crate::faults::Fault;
use crate::found::Plan;
use crate::node::{ordered, rules_kept, sized};
use opset::OperatorSet;
use schedule::Order;

/// The plan of a table that keeps the rules, written for the operator set, or the first fault.
pub fn admit<S: OperatorSet>(words: &[u32]) -> Result<Plan, Fault>
    ensures judged { Judged S.OperatorSet.meaning S.OperatorSet.numbered words.now result }
    ensures fault { result_err result ≡ fault_for S.OperatorSet.meaning S.OperatorSet.numbered words.now }
    ensures planned { IfOk result (Planned words.now) }
    ensures kept { IfOk result (λ p. KeepsRules S.OperatorSet.meaning (table_of words.now)) }
{
    let outline = table::read::<S>(words)?;
    let nothing = Order {
        places: [0; 64],
        count: 0,
    };
    let mut orders = [nothing; 32];
    let mut needs = [0u16; 32];
    'nodes: for k in 0..outline.nodes as usize {
        rules_kept::<S>(words, &outline, k)?;
        orders[k] = ordered(words, &outline, k)?;
        needs[k] = sized(words, &outline, k, &needs)?;
    }
    Ok(Plan {
        outline,
        orders,
        needs,
    })
}
