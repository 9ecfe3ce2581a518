// Reading and admitting words for a chosen set.
ghost use Rattle.std.specs.Prelude.{◌≡◌, IfOk};
ghost use Rattle.std.specs.Result.{result_err};
ghost use Rattle.table.specs.Decoding.{table_of};
ghost use Rattle.admission.specs.Planned.{Planned};
ghost use Rattle.drawing.specs.Sets.{KeepsFor, reading_for, verdict_for};
ghost use Rattle.drawing.specs.Extents.{extent_of};

use crate::set_choice::SetChoice;
use admission::{Admitted, Fault, Plan, admit};
use doubles::Doubles;
use integers::Integers;
use reader::{Outline, ReadFault};

/// The outline of a table for a chosen set, or the first fault in reading it.
pub fn read_for(set: SetChoice, words: &[u32]) -> Result<Outline, ReadFault>
    ensures { result ≡ reading_for set words.now }
{
    match set {
        SetChoice::Integers => table::read::<Integers>(words),
        SetChoice::Doubles => table::read::<Doubles>(words),
    }
}

/// The plan of a table for a chosen set, or the first fault.
pub fn admit_for(set: SetChoice, words: &[u32]) -> Result<Plan, Fault>
    ensures fault { result_err result ≡ verdict_for set words.now }
    ensures planned { IfOk result (Planned words.now) }
    ensures kept { IfOk result (λ p. KeepsFor set (table_of words.now)) }
{
    match set {
        SetChoice::Integers => admit::<Integers>(words),
        SetChoice::Doubles => admit::<Doubles>(words),
    }
}

/// How large an admitted table is: its nodes, and what an instance of its main node needs.
#[derive(Clone, Copy)]
pub struct Extent {
    pub nodes: u8,
    pub need: u16,
}

pub fn size_of(table: Admitted<'_, '_>) -> Extent
    ensures { result ≡ extent_of (table_of table.entry.words.now) }
{
    let plan = table.plan();
    let nodes = plan.outline.nodes;
    Extent {
        nodes,
        need: plan.needs[nodes as usize - 1],
    }
}
