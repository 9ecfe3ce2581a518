// The segments of a node's calls, behind its variables.
ghost use Rattle.std.specs.Prelude.{◌<◌, length};
ghost use Rattle.table.specs.Decoding.{table_of};
ghost use Rattle.admission.specs.Planned.{Planned};
ghost use Rattle.blocks.specs.Offsets.{OffsetsOf};

use admission::Plan;
use needs::equation_need;
use table::{equation_count, variable_count};

/// Where the segment of each CALL of node `k` begins: behind the node's variables and the segments of the calls before it.
pub fn segment_offsets(words: &[u32], plan: &Plan, k: usize) -> [u16; 64]
    requires planned { Planned words.now plan.now }
    requires node { k < length (table_of words.now) }
    ensures { OffsetsOf (table_of words.now) k result }
{
    let mut offsets = [0u16; 64];
    let mut next = variable_count(words, &plan.outline, k) as u16;
    'equations: for e in 0..equation_count(words, &plan.outline, k) {
        offsets[e] = next;
        next += equation_need(words, &plan.outline, k, e, &plan.needs) as u16;
    }
    offsets
}
