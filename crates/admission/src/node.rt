// One node: the rules, then the order.
ghost use Rattle.std.specs.Prelude.{◌≡◌, ◌<◌, length};
ghost use Rattle.table.specs.Access.{Described};
ghost use Rattle.table.specs.Decoding.{table_of};
ghost use Rattle.admission.specs.Verdict.{rule_fault};
ghost use Rattle.admission.specs.Answers.{kept_or, Ordered, Sized};

use crate::faults::{OrderFault, RuleFault, SizeFault};
use clocks::clock_offence;
use definitions::definition_offence;
use needs::node_need;
use opset::OperatorSet;
use reader::{Outline, Site};
use schedule::{Order, Waits, order_of};
use table::equation_count;
use types::type_offence;
use waits::fill;

/// The most cells that an instance of a node may need.
const MOST_CELLS: u32 = 4096;

/// That node `k` keeps the rules of types, clocks and definitions, or the first fault in that order.
pub fn rules_kept<S: OperatorSet>(
    words: &[u32],
    outline: &Outline,
    k: usize,
) -> Result<(), RuleFault>
    requires described { Described words.now outline.now }
    requires node { k < length (table_of words.now) }
    ensures { result ≡ kept_or (rule_fault S.OperatorSet.meaning (table_of words.now) k) }
{
    let node = k as u8;
    if let Some(place) = type_offence::<S>(words, outline, k) {
        return Err(RuleFault::Types(Site { node, place }));
    }
    if let Some(place) = clock_offence(words, outline, k) {
        return Err(RuleFault::Clocks(Site { node, place }));
    }
    if let Some(place) = definition_offence(words, outline, k) {
        return Err(RuleFault::Definitions(Site { node, place }));
    }
    Ok(())
}

/// The order of node `k`'s equations, or that none exists.
pub fn ordered(words: &[u32], outline: &Outline, k: usize) -> Result<Order, OrderFault>
    requires described { Described words.now outline.now }
    requires node { k < length (table_of words.now) }
    ensures { Ordered (table_of words.now) k result }
{
    let mut waits = Waits {
        marks: [false; 4096],
    };
    fill(words, outline, k, &mut waits.marks);
    match order_of(&waits, equation_count(words, outline, k)) {
        Some(order) => Ok(order),
        None => Err(OrderFault::NoOrder(Site {
            node: k as u8,
            place: outline.starts[k],
        })),
    }
}

/// What an instance of node `k` needs, by the needs of the nodes before it, or that it is too much.
pub fn sized(
    words: &[u32],
    outline: &Outline,
    k: usize,
    needs: &[u16; 32],
) -> Result<u16, SizeFault>
    requires described { Described words.now outline.now }
    requires node { k < length (table_of words.now) }
    ensures { Sized (table_of words.now) k needs.now result }
{
    let need = node_need(words, outline, k, needs);
    if need > MOST_CELLS {
        return Err(SizeFault::Need(Site {
            node: k as u8,
            place: outline.starts[k],
        }));
    }
    Ok(need as u16)
}
