// What decides which equations come before which.
ghost use Rattle.std.specs.Prelude.{◌≡◌, ℕ, ◌<◌, not, ◌&&◌, ◌||◌, length, slice_index_or};
ghost use Rattle.table.specs.Access.{Described};
ghost use Rattle.table.specs.Decoding.{table_of};
ghost use Rattle.table.specs.Syntax.{Equation, Node, equation_at, equation_count, node_at};
ghost use Rattle.rules.specs.Definitions.{is_delay};
ghost use Rattle.schedule.specs.Reads.{feeds as feeds_of};
ghost use Rattle.waits.specs.Linked.{Linked, no_links};

use crate::equation_variables::{defines, reads};
use crate::variable_set::VariableSet;
use reader::Outline;
use table::{Drawn, equation, equation_count};

/// What an equation reads and defines, and whether it is a DELAY.
#[derive(Clone, Copy)]
pub struct Links {
    pub reads: VariableSet,
    pub defines: VariableSet,
    pub delay: bool,
}

fn is_delay(words: &[u32], outline: &Outline, k: usize, e: usize) -> bool
    requires described { Described words.now outline.now }
    requires node { k < length (table_of words.now) }
    requires equation { e < equation_count (node_at (table_of words.now) k) }
    ensures { result ≡ is_delay (equation_at (node_at (table_of words.now) k) e) }
{
    match equation(words, outline, k, e) {
        Drawn::Delay(_, _, _) => true,
        _ => false,
    }
}

/// The links of equation `e` of node `k`.
pub fn links_of(words: &[u32], outline: &Outline, k: usize, e: usize) -> Links
    requires described { Described words.now outline.now }
    requires node { k < length (table_of words.now) }
    requires equation { e < equation_count (node_at (table_of words.now) k) }
    ensures { Linked (node_at (table_of words.now) k) result (equation_at (node_at (table_of words.now) k) e) }
{
    Links {
        reads: reads(words, outline, k, e),
        defines: defines(words, outline, k, e),
        delay: is_delay(words, outline, k, e),
    }
}

/// The links of each equation of node `k`.
pub fn node_links(words: &[u32], outline: &Outline, k: usize) -> [Links; 64]
    requires described { Described words.now outline.now }
    requires node { k < length (table_of words.now) }
    ensures { (e : ℕ) → e < equation_count (node_at (table_of words.now) k) → Linked (node_at (table_of words.now) k) (slice_index_or result e no_links) (equation_at (node_at (table_of words.now) k) e) }
{
    let none = Links {
        reads: VariableSet::new(),
        defines: VariableSet::new(),
        delay: false,
    };
    let mut links = [none; 64];
    'equations: for e in 0..equation_count(words, outline, k) {
        links[e] = links_of(words, outline, k, e);
    }
    links
}

/// The rule of the order, where `a` and `b` say that an equation and another are DELAYs, `feeds` that the one defines what the
/// other reads, and `fed` that the other defines what the one reads: what is read comes first, but a DELAY comes behind all others
/// that read its variable.
fn precedes(a: bool, b: bool, same: bool, feeds: bool, fed: bool) -> bool
    ensures { result ≡ ((not a && feeds) || (b && (not same && fed))) }
{
    (!a && feeds) || (b && !same && fed)
}

/// Whether the equation with links `a` comes before that with links `b`.
pub fn goes_first(a: Links, b: Links, same: bool) -> bool
    ensures { (N : Node) (E F : Equation) → Linked N a E → Linked N b F → result ≡ ((not (is_delay E) && feeds_of N E F) || (is_delay F && (not same && feeds_of N F E))) }
{
    precedes(
        a.delay,
        b.delay,
        same,
        a.defines.meets(b.reads),
        b.defines.meets(a.reads),
    )
}
