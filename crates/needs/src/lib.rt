// How many cells an instance of a node needs.
#![tactic(auto)]

ghost use Rattle.std.specs.Prelude.{◌≡◌, ◌<◌, ◌≤◌, length};
ghost use Rattle.table.specs.Access.{Described};
ghost use Rattle.table.specs.Decoding.{table_of};
ghost use Rattle.table.specs.Syntax.{equation_at, equation_count, node_at};
ghost use Rattle.schedule.specs.Need.{call_need, node_need};

use reader::Outline;
use table::{Drawn, equation, equation_count, variable_count};

/// What equation `e` of node `k` needs: where it is a CALL, what the called node does.
pub fn equation_need(words: &[u32], outline: &Outline, k: usize, e: usize, needs: &[u16; 32]) -> u32
    requires described { Described words.now outline.now }
    requires node { k < length (table_of words.now) }
    requires within { e < equation_count (node_at (table_of words.now) k) }
    ensures value { result ≡ call_need needs.now (equation_at (node_at (table_of words.now) k) e) }
    ensures small { result ≤ 65535 }
{
    match equation(words, outline, k, e) {
        Drawn::Call(g, _, _) => needs[g as usize] as u32,
        _ => 0,
    }
}

/// How many cells an instance of node `k` needs, by the needs of the nodes before it: one for each of its variables, and for each
/// CALL what the called node needs.
pub fn node_need(words: &[u32], outline: &Outline, k: usize, needs: &[u16; 32]) -> u32
    requires described { Described words.now outline.now }
    requires node { k < length (table_of words.now) }
    ensures { result ≡ node_need needs.now (node_at (table_of words.now) k) }
{
    let mut need = variable_count(words, outline, k) as u32;
    'equations: for e in 0..equation_count(words, outline, k) {
        need += equation_need(words, outline, k, e, needs);
    }
    need
}
