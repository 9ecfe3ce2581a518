// Which equations of a node come before which.
ghost use Rattle.std.specs.Prelude.{◌≡◌, ℕ, ◌+◌, ◌*◌, ◌<◌, false, length, slice_index_or};
ghost use Rattle.table.specs.Access.{Described};
ghost use Rattle.table.specs.Decoding.{table_of};
ghost use Rattle.table.specs.Syntax.{equation_count, node_at};
ghost use Rattle.schedule.specs.Reads.{before};

use crate::links::{goes_first, links_of, node_links};
use reader::Outline;
use table::equation_count;

/// Whether equation `i` of node `k` comes before equation `j`.
pub fn comes_before(words: &[u32], outline: &Outline, k: usize, i: usize, j: usize) -> bool
    requires described { Described words.now outline.now }
    requires node { k < length (table_of words.now) }
    requires first { i < equation_count (node_at (table_of words.now) k) }
    requires second { j < equation_count (node_at (table_of words.now) k) }
    ensures { result ≡ before (node_at (table_of words.now) k) i j }
{
    goes_first(
        links_of(words, outline, k, i),
        links_of(words, outline, k, j),
        i == j,
    )
}

/// Marks which equations of node `k` come before which: mark `64 * i + j` says whether `i` comes before `j`.
pub fn fill(words: &[u32], outline: &Outline, k: usize, marks: &mut [bool; 4096])
    requires described { Described words.now outline.now }
    requires node { k < length (table_of words.now) }
    ensures { (i j : ℕ) → i < equation_count (node_at (table_of words.now) k) → j < equation_count (node_at (table_of words.now) k) → slice_index_or marks.new (64 * i + j) false ≡ before (node_at (table_of words.now) k) i j }
{
    let links = node_links(words, outline, k);
    let n = equation_count(words, outline, k);
    'rows: for i in 0..n {
        'columns: for j in 0..n {
            marks[64 * i + j] = goes_first(links[i], links[j], i == j);
        }
    }
}
