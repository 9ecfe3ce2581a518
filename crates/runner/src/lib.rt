// Runs the blocks of sound code on cells, with no test of a word or a cell.
#![tactic(auto)]

ghost use Rattle.std.specs.Prelude.{◌≡◌, ◌<◌, ◌≤◌, length};
ghost use Rattle.execution.specs.Words.{need_at, reset_by, step_by};
ghost use Rattle.execution.specs.Sound.{nodes_in, Sound};

use block::run_block;
use calls::{reset_place, step_place};
use opset::OperatorSet;

mod block;
mod calls;
mod copies;
mod fields;
mod kinds;
mod operate;

/// Runs node `k`'s reset block on its segment of cells.
pub fn run_reset<S: OperatorSet>(words: &[u32], k: usize, cells: &mut [S::Value])
    requires sound { Sound words.now }
    requires node { k < nodes_in words.now }
    requires room { need_at words.now k ≤ length cells.old }
    ensures { cells.new ≡ reset_by S.OperatorSet.meaning words.now k cells.old }
{
    run_block::<S>(words, k, reset_place(words, k), cells);
}

/// Runs node `k`'s step block on its segment of cells.
pub fn run_step<S: OperatorSet>(words: &[u32], k: usize, cells: &mut [S::Value])
    requires sound { Sound words.now }
    requires node { k < nodes_in words.now }
    requires room { need_at words.now k ≤ length cells.old }
    ensures { cells.new ≡ step_by S.OperatorSet.meaning words.now k cells.old }
{
    run_block::<S>(words, k, step_place(words, k), cells);
}
