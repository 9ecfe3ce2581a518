// A block: its instructions, one after the other.
ghost use Rattle.std.specs.Prelude.{◌≡◌, ◌<◌, ◌≤◌, true, length, slice_index};
ghost use Rattle.words.specs.Bits.{kind_of};
ghost use Rattle.execution.specs.Words.{need_at};
ghost use Rattle.execution.specs.Sound.{nodes_in, Sound};
ghost use Rattle.runner.specs.From.{fine_from, run_from};

use crate::calls::{reset_call, step_call};
use crate::copies::{copy_in, copy_out};
use crate::fields::{distance, sense, tested};
use crate::kinds::{RESET, SKIP, STEP, UNLESS};
use crate::operate::operate_all;
use opset::OperatorSet;
use words::kind;

/// Runs the tests that stand from `start` on, up to one that fails, and says where the next instruction stands.
fn pass_tests<S: OperatorSet>(words: &[u32], k: usize, start: usize, cells: &[S::Value]) -> usize
    requires room { need_at words.now k ≤ length cells.now }
    requires good { fine_from words.now k start ≡ true }
    requires test { kind_of (slice_index words.now start) ≡ 4 }
    ensures ahead { start < result }
    ensures still { fine_from words.now k result ≡ true }
    ensures same { run_from S.OperatorSet.meaning words.now k start cells.now ≡ run_from S.OperatorSet.meaning words.now k result cells.now }
{
    let mut p = start;
    let mut w = words[p];
    'tests: loop {
        if S::truth(cells[tested(w)]) != sense(w) {
            return p + 1 + distance(w);
        }
        p += 1;
        w = words[p];
        if kind(w) != UNLESS {
            return p;
        }
    }
}

/// Runs a block of node `k`, from `start` on, on the cells of its segment.
pub fn run_block<S: OperatorSet>(words: &[u32], k: usize, start: usize, cells: &mut [S::Value])
    requires sound { Sound words.now }
    requires node { k < nodes_in words.now }
    requires room { need_at words.now k ≤ length cells.old }
    requires good { fine_from words.now k start ≡ true }
    ensures { cells.new ≡ run_from S.OperatorSet.meaning words.now k start cells.old }
{
    let mut p = start;
    'instructions: loop {
        p = operate_all::<S>(words, k, p, cells);
        let w = words[p];
        match kind(w) {
            UNLESS => p = pass_tests::<S>(words, k, p, cells),
            SKIP => p += 1 + distance(w),
            RESET => {
                let call = reset_call(words, k, p);
                let off = call.offset;
                run_block::<S>(words, call.node, call.start, &mut cells[off..]);
                p += 1;
            }
            STEP => {
                let call = step_call(words, k, p);
                let off = call.offset;
                let n = copy_in::<S>(words, p + 1, cells, off);
                run_block::<S>(words, call.node, call.start, &mut cells[off..]);
                p += 1 + n + copy_out(words, p + 1 + n, cells, off + n);
            }
            _ => return,
        }
    }
}
