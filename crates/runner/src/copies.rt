// A call's operands go into the callee's cells, and its outputs come out of them.
ghost use Rattle.std.specs.Prelude.{◌≡◌, ◌+◌, ◌<◌, ◌≤◌, true, length, drop};
ghost use Rattle.execution.specs.Cells.{copied_in, copied_out};
ghost use Rattle.execution.specs.Words.{gives_in, operands_in, program};
ghost use Rattle.execution.specs.Sound.{gives_fine, operands_fine};

use crate::fields::variable;
use crate::kinds::{GIVE, LITERAL, TAKE};
use opset::OperatorSet;
use words::{kind, literal_in};

/// Copies the operands that stand from `p` on into the cells from `at` on, and says how many there are.
pub fn copy_in<S: OperatorSet>(words: &[u32], p: usize, cells: &mut [S::Value], at: usize) -> usize
    requires operands { operands_fine (length cells.old) (operands_in (drop p (program words.now))) ≡ true }
    requires behind { p + length (operands_in (drop p (program words.now))) < length words.now }
    requires room { at + length (operands_in (drop p (program words.now))) ≤ length cells.old }
    ensures count { result ≡ length (operands_in (drop p (program words.now))) }
    ensures copied { cells.new ≡ copied_in S.OperatorSet.meaning cells.old at (operands_in (drop p (program words.now))) }
{
    let mut i = 0;
    'operands: loop {
        let w = words[p + i];
        match kind(w) {
            TAKE => cells[at + i] = cells[variable(w)],
            LITERAL => {
                let l = literal_in(w);
                if let Some(v) = S::literal(l.ty, l.payload) {
                    cells[at + i] = v;
                }
            }
            _ => return i,
        }
        i += 1;
    }
}

/// Copies the cells from `at` on to the variables of the gives that stand from `p` on, and says how many there are.
pub fn copy_out<V: Copy + Drop>(words: &[u32], p: usize, cells: &mut [V], at: usize) -> usize
    requires gives { gives_fine (length cells.old) (gives_in (drop p (program words.now))) ≡ true }
    requires behind { p + length (gives_in (drop p (program words.now))) < length words.now }
    requires room { at + length (gives_in (drop p (program words.now))) ≤ length cells.old }
    ensures count { result ≡ length (gives_in (drop p (program words.now))) }
    ensures copied { cells.new ≡ copied_out cells.old at (gives_in (drop p (program words.now))) }
{
    let mut i = 0;
    let mut w = words[p];
    'gives: while kind(w) == GIVE {
        cells[variable(w)] = cells[at + i];
        i += 1;
        w = words[p + i];
    }
    i
}
