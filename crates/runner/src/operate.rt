// Operators: their operands are read, and the result is stored.
ghost use Rattle.std.specs.Prelude.{◌≡◌, ◌+◌, ◌<◌, ◌≤◌, true, length, drop, ◌≢◌, slice_index};
ghost use Rattle.words.specs.Bits.{field, kind_of};
ghost use Rattle.instructions.specs.Format.{says};
ghost use Rattle.execution.specs.Words.{need_at, operand_count, operated, program, value_in};
ghost use Rattle.execution.specs.Sound.{word_fine};
ghost use Rattle.runner.specs.From.{fine_from, OperandsAt, run_from};

use crate::fields::{operator, variable};
use crate::kinds::{OPERATE, TAKE};
use opset::OperatorSet;
use words::{kind, literal_in};

/// The value of an operand, which a literal of a foreign set may lack.
fn value<S: OperatorSet>(w: u32, cells: &[S::Value]) -> Option<S::Value>
    requires { word_fine (length cells.now) (says w) ≡ true }
    ensures { result ≡ value_in S.OperatorSet.meaning cells.now (says w) }
{
    if kind(w) == TAKE {
        Some(cells[variable(w)])
    } else {
        let l = literal_in(w);
        S::literal(l.ty, l.payload)
    }
}

/// Runs the OPERATE `w`, whose operands stand from `p` on, and says what place is behind them.
// The operator is applied in one place of the whole program, so that the compiler puts it there.
fn operate<S: OperatorSet>(words: &[u32], w: u32, p: usize, cells: &mut [S::Value]) -> usize
    requires cell { field w 0 6 < length cells.old }
    requires operands { OperandsAt words.now (field w 20 8) (length cells.old) p }
    ensures place { result ≡ p + operand_count (field w 20 8) }
    ensures stored { cells.new ≡ operated S.OperatorSet.meaning (field w 20 8) (field w 0 6) (drop p (program words.now)) cells.old }
{
    let op = operator(w);
    let first = value::<S>(words[p], cells);
    let mut second = None;
    let mut next = p + 1;
    if op >= 128 {
        second = value::<S>(words[p + 1], cells);
        next = p + 2;
        if second.is_none() {
            return next;
        }
    }
    if let Some(a) = first {
        cells[variable(w)] = S::apply(op, a, second);
    }
    next
}

/// Runs the operators that stand from `start` on, and says where another instruction stands.
pub fn operate_all<S: OperatorSet>(
    words: &[u32],
    k: usize,
    start: usize,
    cells: &mut [S::Value],
) -> usize
    requires room { need_at words.now k ≤ length cells.old }
    requires good { fine_from words.now k start ≡ true }
    ensures ahead { start ≤ result }
    ensures still { fine_from words.now k result ≡ true }
    ensures other { kind_of (slice_index words.now result) ≢ 3 }
    ensures same { run_from S.OperatorSet.meaning words.now k start cells.old ≡ run_from S.OperatorSet.meaning words.now k result cells.new }
{
    let mut p = start;
    let mut w = words[p];
    'operators: while kind(w) == OPERATE {
        p = operate::<S>(words, w, p + 1, cells);
        w = words[p];
    }
    p
}
