// The inputs that a step begins with.
ghost use Rattle.std.specs.Prelude.{◌≡◌, ◌<◌, ◌≤◌, false, length, if◌then◌else◌, slice_index_or};
ghost use Rattle.execution.specs.Cells.{stored};
ghost use Rattle.execution.specs.Sound.{input_type, inputs_in};
ghost use Rattle.calls.specs.Calls.{defaulted};

use crate::front::{input_count, input_type};
use crate::refusing::was_offered;
use opset::OperatorSet;

/// Gives an input payload 0 of its type, unless it was offered a value.
fn give_default<S: OperatorSet>(
    words: &[u32],
    offered: &[bool; 16],
    i: usize,
    cells: &mut [S::Value],
)
    requires { i < length cells.old }
    ensures { cells.new ≡ (if slice_index_or offered.now i false then cells.old else stored cells.old i (S.OperatorSet.meaning.literal (input_type words.now i) 0)) }
{
    if was_offered(offered, i) {
        return;
    }
    if let Some(v) = S::literal(input_type(words, i), 0) {
        cells[i] = v;
    }
}

/// Gives the inputs that were not offered a value payload 0 of their type.
pub fn give_defaults<S: OperatorSet>(words: &[u32], offered: &[bool; 16], cells: &mut [S::Value])
    requires { inputs_in words.now ≤ length cells.old }
    ensures { cells.new ≡ defaulted S.OperatorSet.meaning words.now offered.now (inputs_in words.now) cells.old }
{
    'inputs: for i in 0..input_count(words) {
        give_default::<S>(words, offered, i, cells);
    }
}
