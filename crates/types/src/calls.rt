// Whether a call's operands and gives have the types of the called node's inputs and outputs.
// Where a body has no use for the operator set, it is there for the definition that the contract cites.
ghost use Rattle.std.specs.Prelude.{◌≡◌, ◌+◌, ◌<◌, ◌≤◌, length, take, ◌==◌, slice_index};
ghost use Rattle.rules.specs.Types.{equation_typed, gives_have, operand_has, operands_have, restart_boolean, type_of};
ghost use Rattle.table.specs.Access.{Described, gives_at, operands_at};
ghost use Rattle.table.specs.Decoding.{table_of};
ghost use Rattle.table.specs.Syntax.{call, node_at};
ghost use Rattle.words.specs.Bits.{field};
ghost use Rattle.words.specs.Format.{operand_in};

use crate::operands::{is_boolean, operand_has, type_of};
use opset::OperatorSet;
use reader::Outline;
use table::{give_at, input_count, operand_at, output_count};

/// Whether the operand at a place, of node `k`, has the type of input `i` of node `g`.
fn operand_suits<S: OperatorSet>(
    words: &[u32],
    outline: &Outline,
    k: usize,
    at: usize,
    g: usize,
    i: usize,
) -> bool
    requires { Described words.now outline.now }
    ensures { result ≡ operand_has S.OperatorSet.meaning (node_at (table_of words.now) k) (operand_in (slice_index words.now at)) (type_of (node_at (table_of words.now) g) i) }
{
    let input = type_of(words, outline, g, i);
    operand_has::<S>(words, outline, k, operand_at(words, at), input)
}

/// Whether the variable of the give at a place, of node `k`, has the type of output `i` of node `g`: its outputs are numbered behind its inputs.
fn give_suits(words: &[u32], outline: &Outline, k: usize, at: usize, g: usize, i: usize) -> bool
    requires described { Described words.now outline.now }
    requires called { g < length (table_of words.now) }
    requires output { i < (node_at (table_of words.now) g).outputs }
    ensures { result ≡ (type_of (node_at (table_of words.now) k) (field (slice_index words.now at) 0 6) == type_of (node_at (table_of words.now) g) ((node_at (table_of words.now) g).inputs + i)) }
{
    let output = type_of(words, outline, g, input_count(words, outline, g) + i);
    type_of(words, outline, k, give_at(words, at) as usize) == output
}

/// Whether the operands from a place on, of node `k`, have the types of the inputs of node `g`.
fn operands_have<S: OperatorSet>(
    words: &[u32],
    outline: &Outline,
    k: usize,
    at: usize,
    g: usize,
) -> bool
    requires described { Described words.now outline.now }
    requires called { g < length (table_of words.now) }
    requires place { at ≤ 65536 }
    ensures { result ≡ operands_have S.OperatorSet.meaning (node_at (table_of words.now) k) (operands_at words.now at (node_at (table_of words.now) g).inputs) (node_at (table_of words.now) g) 0 }
{
    'inputs: for i in 0..input_count(words, outline, g) {
        if !operand_suits::<S>(words, outline, k, at + i, g, i) {
            return false;
        }
    }
    true
}

/// Whether the gives from a place on, of node `k`, have the types of the outputs of node `g`.
fn gives_have<S: OperatorSet>(
    words: &[u32],
    outline: &Outline,
    k: usize,
    at: usize,
    g: usize,
) -> bool
    requires described { Described words.now outline.now }
    requires called { g < length (table_of words.now) }
    requires place { at ≤ 65536 }
    ensures { result ≡ gives_have S.OperatorSet.meaning (node_at (table_of words.now) k) (gives_at words.now at (node_at (table_of words.now) g).outputs) (node_at (table_of words.now) g) (node_at (table_of words.now) g).inputs }
{
    'outputs: for i in 0..output_count(words, outline, g) {
        if !give_suits(words, outline, k, at + i, g, i) {
            return false;
        }
    }
    true
}

fn restart_boolean<S: OperatorSet>(
    words: &[u32],
    outline: &Outline,
    k: usize,
    restart: Option<u8>,
) -> bool
    requires { Described words.now outline.now }
    ensures { result ≡ restart_boolean S.OperatorSet.meaning (node_at (table_of words.now) k) restart }
{
    match restart {
        Some(r) => is_boolean(words, outline, k, r as usize),
        None => true,
    }
}

/// A CALL of node `g`, whose operands stand from a place on, and its gives behind them.
pub fn call_typed<S: OperatorSet>(
    words: &[u32],
    outline: &Outline,
    k: usize,
    g: usize,
    restart: Option<u8>,
    at: usize,
) -> bool
    requires described { Described words.now outline.now }
    requires node { k < length (table_of words.now) }
    requires called { g < k }
    ensures { result ≡ equation_typed S.OperatorSet.meaning (take k (table_of words.now)) (node_at (table_of words.now) k) (call g restart (operands_at words.now at (node_at (table_of words.now) g).inputs) (gives_at words.now (at + (node_at (table_of words.now) g).inputs) (node_at (table_of words.now) g).outputs)) }
{
    if !restart_boolean::<S>(words, outline, k, restart) {
        return false;
    }
    // No word stands past the end, so a place there may be moved back to it, where a sum cannot wrap.
    let first = at.min(words.len());
    operands_have::<S>(words, outline, k, first, g)
        && gives_have::<S>(words, outline, k, first + input_count(words, outline, g), g)
}
