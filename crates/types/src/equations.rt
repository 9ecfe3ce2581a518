// Whether an equation's operands have types that suit it, and give the type of the variable that it defines.
ghost use Rattle.std.specs.Prelude.{◌≡◌, ◌<◌, length, take};
ghost use Rattle.std.specs.Option.{option_map};
ghost use Rattle.rules.specs.Types.{equation_typed, operand_type, second_valued};
ghost use Rattle.table.specs.Access.{Described};
ghost use Rattle.table.specs.Decoding.{table_of};
ghost use Rattle.table.specs.Syntax.{delay, equation_at, equation_count, merge, node_at, operate};

use crate::calls::call_typed;
use crate::operands::{is_boolean, operand_has, operand_type, type_of, valued};
use opset::OperatorSet;
use reader::Outline;
use table::{Drawn, equation};
use words::{Literal, Operand};

fn second_valued<S: OperatorSet>(b: Option<Operand>) -> bool
    ensures { result ≡ second_valued S.OperatorSet.meaning b }
{
    match b {
        Some(b) => valued::<S>(b),
        None => true,
    }
}

fn second_type(words: &[u32], outline: &Outline, k: usize, b: Option<Operand>) -> Option<u8>
    requires { Described words.now outline.now }
    ensures { result ≡ option_map (operand_type (node_at (table_of words.now) k)) b }
{
    match b {
        Some(b) => Some(operand_type(words, outline, k, b)),
        None => None,
    }
}

/// An operator decides by the types of its operands which type it answers, if it is for them at all.
fn operate_typed<S: OperatorSet>(
    words: &[u32],
    outline: &Outline,
    k: usize,
    op: u8,
    a: Operand,
    b: Option<Operand>,
    x: u8,
) -> bool
    requires { Described words.now outline.now }
    ensures { result ≡ equation_typed S.OperatorSet.meaning (take k (table_of words.now)) (node_at (table_of words.now) k) (operate op a b x) }
{
    if !valued::<S>(a) || !second_valued::<S>(b) {
        return false;
    }
    let first = operand_type(words, outline, k, a);
    let second = second_type(words, outline, k, b);
    match S::result_type(op, first, second) {
        Some(ty) => ty == type_of(words, outline, k, x as usize),
        None => false,
    }
}

/// MERGE and CHOOSE, which have one rule: either operand may be the one that is taken, so both have the variable's type.
fn choice_typed<S: OperatorSet>(
    words: &[u32],
    outline: &Outline,
    k: usize,
    selector: u8,
    a: Operand,
    b: Operand,
    x: u8,
) -> bool
    requires { Described words.now outline.now }
    ensures { result ≡ equation_typed S.OperatorSet.meaning (take k (table_of words.now)) (node_at (table_of words.now) k) (merge selector a b x) }
{
    let ty = type_of(words, outline, k, x as usize);
    is_boolean(words, outline, k, selector as usize)
        && operand_has::<S>(words, outline, k, a, ty)
        && operand_has::<S>(words, outline, k, b, ty)
}

/// DELAY: the variable has the literal's value first, so the literal has its type too.
fn delay_typed<S: OperatorSet>(
    words: &[u32],
    outline: &Outline,
    k: usize,
    l: Literal,
    a: Operand,
    x: u8,
) -> bool
    requires { Described words.now outline.now }
    ensures { result ≡ equation_typed S.OperatorSet.meaning (take k (table_of words.now)) (node_at (table_of words.now) k) (delay l a x) }
{
    let ty = type_of(words, outline, k, x as usize);
    operand_has::<S>(words, outline, k, Operand::Literal(l), ty)
        && operand_has::<S>(words, outline, k, a, ty)
}

pub fn equation_typed<S: OperatorSet>(words: &[u32], outline: &Outline, k: usize, e: usize) -> bool
    requires described { Described words.now outline.now }
    requires node { k < length (table_of words.now) }
    requires within { e < equation_count (node_at (table_of words.now) k) }
    ensures { result ≡ equation_typed S.OperatorSet.meaning (take k (table_of words.now)) (node_at (table_of words.now) k) (equation_at (node_at (table_of words.now) k) e) }
{
    match equation(words, outline, k, e) {
        Drawn::Operate(op, a, b, x) => operate_typed::<S>(words, outline, k, op, a, b, x),
        Drawn::Sample(a, x) => {
            let ty = type_of(words, outline, k, x as usize);
            operand_has::<S>(words, outline, k, a, ty)
        }
        Drawn::Merge(selector, a, b, x) => choice_typed::<S>(words, outline, k, selector, a, b, x),
        Drawn::Choose(selector, a, b, x) => choice_typed::<S>(words, outline, k, selector, a, b, x),
        Drawn::Delay(l, a, x) => delay_typed::<S>(words, outline, k, l, a, x),
        Drawn::Call(g, restart, at) => call_typed::<S>(words, outline, k, g as usize, restart, at),
    }
}
