// The clocks of what an equation reads, and of what a call gives.
ghost use Rattle.std.specs.Prelude.{◌≡◌, ◌+◌, ◌^◌, ◌<◌, slice_index};
ghost use Rattle.table.specs.Access.{Described, gives_at, operands_at};
ghost use Rattle.table.specs.Decoding.{table_of};
ghost use Rattle.table.specs.Syntax.{node_at};
ghost use Rattle.rules.specs.Clocks.{clock_of, gives_on, operand_on, operands_on, same_clock, second_on};

use crate::chains::{clock_of, same_clock};
use reader::Outline;
use words::{Clock, Operand};

/// Whether variable `x` has a clock.
fn variable_on(words: &[u32], outline: &Outline, k: usize, clock: Clock, x: u8) -> bool
    requires { Described words.now outline.now }
    ensures { result ≡ same_clock (clock_of (node_at (table_of words.now) k) x) clock }
{
    same_clock(clock_of(words, outline, k, x as usize), clock)
}

/// Whether an operand can be read on a clock; a literal can be on every one.
pub fn operand_on(
    words: &[u32],
    outline: &Outline,
    k: usize,
    clock: Clock,
    operand: Operand,
) -> bool
    requires { Described words.now outline.now }
    ensures { result ≡ operand_on (node_at (table_of words.now) k) clock operand }
{
    match operand {
        Operand::Take(x) => variable_on(words, outline, k, clock, x),
        Operand::Literal(_) => true,
    }
}

/// Whether an operator's second operand, if there is one, can be read on a clock.
pub fn second_on(
    words: &[u32],
    outline: &Outline,
    k: usize,
    clock: Clock,
    second: Option<Operand>,
) -> bool
    requires { Described words.now outline.now }
    ensures { result ≡ second_on (node_at (table_of words.now) k) clock second }
{
    match second {
        Some(operand) => operand_on(words, outline, k, clock, operand),
        None => true,
    }
}

/// Whether so many operands from a place on can all be read on a clock.
pub fn operands_on(
    words: &[u32],
    outline: &Outline,
    k: usize,
    clock: Clock,
    at: usize,
    count: usize,
) -> bool
    requires described { Described words.now outline.now }
    requires within { at + count < 2 ^ 64 }
    ensures { result ≡ operands_on (node_at (table_of words.now) k) clock (operands_at words.now at count) }
{
    'operands: for i in 0..count {
        if !operand_on(words, outline, k, clock, table::operand_at(words, at + i)) {
            return false;
        }
    }
    true
}

/// Whether the variables of so many gives from a place on all have a clock.
pub fn gives_on(
    words: &[u32],
    outline: &Outline,
    k: usize,
    clock: Clock,
    at: usize,
    count: usize,
) -> bool
    requires described { Described words.now outline.now }
    requires within { at + count < 2 ^ 64 }
    ensures { result ≡ gives_on (node_at (table_of words.now) k) clock (gives_at words.now at count) }
{
    'gives: for i in 0..count {
        if !variable_on(words, outline, k, clock, table::give_at(words, at + i)) {
            return false;
        }
    }
    true
}

/// The variable of the first of so many gives, and 0 where there is none.
pub fn first_give(words: &[u32], at: usize, count: usize) -> u8
    ensures { result ≡ slice_index (gives_at words.now at count) 0 }
{
    if count > 0 {
        table::give_at(words, at)
    } else {
        0
    }
}
