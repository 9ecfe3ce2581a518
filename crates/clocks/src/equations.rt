// The clocks of an equation: what it reads against what it defines.
ghost use Rattle.std.specs.Prelude.{◌≡◌, ◌<◌, ◌≤◌, length};
ghost use Rattle.table.specs.Access.{Described};
ghost use Rattle.table.specs.Decoding.{table_of};
ghost use Rattle.table.specs.Syntax.{choose, equation_at, equation_count, merge, node_at, operate};
ghost use Rattle.rules.specs.Clocks.{equation_clocked, sample_on};
ghost use Rattle.clocks.specs.Calls.{call_at};

use crate::chains::{clock_of, same_clock};
use crate::operands::{first_give, gives_on, operand_on, operands_on, second_on};
use reader::Outline;
use table::Drawn;
use words::{Clock, Operand};

/// An operator computes where all that it reads is there, so its operands have the clock of what it defines.
fn operate_clocked(
    words: &[u32],
    outline: &Outline,
    k: usize,
    op: u8,
    a: Operand,
    b: Option<Operand>,
    x: u8,
) -> bool
    requires { Described words.now outline.now }
    ensures { result ≡ equation_clocked (node_at (table_of words.now) k) (operate op a b x) }
{
    let clock = clock_of(words, outline, k, x as usize);
    operand_on(words, outline, k, clock, a) && second_on(words, outline, k, clock, b)
}

/// Whether SAMPLE can define a variable of a clock from an operand: the variable is sampled, and the operand is there whenever the sampler is.
fn sample_on(words: &[u32], outline: &Outline, k: usize, operand: Operand, clock: Clock) -> bool
    requires { Described words.now outline.now }
    ensures { result ≡ sample_on (node_at (table_of words.now) k) operand clock }
{
    match clock {
        Clock::Base => false,
        Clock::On(sampler, _) => {
            let faster = clock_of(words, outline, k, sampler as usize);
            operand_on(words, outline, k, faster, operand)
        }
    }
}

/// MERGE puts together what is there where the selector is true and what is there where it is false, so its operands have these clocks.
fn merge_clocked(
    words: &[u32],
    outline: &Outline,
    k: usize,
    selector: u8,
    a: Operand,
    b: Operand,
    x: u8,
) -> bool
    requires { Described words.now outline.now }
    ensures { result ≡ equation_clocked (node_at (table_of words.now) k) (merge selector a b x) }
{
    let clock = clock_of(words, outline, k, x as usize);
    same_clock(clock_of(words, outline, k, selector as usize), clock)
        && operand_on(words, outline, k, Clock::On(selector, true), a)
        && operand_on(words, outline, k, Clock::On(selector, false), b)
}

/// CHOOSE takes one of two that are both there, so all have one clock.
fn choose_clocked(
    words: &[u32],
    outline: &Outline,
    k: usize,
    selector: u8,
    a: Operand,
    b: Operand,
    x: u8,
) -> bool
    requires { Described words.now outline.now }
    ensures { result ≡ equation_clocked (node_at (table_of words.now) k) (choose selector a b x) }
{
    let clock = clock_of(words, outline, k, x as usize);
    same_clock(clock_of(words, outline, k, selector as usize), clock)
        && operand_on(words, outline, k, clock, a)
        && operand_on(words, outline, k, clock, b)
}

/// Whether all that a call of node `called` reads and gives has the clock of its first give. Its operands stand from `at` on, and its gives behind them.
fn call_within(words: &[u32], outline: &Outline, k: usize, called: usize, at: usize) -> bool
    requires described { Described words.now outline.now }
    requires within { at ≤ 16384 }
    ensures { result ≡ equation_clocked (node_at (table_of words.now) k) (call_at words.now called at) }
{
    let inputs = table::input_count(words, outline, called);
    let outputs = table::output_count(words, outline, called);
    let gives = at + inputs;
    let first = first_give(words, gives, outputs);
    let clock = clock_of(words, outline, k, first as usize);
    operands_on(words, outline, k, clock, at, inputs)
        && gives_on(words, outline, k, clock, gives, outputs)
}

/// The same, wherever the operands stand.
fn call_clocked(words: &[u32], outline: &Outline, k: usize, called: usize, at: usize) -> bool
    requires { Described words.now outline.now }
    ensures { result ≡ equation_clocked (node_at (table_of words.now) k) (call_at words.now called at) }
{
    // behind the last word one place is as good as another, and from the first of them the places of the gives can be counted
    call_within(words, outline, k, called, at.min(words.len()))
}

/// Whether the clocks of equation `e` of node `k` are right.
pub fn equation_clocked(words: &[u32], outline: &Outline, k: usize, e: usize) -> bool
    requires described { Described words.now outline.now }
    requires node { k < length (table_of words.now) }
    requires within { e < equation_count (node_at (table_of words.now) k) }
    ensures { result ≡ equation_clocked (node_at (table_of words.now) k) (equation_at (node_at (table_of words.now) k) e) }
{
    match table::equation(words, outline, k, e) {
        Drawn::Operate(op, a, b, x) => operate_clocked(words, outline, k, op, a, b, x),
        Drawn::Sample(a, x) => {
            let clock = clock_of(words, outline, k, x as usize);
            sample_on(words, outline, k, a, clock)
        }
        Drawn::Merge(selector, a, b, x) => merge_clocked(words, outline, k, selector, a, b, x),
        Drawn::Choose(selector, a, b, x) => choose_clocked(words, outline, k, selector, a, b, x),
        Drawn::Delay(_, a, x) => {
            let clock = clock_of(words, outline, k, x as usize);
            operand_on(words, outline, k, clock, a)
        }
        Drawn::Call(called, _, at) => call_clocked(words, outline, k, called as usize, at),
    }
}
