// The variables that an equation reads, and those that it defines.
ghost use Rattle.std.specs.Prelude.{ℕ, ◌+◌, ◌<◌, ◌≤◌, List, [], ◌∷◌, ◌++◌, length};
ghost use Rattle.table.specs.Access.{Described, gives_at, operands_at};
ghost use Rattle.table.specs.Decoding.{table_of};
ghost use Rattle.table.specs.Syntax.{equation_at, equation_count, node_at};
ghost use Rattle.rules.specs.Definitions.{defined};
ghost use Rattle.schedule.specs.Reads.{chain, operand_reads, operands_read, restart_reads, second_reads, reads as reads_of};
ghost use Rattle.waits.specs.Calls.{call_gives, call_reads, Within};
ghost use Rattle.waits.specs.Members.{Holds, OperandSmall, RestartSmall, SecondSmall};

use crate::variable_set::VariableSet;
use reader::Outline;
use table::{Drawn, equation, give_at, input_count, operand_at, output_count, variable};
use words::{Clock, Operand};

fn only(x: u8) -> VariableSet
    requires { x < 64 }
    ensures { Holds result (x ∷ []) }
{
    let mut set = VariableSet::new();
    set.insert(x);
    set
}

fn insert_operand(set: &mut VariableSet, a: Operand)
    requires { OperandSmall a }
    ensures { (l : List ℕ) → Holds set.old l → Holds set.new (operand_reads a ++ l) }
{
    match a {
        Operand::Take(x) => set.insert(x),
        Operand::Literal(_) => {}
    }
}

fn insert_second(set: &mut VariableSet, b: Option<Operand>)
    requires { SecondSmall b }
    ensures { (l : List ℕ) → Holds set.old l → Holds set.new (second_reads b ++ l) }
{
    match b {
        Some(a) => insert_operand(set, a),
        None => {}
    }
}

/// The chain of variable `x` of node `k`: its sampler, that sampler's sampler and so on, at most 8.
fn chain_set(words: &[u32], outline: &Outline, k: usize, x: u8) -> VariableSet
    requires { Described words.now outline.now }
    ensures { Holds result (chain (node_at (table_of words.now) k) x) }
{
    let mut set = VariableSet::new();
    let mut last = x;
    'samplers: for _passed in 0..8u8 {
        match variable(words, outline, k, last as usize).clock {
            Clock::Base => break,
            Clock::On(sampler, _) => {
                set.insert(sampler);
                last = sampler;
            }
        }
    }
    set
}

/// What an equation of one operand or two reads: their variables, and the chain of the variable that it defines.
fn plain_reads(
    words: &[u32],
    outline: &Outline,
    k: usize,
    a: Operand,
    b: Option<Operand>,
    x: u8,
) -> VariableSet
    requires described { Described words.now outline.now }
    requires small { (OperandSmall a) × (SecondSmall b) }
    ensures { Holds result (operand_reads a ++ (second_reads b ++ chain (node_at (table_of words.now) k) x)) }
{
    let mut set = chain_set(words, outline, k, x);
    insert_second(&mut set, b);
    insert_operand(&mut set, a);
    set
}

/// What an equation with a selector reads.
fn selected_reads(
    words: &[u32],
    outline: &Outline,
    k: usize,
    s: u8,
    a: Operand,
    b: Operand,
    x: u8,
) -> VariableSet
    requires described { Described words.now outline.now }
    requires small { (s < 64) × ((OperandSmall a) × (OperandSmall b)) }
    ensures { Holds result (s ∷ (operand_reads a ++ (operand_reads b ++ chain (node_at (table_of words.now) k) x))) }
{
    let mut set = plain_reads(words, outline, k, a, Some(b), x);
    set.insert(s);
    set
}

fn operands_set(words: &[u32], at: usize, n: usize) -> VariableSet
    requires near { at ≤ 16400 }
    requires few { n ≤ 16 }
    ensures { Holds result (operands_read (operands_at words.now at n)) }
{
    let mut set = VariableSet::new();
    'operands: for i in 0..n {
        insert_operand(&mut set, operand_at(words, at + i));
    }
    set
}

/// The variable that restarts a CALL, and its chain.
fn restart_set(words: &[u32], outline: &Outline, k: usize, restart: Option<u8>) -> VariableSet
    requires described { Described words.now outline.now }
    requires small { RestartSmall restart }
    ensures { Holds result (restart_reads (node_at (table_of words.now) k) restart) }
{
    match restart {
        Some(r) => {
            let mut set = chain_set(words, outline, k, r);
            set.insert(r);
            set
        }
        None => VariableSet::new(),
    }
}

/// The place, or the end of the words where it stands past them: behind their end all places read as zeros.
pub fn within(words: &[u32], at: usize) -> usize
    ensures { Within words.now at result }
{
    if at < words.len() { at } else { words.len() }
}

/// What a CALL of node `g` reads, whose first operand stands at a place.
fn call_reads(
    words: &[u32],
    outline: &Outline,
    k: usize,
    g: u8,
    restart: Option<u8>,
    at: usize,
) -> VariableSet
    requires described { Described words.now outline.now }
    requires node { g < length (table_of words.now) }
    requires small { RestartSmall restart }
    ensures { Holds result (call_reads words.now k g restart at) }
{
    let first = within(words, at);
    let inputs = input_count(words, outline, g as usize);
    let operands = operands_set(words, first, inputs);
    // The clock of a CALL is that of the first variable that it gives.
    let clock = chain_set(words, outline, k, give_at(words, first + inputs));
    operands.union(restart_set(words, outline, k, restart).union(clock))
}

/// The variables that equation `e` of node `k` reads.
pub fn reads(words: &[u32], outline: &Outline, k: usize, e: usize) -> VariableSet
    requires described { Described words.now outline.now }
    requires node { k < length (table_of words.now) }
    requires equation { e < equation_count (node_at (table_of words.now) k) }
    ensures { Holds result (reads_of (node_at (table_of words.now) k) (equation_at (node_at (table_of words.now) k) e)) }
{
    match equation(words, outline, k, e) {
        Drawn::Operate(_, a, b, x) => plain_reads(words, outline, k, a, b, x),
        Drawn::Sample(a, x) | Drawn::Delay(_, a, x) => plain_reads(words, outline, k, a, None, x),
        Drawn::Merge(s, a, b, x) | Drawn::Choose(s, a, b, x) => selected_reads(
            words, outline, k, s, a, b, x,
        ),
        Drawn::Call(g, restart, at) => call_reads(words, outline, k, g, restart, at),
    }
}

fn gives_set(words: &[u32], at: usize, n: usize) -> VariableSet
    requires near { at ≤ 16400 }
    requires few { n ≤ 16 }
    ensures { Holds result (gives_at words.now at n) }
{
    let mut set = VariableSet::new();
    'gives: for i in 0..n {
        set.insert(give_at(words, at + i));
    }
    set
}

/// What a CALL of node `g` defines, whose first operand stands at a place.
fn call_defines(words: &[u32], outline: &Outline, g: u8, at: usize) -> VariableSet
    requires described { Described words.now outline.now }
    requires node { g < length (table_of words.now) }
    ensures { Holds result (call_gives words.now g at) }
{
    let first = within(words, at) + input_count(words, outline, g as usize);
    gives_set(words, first, output_count(words, outline, g as usize))
}

/// The variables that equation `e` of node `k` defines.
pub fn defines(words: &[u32], outline: &Outline, k: usize, e: usize) -> VariableSet
    requires described { Described words.now outline.now }
    requires node { k < length (table_of words.now) }
    requires equation { e < equation_count (node_at (table_of words.now) k) }
    ensures { Holds result (defined (equation_at (node_at (table_of words.now) k) e)) }
{
    match equation(words, outline, k, e) {
        Drawn::Operate(_, _, _, x)
        | Drawn::Sample(_, x)
        | Drawn::Merge(_, _, _, x)
        | Drawn::Choose(_, _, _, x)
        | Drawn::Delay(_, _, x) => only(x),
        Drawn::Call(g, _, at) => call_defines(words, outline, g, at),
    }
}
