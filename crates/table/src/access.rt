// The parts of a table that is read: what a node has, a variable, an equation.
ghost use Rattle.std.specs.Prelude.{◌≡◌, ◌<◌, length, slice_index};
ghost use Rattle.table.specs.Access.{Described, Draws, drawn_at, drawn_operate};
ghost use Rattle.table.specs.Decoding.{table_of};
ghost use Rattle.table.specs.Spelling.{ports_of};
ghost use Rattle.words.specs.Bits.{field};
ghost use Rattle.words.specs.Format.{operand_in};
ghost use Rattle.table.specs.Syntax.{equation_at, equation_count, node_at, variable_at, variable_count};

use crate::drawn::Drawn;
use reader::Outline;
use words::{
    Clock, Operand, Ports, Variable, kind, literal_in, operand_in, ports_in, restart_in,
    variable_in, variable_number,
};

/// A word of a table, and 0 past its end.
pub fn word_at(words: &[u32], at: usize) -> u32
    ensures { result ≡ slice_index words.now at }
{
    if at < words.len() { words[at] } else { 0 }
}

/// The operand that stands at a place.
pub fn operand_at(words: &[u32], at: usize) -> Operand
    ensures { result ≡ operand_in (slice_index words.now at) }
{
    operand_in(word_at(words, at))
}

/// The variable of the GIVE that stands at a place.
pub fn give_at(words: &[u32], at: usize) -> u8
    ensures { result ≡ field (slice_index words.now at) 0 6 }
{
    variable_number(word_at(words, at))
}

/// How many inputs node `k` has, and 0 past the last node.
pub fn input_count(words: &[u32], outline: &Outline, k: usize) -> usize
    requires { Described words.now outline.now }
    ensures { result ≡ (node_at (table_of words.now) k).inputs }
{
    if k < outline.nodes as usize {
        outline.inputs[k] as usize
    } else {
        0
    }
}

/// How many outputs node `k` has, and 0 past the last node.
pub fn output_count(words: &[u32], outline: &Outline, k: usize) -> usize
    requires { Described words.now outline.now }
    ensures { result ≡ (node_at (table_of words.now) k).outputs }
{
    if k < outline.nodes as usize {
        outline.outputs[k] as usize
    } else {
        0
    }
}

/// How many equations node `k` has, and 0 past the last node.
pub fn equation_count(words: &[u32], outline: &Outline, k: usize) -> usize
    requires { Described words.now outline.now }
    ensures { result ≡ equation_count (node_at (table_of words.now) k) }
{
    if k < outline.nodes as usize {
        outline.equations[k] as usize
    } else {
        0
    }
}

fn node_ports(words: &[u32], outline: &Outline, k: usize) -> Ports
    requires described { Described words.now outline.now }
    requires node { k < length (table_of words.now) }
    ensures { result ≡ ports_of (node_at (table_of words.now) k) }
{
    ports_in(word_at(words, outline.starts[k] as usize))
}

/// How many variables node `k` has, and 0 past the last node.
pub fn variable_count(words: &[u32], outline: &Outline, k: usize) -> usize
    requires { Described words.now outline.now }
    ensures { result ≡ variable_count (node_at (table_of words.now) k) }
{
    if k >= outline.nodes as usize {
        return 0;
    }
    let ports = node_ports(words, outline, k);
    ports.inputs as usize + ports.outputs as usize + ports.locals as usize
}

fn variable_within(words: &[u32], outline: &Outline, k: usize, x: usize) -> Variable
    requires described { Described words.now outline.now }
    requires node { k < length (table_of words.now) }
    requires within { x < variable_count (node_at (table_of words.now) k) }
    ensures { result ≡ variable_at (node_at (table_of words.now) k) x }
{
    variable_in(word_at(words, outline.starts[k] as usize + 1 + x))
}

/// Variable `x` of node `k`; past the last, a boolean on the base.
pub fn variable(words: &[u32], outline: &Outline, k: usize, x: usize) -> Variable
    requires { Described words.now outline.now }
    ensures { result ≡ variable_at (node_at (table_of words.now) k) x }
{
    if x >= variable_count(words, outline, k) {
        return Variable {
            ty: 0,
            clock: Clock::Base,
        };
    }
    variable_within(words, outline, k, x)
}

fn operate(w: u32, first: u32, second: u32) -> Drawn
    ensures { result ≡ drawn_operate w first second }
{
    let op = ((w >> 20) % 0x100) as u8;
    let b = if op < 128 {
        None
    } else {
        Some(operand_in(second))
    };
    Drawn::Operate(op, operand_in(first), b, variable_number(w))
}

fn drawn_at(words: &[u32], at: u16) -> Drawn
    ensures { result ≡ drawn_at words.now at }
{
    let w = word_at(words, at as usize);
    let first = word_at(words, at as usize + 1);
    let second = word_at(words, at as usize + 2);
    let selector = ((w >> 8) % 0x40) as u8;
    let x = variable_number(w);
    match kind(w) {
        3 => operate(w, first, second),
        4 => Drawn::Sample(operand_in(first), x),
        5 => Drawn::Merge(selector, operand_in(first), operand_in(second), x),
        6 => Drawn::Choose(selector, operand_in(first), operand_in(second), x),
        7 => Drawn::Delay(literal_in(first), operand_in(second), x),
        _ => Drawn::Call(((w >> 20) % 0x100) as u8, restart_in(w), at as usize + 1),
    }
}

/// Equation `e` of node `k`.
pub fn equation(words: &[u32], outline: &Outline, k: usize, e: usize) -> Drawn
    requires described { Described words.now outline.now }
    requires node { k < length (table_of words.now) }
    requires within { e < equation_count (node_at (table_of words.now) k) }
    ensures { Draws words.now (table_of words.now) k result (equation_at (node_at (table_of words.now) k) e) }
{
    drawn_at(words, outline.heads[64 * k + e])
}
