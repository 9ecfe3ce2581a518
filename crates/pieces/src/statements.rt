// The statements of an equation, each under the tests of its clock.
ghost use Rattle.std.specs.Prelude.{◌≡◌, ◌+◌, ◌^◌, ◌<◌, ◌≤◌, [], ◌∷◌, length};
ghost use Rattle.words.specs.Format.{OperandFits, RestartFits};
ghost use Rattle.table.specs.Access.{Described};
ghost use Rattle.table.specs.Decoding.{table_of};
ghost use Rattle.table.specs.Syntax.{call, equation_at, equation_count, node_at};
ghost use Rattle.rules.specs.Clocks.{call_clock, clock_of};
ghost use Rattle.code.specs.Statements.{assign, call_reset, delay_reset, restart_statements, select, statements as statements_of, step, under};
ghost use Rattle.code.specs.Code.{second as second_word, statement_words, statements_words};
ghost use Rattle.pieces.specs.Fitting.{SecondFits, call_operands, call_gives};
ghost use Rattle.pieces.specs.Holding.{Adds};

use crate::actions::{push_assign, push_select, push_step};
use crate::piece::Piece;
use crate::tests::push_clock;
use instructions::CodeWord;
use reader::Outline;
use table::{Drawn, equation, give_at, input_count, output_count};
use waits::within;
use words::Operand;

/// How many words an operator has with its operands.
fn assign_length(b: Option<Operand>) -> u16
    ensures { result ≡ 2 + length (second_word b) }
{
    match b {
        None => 2,
        Some(_) => 3,
    }
}

/// Adds the statement that assigns an operator's result to variable `x` of node `k`.
fn push_assigned(
    piece: &mut Piece,
    words: &[u32],
    outline: &Outline,
    k: usize,
    op: u8,
    a: Operand,
    b: Option<Operand>,
    x: u8,
)
    requires described { Described words.now outline.now }
    requires fits { (x < 64) × ((OperandFits a) × (SecondFits b)) }
    requires room { piece.old.len ≤ 53 }
    ensures { Adds piece.old piece.new (statement_words (under (node_at (table_of words.now) k) (clock_of (node_at (table_of words.now) k) x) (assign op a b x))) }
{
    push_clock(piece, words, outline, k, x, assign_length(b));
    push_assign(piece, op, a, b, x);
}

/// Adds the statement that assigns one of two operands to variable `x` of node `k`.
fn push_selected(
    piece: &mut Piece,
    words: &[u32],
    outline: &Outline,
    k: usize,
    s: u8,
    a: Operand,
    b: Operand,
    x: u8,
)
    requires described { Described words.now outline.now }
    requires fits { (s < 64) × ((x < 64) × ((OperandFits a) × (OperandFits b))) }
    requires room { piece.old.len ≤ 50 }
    ensures { Adds piece.old piece.new (statement_words (under (node_at (table_of words.now) k) (clock_of (node_at (table_of words.now) k) x) (select s a b x))) }
{
    push_clock(piece, words, outline, k, x, 6);
    push_select(piece, s, a, b, x);
}

/// Adds the restart of a call, if a variable restarts it: under that variable's own chain and the variable.
fn push_restart(
    piece: &mut Piece,
    words: &[u32],
    outline: &Outline,
    k: usize,
    g: u8,
    offset: u16,
    restart: Option<u8>,
)
    requires described { Described words.now outline.now }
    requires fits { (offset < 2 ^ 13) × (RestartFits restart) }
    requires room { piece.old.len ≤ 54 }
    ensures { Adds piece.old piece.new (statements_words (restart_statements (node_at (table_of words.now) k) g offset restart)) }
{
    if let Some(r) = restart {
        push_clock(piece, words, outline, k, r, 2);
        piece.push(CodeWord::Unless(true, r, 1));
        piece.push(CodeWord::Reset(g, offset));
    }
}

/// Adds the step of a call of node `g`, under the clock of what it gives. The call's first operand stands at a place.
fn push_stepped(
    piece: &mut Piece,
    words: &[u32],
    outline: &Outline,
    k: usize,
    g: u8,
    offset: u16,
    at: usize,
)
    requires described { Described words.now outline.now }
    requires node { g < length (table_of words.now) }
    requires fits { offset < 2 ^ 13 }
    requires room { piece.old.len ≤ 23 }
    ensures { Adds piece.old piece.new (statement_words (under (node_at (table_of words.now) k) (call_clock (node_at (table_of words.now) k) (call_gives words.now g at)) (step g offset (call_operands words.now g at) (call_gives words.now g at)))) }
{
    let inputs = input_count(words, outline, g as usize);
    let outputs = output_count(words, outline, g as usize);
    let given = give_at(words, within(words, at) + inputs);
    push_clock(
        piece,
        words,
        outline,
        k,
        given,
        (1 + inputs + outputs) as u16,
    );
    push_step(piece, words, outline, g, offset, at);
}

/// Adds the statements of a call of node `g`: its restart, if it has one, and its step.
fn push_call(
    piece: &mut Piece,
    words: &[u32],
    outline: &Outline,
    k: usize,
    g: u8,
    offset: u16,
    restart: Option<u8>,
    at: usize,
)
    requires described { Described words.now outline.now }
    requires node { g < length (table_of words.now) }
    requires fits { (offset < 2 ^ 13) × (RestartFits restart) }
    requires room { piece.old.len ≤ 13 }
    ensures { Adds piece.old piece.new (statements_words (statements_of (node_at (table_of words.now) k) offset (call g restart (call_operands words.now g at) (call_gives words.now g at)))) }
{
    push_restart(piece, words, outline, k, g, offset, restart);
    push_stepped(piece, words, outline, k, g, offset, at);
}

/// Adds the statements of equation `e` of node `k`; where it is a call, its segment begins at `offset`.
pub fn push_statements(
    piece: &mut Piece,
    words: &[u32],
    outline: &Outline,
    k: usize,
    e: usize,
    offset: u16,
)
    requires described { Described words.now outline.now }
    requires node { k < length (table_of words.now) }
    requires within { e < equation_count (node_at (table_of words.now) k) }
    requires fits { offset < 2 ^ 13 }
    requires room { piece.old.len ≤ 13 }
    ensures { Adds piece.old piece.new (statements_words (statements_of (node_at (table_of words.now) k) offset (equation_at (node_at (table_of words.now) k) e))) }
{
    match equation(words, outline, k, e) {
        Drawn::Operate(op, a, b, x) => push_assigned(piece, words, outline, k, op, a, b, x),
        Drawn::Sample(a, x) => push_assigned(piece, words, outline, k, 0, a, None, x),
        Drawn::Merge(s, a, b, x) => push_selected(piece, words, outline, k, s, a, b, x),
        Drawn::Choose(s, a, b, x) => push_selected(piece, words, outline, k, s, a, b, x),
        Drawn::Delay(_, a, x) => push_assigned(piece, words, outline, k, 0, a, None, x),
        Drawn::Call(g, restart, at) => {
            push_call(piece, words, outline, k, g, offset, restart, at);
        }
    }
}

/// Adds what sets equation `e` of node `k` to its literal, where it is a DELAY.
pub fn push_delay_reset(piece: &mut Piece, words: &[u32], outline: &Outline, k: usize, e: usize)
    requires described { Described words.now outline.now }
    requires node { k < length (table_of words.now) }
    requires within { e < equation_count (node_at (table_of words.now) k) }
    requires room { piece.old.len ≤ 61 }
    ensures { Adds piece.old piece.new (statements_words (delay_reset (equation_at (node_at (table_of words.now) k) e))) }
{
    if let Drawn::Delay(l, _, x) = equation(words, outline, k, e) {
        push_assign(piece, 0, Operand::Literal(l), None, x);
    }
}

/// Adds the reset of the segment that begins at `offset`, where equation `e` of node `k` is a CALL.
pub fn push_call_reset(
    piece: &mut Piece,
    words: &[u32],
    outline: &Outline,
    k: usize,
    e: usize,
    offset: u16,
)
    requires described { Described words.now outline.now }
    requires node { k < length (table_of words.now) }
    requires within { e < equation_count (node_at (table_of words.now) k) }
    requires fits { offset < 2 ^ 13 }
    requires room { piece.old.len < 64 }
    ensures { Adds piece.old piece.new (statements_words (call_reset offset (equation_at (node_at (table_of words.now) k) e))) }
{
    if let Drawn::Call(g, _, _) = equation(words, outline, k, e) {
        piece.push(CodeWord::Reset(g, offset));
    }
}
