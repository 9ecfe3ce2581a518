// The words of an action.
ghost use Rattle.std.specs.Prelude.{◌+◌, ◌^◌, ◌<◌, ◌≤◌, map, length};
ghost use Rattle.words.specs.Format.{OperandFits};
ghost use Rattle.instructions.specs.declared.code_word.CodeWord.TheVariants.{Operand as With, Give};
ghost use Rattle.table.specs.Access.{Described, operands_at, gives_at};
ghost use Rattle.table.specs.Decoding.{table_of};
ghost use Rattle.code.specs.Statements.{assign, select, step};
ghost use Rattle.code.specs.Code.{action_words};
ghost use Rattle.pieces.specs.Fitting.{SecondFits, call_operands, call_gives};
ghost use Rattle.pieces.specs.Holding.{Adds};

use crate::piece::Piece;
use instructions::CodeWord;
use reader::Outline;
use table::{give_at, input_count, operand_at, output_count};
use waits::within;
use words::Operand;

/// Adds an operator on one operand, or on two, that defines variable `x`.
pub fn push_assign(piece: &mut Piece, op: u8, a: Operand, b: Option<Operand>, x: u8)
    requires fits { (x < 64) × ((OperandFits a) × (SecondFits b)) }
    requires room { piece.old.len ≤ 61 }
    ensures { Adds piece.old piece.new (action_words (assign op a b x)) }
{
    piece.push(CodeWord::Operate(op, x));
    piece.push(CodeWord::Operand(a));
    if let Some(second) = b {
        piece.push(CodeWord::Operand(second));
    }
}

/// Adds the choice, by variable `s`, of one of two operands for variable `x`.
pub fn push_select(piece: &mut Piece, s: u8, a: Operand, b: Operand, x: u8)
    requires fits { (s < 64) × ((x < 64) × ((OperandFits a) × (OperandFits b))) }
    requires room { piece.old.len ≤ 58 }
    ensures { Adds piece.old piece.new (action_words (select s a b x)) }
{
    piece.push(CodeWord::Unless(true, s, 3));
    piece.push(CodeWord::Operate(0, x));
    piece.push(CodeWord::Operand(a));
    piece.push(CodeWord::Skip(2));
    piece.push(CodeWord::Operate(0, x));
    piece.push(CodeWord::Operand(b));
}

fn push_operands(piece: &mut Piece, words: &[u32], at: usize, n: usize)
    requires near { at ≤ 16400 }
    requires few { n ≤ 16 }
    requires room { piece.old.len ≤ 48 }
    ensures { Adds piece.old piece.new (map With (operands_at words.now at n)) }
{
    'operands: for i in 0..n {
        piece.push(CodeWord::Operand(operand_at(words, at + i)));
    }
}

fn push_gives(piece: &mut Piece, words: &[u32], at: usize, n: usize)
    requires near { at ≤ 16416 }
    requires few { n ≤ 16 }
    requires room { piece.old.len ≤ 48 }
    ensures { Adds piece.old piece.new (map Give (gives_at words.now at n)) }
{
    'gives: for i in 0..n {
        piece.push(CodeWord::Give(give_at(words, at + i)));
    }
}

/// Adds a step of node `g` on the segment that begins at `offset`; the call's first operand stands at a place.
pub fn push_step(piece: &mut Piece, words: &[u32], outline: &Outline, g: u8, offset: u16, at: usize)
    requires described { Described words.now outline.now }
    requires node { g < length (table_of words.now) }
    requires fits { offset < 2 ^ 13 }
    requires room { piece.old.len ≤ 31 }
    ensures { Adds piece.old piece.new (action_words (step g offset (call_operands words.now g at) (call_gives words.now g at))) }
{
    let first = within(words, at);
    let inputs = input_count(words, outline, g as usize);
    let outputs = output_count(words, outline, g as usize);
    piece.push(CodeWord::Step(g, offset));
    push_operands(piece, words, first, inputs);
    push_gives(piece, words, first + inputs, outputs);
}
