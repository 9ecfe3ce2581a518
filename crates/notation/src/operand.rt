// Operands and literals.
use console::SetChoice;
use doubles::Doubles;
use integers::Integers;
use opset::{OperatorSet, Scalar, signed24};
use std::fmt;
use words::{Literal, Operand, Word, decode};

/// The value of a literal in a set. A payload is a whole number in either set, so that one kind of number shows both.
fn value_in(set: SetChoice, literal: Literal) -> Option<Scalar<i32>> {
    let Literal { ty, payload } = literal;
    match set {
        SetChoice::Integers => Integers::literal(ty, payload),
        SetChoice::Doubles => match Doubles::literal(ty, payload)? {
            Scalar::Bool(p) => Some(Scalar::Bool(p)),
            Scalar::Number(_) => Some(Scalar::Number(signed24(payload))),
        },
    }
}

fn write_literal<W: fmt::Write>(
    set: SetChoice,
    literal: Literal,
    f: &mut fmt::Formatter<W>,
) -> fmt::Result {
    match value_in(set, literal) {
        Some(Scalar::Bool(p)) => write!(f, "{p}"),
        Some(Scalar::Number(n)) => write!(f, "{n}"),
        None => {
            let Literal { ty, payload } = literal;
            write!(f, "type {ty} payload {payload}")
        }
    }
}

/// The operand that a word says: `x3`, or a literal's value.
#[derive(Drop)]
pub struct OperandText {
    pub set: SetChoice,
    pub word: u32,
}

impl fmt::Display for OperandText {
    fn fmt<W: fmt::Write>(&self, f: &mut fmt::Formatter<W>) -> fmt::Result {
        match decode(self.word) {
            Some(Word::Operand(Operand::Take(x))) => write!(f, "x{x}"),
            Some(Word::Operand(Operand::Literal(literal))) => write_literal(self.set, literal, f),
            // A table that reads has no other word here.
            _ => write!(f, "?"),
        }
    }
}

/// The operands that words say, with commas between them.
#[derive(Drop)]
pub struct OperandList<'a> {
    pub set: SetChoice,
    pub words: &'a [u32],
}

impl fmt::Display for OperandList<'_> {
    fn fmt<W: fmt::Write>(&self, f: &mut fmt::Formatter<W>) -> fmt::Result {
        let set = self.set;
        let mut comma = "";
        for word in self.words {
            let operand = OperandText { set, word: *word };
            write!(f, "{comma}{operand}")?;
            comma = ", ";
        }
        Ok(())
    }
}

/// The variables that take a call's outputs: one alone, or several in parentheses.
#[derive(Drop)]
pub struct GiveList<'a> {
    pub words: &'a [u32],
}

fn write_gives<W: fmt::Write>(words: &[u32], f: &mut fmt::Formatter<W>) -> fmt::Result {
    let mut comma = "";
    for word in words {
        let x = *word % 0x40;
        write!(f, "{comma}x{x}")?;
        comma = ", ";
    }
    Ok(())
}

impl fmt::Display for GiveList<'_> {
    fn fmt<W: fmt::Write>(&self, f: &mut fmt::Formatter<W>) -> fmt::Result {
        if let [word] = self.words {
            let x = *word % 0x40;
            return write!(f, "x{x}");
        }
        write!(f, "(")?;
        write_gives(self.words, f)?;
        write!(f, ")")
    }
}
