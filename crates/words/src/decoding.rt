// From a word's bits to what it says.
ghost use Rattle.std.specs.Prelude.{◌≡◌, IfSome};
ghost use Rattle.words.specs.Bits.{field, kind_of};
ghost use Rattle.words.specs.Format.{clock_in, decoded, literal_in, operand_in, ports_in, restart_in, variable_in, WordFits};

use crate::kinds::{Clock, Literal, Operand, Ports, Variable, Word};

/// A word's kind: its highest four bits.
pub fn kind(w: u32) -> u8
    ensures { result ≡ kind_of w }
{
    (w >> 28) as u8
}

/// The clock in a VARIABLE.
pub fn clock_in(w: u32) -> Clock
    ensures { result ≡ clock_in w }
{
    if (w >> 7) % 2 == 1 {
        Clock::On((w % 0x40) as u8, (w >> 6) % 2 == 1)
    } else {
        Clock::Base
    }
}

/// The counts in a NODE.
pub fn ports_in(w: u32) -> Ports
    ensures { result ≡ ports_in w }
{
    Ports {
        inputs: ((w >> 16) % 0x100) as u8,
        outputs: ((w >> 8) % 0x100) as u8,
        locals: (w % 0x100) as u8,
    }
}

/// The variable that restarts a CALL.
pub fn restart_in(w: u32) -> Option<u8>
    ensures { result ≡ restart_in w }
{
    if (w >> 15) % 2 == 1 {
        Some(((w >> 8) % 0x40) as u8)
    } else {
        None
    }
}

/// The operand in a LITERAL, or in a TAKE.
pub fn operand_in(w: u32) -> Operand
    ensures { result ≡ operand_in w }
{
    if kind(w) == 10 {
        Operand::Literal(literal_in(w))
    } else {
        Operand::Take(variable_number(w))
    }
}

/// The literal in a LITERAL.
pub fn literal_in(w: u32) -> Literal
    ensures { result ≡ literal_in w }
{
    Literal {
        ty: ((w >> 24) % 0x10) as u8,
        payload: w % 0x100_0000,
    }
}

/// The variable that an equation's head, a TAKE or a GIVE names.
pub fn variable_number(w: u32) -> u8
    ensures { result ≡ field w 0 6 }
{
    (w % 0x40) as u8
}

/// The variable in a VARIABLE: its type and its clock.
pub fn variable_in(w: u32) -> Variable
    ensures { result ≡ variable_in w }
{
    Variable {
        ty: ((w >> 24) % 0x10) as u8,
        clock: clock_in(w),
    }
}

/// What a word says by its kind and fields, whatever its spare bits are; none for the kinds that no table has.
pub fn decode(w: u32) -> Option<Word>
    ensures value { result ≡ decoded w }
    ensures fits { IfSome result WordFits }
{
    let low = variable_number(w);
    let middle = ((w >> 8) % 0x40) as u8;
    let high = ((w >> 20) % 0x100) as u8;
    let word = match w >> 28 {
        0 => Word::Head((w % 0x100) as u8),
        1 => Word::Node(ports_in(w)),
        2 => Word::Variable(variable_in(w)),
        3 => Word::Operate(high, low),
        4 => Word::Sample(low),
        5 => Word::Merge(middle, low),
        6 => Word::Choose(middle, low),
        7 => Word::Delay(low),
        8 => Word::Call(high, restart_in(w)),
        9 => Word::Operand(Operand::Take(low)),
        10 => Word::Operand(Operand::Literal(literal_in(w))),
        11 => Word::Give(low),
        12 => Word::End,
        _ => return None,
    };
    Some(word)
}
