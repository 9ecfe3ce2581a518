// From what a word says to its bits.
ghost use Rattle.std.specs.Prelude.{◌≡◌};
ghost use Rattle.words.specs.Format.{clock_bits, encoded, operand_word, restart_bits, spare_zero, ClockFits, OperandFits, RestartFits, WordFits};

use crate::decoding::decode;
use crate::kinds::{Clock, Operand, Word};

fn clock_bits(clock: Clock) -> u32
    requires { ClockFits clock }
    ensures { result ≡ clock_bits clock }
{
    match clock {
        Clock::Base => 0,
        Clock::On(sampler, sense) => 0x80 + (if sense { 0x40 } else { 0 }) + sampler as u32,
    }
}

fn restart_bits(restart: Option<u8>) -> u32
    requires { RestartFits restart }
    ensures { result ≡ restart_bits restart }
{
    match restart {
        Some(r) => 0x8000 + r as u32 * 0x100,
        None => 0,
    }
}

/// The word that spells an operand, whose numbers fit their fields.
pub fn encode_operand(operand: Operand) -> u32
    requires { OperandFits operand }
    ensures { result ≡ operand_word operand }
{
    match operand {
        Operand::Take(x) => 0x9000_0000 + x as u32,
        Operand::Literal(l) => 0xa000_0000 + l.ty as u32 * 0x100_0000 + l.payload,
    }
}

fn encode(word: Word) -> u32
    requires { WordFits word }
    ensures { result ≡ encoded word }
{
    match word {
        Word::Head(set) => set as u32,
        Word::Node(p) => 0x1000_0000
            + p.inputs as u32 * 0x1_0000
            + p.outputs as u32 * 0x100
            + p.locals as u32,
        Word::Variable(v) => 0x2000_0000 + v.ty as u32 * 0x100_0000 + clock_bits(v.clock),
        Word::Operate(op, x) => 0x3000_0000 + op as u32 * 0x10_0000 + x as u32,
        Word::Sample(x) => 0x4000_0000 + x as u32,
        Word::Merge(selector, x) => 0x5000_0000 + selector as u32 * 0x100 + x as u32,
        Word::Choose(selector, x) => 0x6000_0000 + selector as u32 * 0x100 + x as u32,
        Word::Delay(x) => 0x7000_0000 + x as u32,
        Word::Call(node, restart) => 0x8000_0000 + node as u32 * 0x10_0000 + restart_bits(restart),
        Word::Operand(a) => encode_operand(a),
        Word::Give(x) => 0xb000_0000 + x as u32,
        Word::End => 0xc000_0000,
    }
}

/// Whether every bit that a word's kind has no field for is zero: the word is the one that spells what it says.
pub fn spare_bits_zero(w: u32) -> bool
    ensures { result ≡ spare_zero w }
{
    match decode(w) {
        Some(word) => encode(word) == w,
        None => false,
    }
}
