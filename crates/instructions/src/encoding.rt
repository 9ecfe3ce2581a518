// From what a word of code says to its bits.
ghost use Rattle.std.specs.Prelude.{◌≡◌};
ghost use Rattle.instructions.specs.Format.{code_word, CodeWordFits};

use crate::code_word::CodeWord;
use words::encode_operand;

/// The word that spells a word of code, whose numbers fit their fields.
pub fn encode(word: CodeWord) -> u32
    requires { CodeWordFits word }
    ensures { result ≡ code_word word }
{
    match word {
        CodeWord::Head(nodes, set) => nodes as u32 * 0x100 + set as u32,
        CodeWord::ResetAt(p) => 0x1000_0000 + p as u32,
        CodeWord::StepAt(p) => 0x2000_0000 + p as u32,
        CodeWord::Operate(op, x) => 0x3000_0000 + op as u32 * 0x10_0000 + x as u32,
        CodeWord::Unless(sense, x, distance) => 0x4000_0000
            + (if sense { 0x800_0000 } else { 0 })
            + x as u32 * 0x4000
            + distance as u32,
        CodeWord::Skip(distance) => 0x5000_0000 + distance as u32,
        CodeWord::Need(cells) => 0x6000_0000 + cells as u32,
        CodeWord::Reset(node, offset) => 0x7000_0000 + node as u32 * 0x10_0000 + offset as u32,
        CodeWord::Step(node, offset) => 0x8000_0000 + node as u32 * 0x10_0000 + offset as u32,
        CodeWord::Operand(a) => encode_operand(a),
        CodeWord::Give(x) => 0xb000_0000 + x as u32,
        CodeWord::End => 0xc000_0000,
        CodeWord::Ports(inputs, outputs) => {
            0xf000_0000 + inputs as u32 * 0x1_0000 + outputs as u32 * 0x100
        }
    }
}
