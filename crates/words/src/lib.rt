// The words of a table: what each kind says, and which bits it leaves zero.
#![tactic(auto)]

ghost use Rattle.words.specs.Format.{WordsStand};

mod decoding;
mod encoding;
mod kinds;

pub use decoding::{
    clock_in, decode, kind, literal_in, operand_in, ports_in, restart_in, variable_in,
    variable_number,
};
pub use encoding::{encode_operand, spare_bits_zero};
pub use kinds::{Clock, Literal, Operand, Ports, Variable, Word};

/// The format is one to one: a word with its spare bits zero is read as what spells it, and what fits its fields is read back from its word.
pub fn words_stand() -> u8
    ensures { WordsStand }
{
    0
}
