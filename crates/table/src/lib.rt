// Tables: what they are made of, and reading one from its words.
#![tactic(auto)]

ghost use Rattle.std.specs.Prelude.{◌≡◌};
ghost use Rattle.reader.specs.Whole.{scan_of};
ghost use Rattle.table.specs.Reading.{Reads};

mod access;
mod drawn;

pub use access::{
    equation, equation_count, give_at, input_count, operand_at, output_count, variable,
    variable_count, word_at,
};
pub use drawn::Drawn;
use opset::OperatorSet;
use reader::{Outline, ReadFault};

/// The outline of the table that the words spell for the operator set, or the first fault of words that spell none.
pub fn read<S: OperatorSet>(words: &[u32]) -> Result<Outline, ReadFault>
    ensures value { result ≡ scan_of S.OperatorSet.numbered words.now }
    ensures spelled { Reads S.OperatorSet.numbered words.now result }
{
    reader::scan_words(S::set_number(), words)
}
