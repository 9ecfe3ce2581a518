// The words of code: what each kind says, and the word that spells it.
#![tactic(auto)]

ghost use Rattle.instructions.specs.Format.{CodeWordsStand};

mod code_word;
mod encoding;

pub use code_word::CodeWord;
pub use encoding::encode;

/// What fits the fields of a word of code is read back from its word.
pub fn code_words_stand() -> u8
    ensures { CodeWordsStand }
{
    0
}
