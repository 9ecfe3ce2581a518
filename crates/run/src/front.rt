// What stands in front of code's blocks.
ghost use Rattle.std.specs.Prelude.{◌≡◌};
ghost use Rattle.execution.specs.Words.{need_at};
ghost use Rattle.execution.specs.Sound.{input_type, inputs_in, main_in, nodes_in, outputs_in, ports_word, set_in};

use table::word_at;
use words::{literal_in, ports_in};

/// The number of the operator set.
pub fn set_of(words: &[u32]) -> u8
    ensures { result ≡ set_in words.now }
{
    (word_at(words, 0) % 0x100) as u8
}

pub fn node_count(words: &[u32]) -> usize
    ensures { result ≡ nodes_in words.now }
{
    ((word_at(words, 0) >> 8) % 0x100) as usize
}

/// The last node.
pub fn main_node(words: &[u32]) -> usize
    ensures { result ≡ main_in words.now }
{
    node_count(words).saturating_sub(1)
}

/// How many cells the main node needs.
pub fn main_need(words: &[u32]) -> usize
    ensures { result ≡ need_at words.now (main_in words.now) }
{
    (word_at(words, 3 + 3 * main_node(words)) % 0x2000) as usize
}

fn ports_word(words: &[u32]) -> u32
    ensures { result ≡ ports_word words.now }
{
    word_at(words, 1 + 3 * node_count(words))
}

pub fn input_count(words: &[u32]) -> usize
    ensures { result ≡ inputs_in words.now }
{
    ports_in(ports_word(words)).inputs as usize
}

pub fn output_count(words: &[u32]) -> usize
    ensures { result ≡ outputs_in words.now }
{
    ports_in(ports_word(words)).outputs as usize
}

/// The type of an input, and 0 past the code's end.
pub fn input_type(words: &[u32], i: usize) -> u8
    ensures { result ≡ input_type words.now i }
{
    if i > words.len() {
        return 0;
    }
    literal_in(word_at(words, 2 + 3 * node_count(words) + i)).ty
}
