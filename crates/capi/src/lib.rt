// The table reader for C and Rust.
#![tactic(auto)]

ghost use Rattle.std.specs.Prelude.{◌≡◌};
ghost use Rattle.capi.specs.Answers.{answer_to, written};

use crate::answer::{Answer, read_for};
use doubles::Doubles;
use integers::Integers;

mod answer;

/// The answer for a set number that no set has.
const UNKNOWN: Answer = Answer {
    number: 255,
    nodes: 0,
    layer: 0,
    node: 0,
    place: 0,
};

fn read_by_number(set: u8, words: &[u32]) -> Answer
    ensures { result ≡ answer_to set words.now }
{
    match set {
        1 => read_for::<Integers>(words),
        2 => read_for::<Doubles>(words),
        _ => UNKNOWN,
    }
}

fn write_answer(answer: Answer, report: &mut [u32])
    ensures { report.new ≡ written report.old answer }
{
    if report.len() >= 4 {
        report[0] = answer.nodes;
        report[1] = answer.layer;
        report[2] = answer.node;
        report[3] = answer.place;
    }
}

/// Reads a table of words for a set: 1 has 32-bit integers, 2 has doubles.
///
/// Answers 0 if the words are a table, the fault's number, 1 to 6, if they are none, and 255 for any other set.
/// The front of the report then has the number of nodes (0 with a fault), the layer that found the fault (0 for none,
/// 1 reading, 2 rules, 3 order, 4 size), its node and its place. A report of fewer than four words is left as it was.
///
/// In C: `uint32_t noderun_read(uint8_t set, const uint32_t *words, size_t length, uint32_t *report, size_t report_length)`.
#[unsafe(no_mangle)]
pub extern "C" fn noderun_read(set: u8, words: &[u32], report: &mut [u32]) -> u32
    ensures number { result ≡ (answer_to set words.now).number }
    ensures rest { report.new ≡ written report.old (answer_to set words.now) }
{
    let answer = read_by_number(set, words);
    write_answer(answer, report);
    answer.number
}
