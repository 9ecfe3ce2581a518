// What is wrong with words that are no table.
use crate::names::kind_name;
use console::Answer;
use notation::word_at;
use reader::{ReadFault, Site};
use std::fmt;
use words::kind;

/// The kind of a CALL.
const CALL: u8 = 8;

/// A word of the table, for a sentence that goes on.
#[derive(Drop)]
struct WordText<'a> {
    words: &'a [u32],
    site: Site,
}

impl fmt::Display for WordText<'_> {
    fn fmt<W: fmt::Write>(&self, f: &mut fmt::Formatter<W>) -> fmt::Result {
        let place = self.site.place;
        let word = word_at(self.words, place as usize);
        let name = kind_name(kind(word));
        write!(f, "The word at place {place}, {word:08X} ({name}),")
    }
}

fn write_length<W: fmt::Write>(words: &[u32], f: &mut fmt::Formatter<W>) -> fmt::Result {
    let count = words.len();
    if count == 0 {
        writeln!(f, "The table is empty.")
    } else {
        writeln!(f, "The table has {count} words, and the most is 16384.")
    }
}

fn write_kind<W: fmt::Write>(words: &[u32], site: Site, f: &mut fmt::Formatter<W>) -> fmt::Result {
    let place = site.place;
    if place as usize >= words.len() {
        writeln!(
            f,
            "The table ends early: at place {place}, behind its last word, another word is due."
        )
    } else {
        let word = WordText { words, site };
        writeln!(f, "{word} is of a kind that cannot stand there.")
    }
}

fn write_count<W: fmt::Write>(words: &[u32], site: Site, f: &mut fmt::Formatter<W>) -> fmt::Result {
    let word = WordText { words, site };
    writeln!(
        f,
        "{word} goes beyond a limit: a table has at most 32 nodes, and a node 1 to 16 inputs, 1 to 16 outputs, at most 64 variables and at most 64 equations."
    )
}

fn write_number<W: fmt::Write>(
    words: &[u32],
    site: Site,
    f: &mut fmt::Formatter<W>,
) -> fmt::Result {
    let word = WordText { words, site };
    if kind(word_at(words, site.place as usize)) == CALL {
        writeln!(
            f,
            "{word} calls a node that does not stand before its own, or is restarted by a variable that its node does not have."
        )
    } else {
        writeln!(f, "{word} names a variable that its node does not have.")
    }
}

fn write_sentence<W: fmt::Write>(
    words: &[u32],
    fault: ReadFault,
    f: &mut fmt::Formatter<W>,
) -> fmt::Result {
    match fault {
        ReadFault::Length => write_length(words, f),
        ReadFault::Kind(site) => write_kind(words, site, f),
        ReadFault::Spare(site) => {
            let word = WordText { words, site };
            writeln!(f, "{word} has a bit set that must be zero.")
        }
        ReadFault::Set(site) => {
            let word = WordText { words, site };
            writeln!(
                f,
                "{word} names an operator set that is not known: there are sets 1 and 2."
            )
        }
        ReadFault::Count(site) => write_count(words, site, f),
        ReadFault::Number(site) => write_number(words, site, f),
    }
}

/// The refusal as a script answers it, and a sentence that says what is wrong.
pub fn write_refusal<W: fmt::Write>(
    words: &[u32],
    fault: ReadFault,
    f: &mut fmt::Formatter<W>,
) -> fmt::Result {
    let answer = Answer::Refused(fault.report());
    writeln!(f, "{answer}")?;
    write_sentence(words, fault, f)
}
