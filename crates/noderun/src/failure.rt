// Why the program ends with status 1.
use std::{fmt, io};

#[derive(Drop)]
pub enum Failure<'a> {
    /// The command line says nothing that the program can do.
    Usage,
    /// A file, or standard input, cannot be opened or read.
    Read(&'a str, io::Error),
    /// Standard output cannot be written.
    Write(io::Error),
    /// A line of a file of words has something else.
    NotHex(&'a str, u64),
    /// No memory for the words of this file.
    Memory(&'a str),
}

impl<'a> From<io::Error> for Failure<'a> {
    fn from(e: io::Error) -> Failure<'a> {
        Failure::Write(e)
    }
}

impl fmt::Display for Failure<'_> {
    fn fmt<W: fmt::Write>(&self, f: &mut fmt::Formatter<W>) -> fmt::Result {
        match self {
            Failure::Usage => write!(
                f,
                "the command line is not understood; noderun --help says what is"
            ),
            Failure::Read(path, e) => write!(f, "cannot read {path}: {e}"),
            Failure::Write(e) => write!(f, "cannot write the answers: {e}"),
            Failure::NotHex(path, line) => write!(
                f,
                "{path}, line {line}: a word has to have 8 hex digits"
            ),
            Failure::Memory(path) => write!(f, "{path}: out of memory"),
        }
    }
}
