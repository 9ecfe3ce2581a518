// What a script works on.
ghost use Rattle.std.specs.Prelude.{◌≡◌, []};
ghost use Rattle.console.specs.Script.{admission, desk_of, KeepsUnlessAnswered, Performed, reading_for};
ghost use Rattle.console.specs.declared.set_choice.SetChoice.TheVariants.{Integers as FirstSet};

use crate::answer::Answer;
use crate::call::{Call, Unread};
use crate::set_choice::SetChoice;
use doubles::Doubles;
use integers::Integers;
use reader::{Outline, ReadFault};
use std::alloc::{AllocError, Global};

/// The state of a script: the chosen operator set, and the table's words.
#[derive(Drop)]
pub struct Console {
    heap: Global,
    set: SetChoice,
    table: Vec<u32>,
}

/// The outline of a table for a chosen set, or the first fault.
pub fn read_table(set: SetChoice, words: &[u32]) -> Result<Outline, ReadFault>
    ensures { result ≡ reading_for set words.now }
{
    match set {
        SetChoice::Integers => table::read::<Integers>(words),
        SetChoice::Doubles => table::read::<Doubles>(words),
    }
}

impl Console {
    /// Where a script starts: set 1, and an empty table.
    pub fn new(heap: Global) -> Console
        ensures { desk_of result ≡ record { set = FirstSet; words = [] } }
    {
        Console {
            heap,
            set: SetChoice::Integers,
            table: Vec::new(heap),
        }
    }

    fn admit(&self) -> Answer
        ensures { result ≡ admission (reading_for (desk_of self.now).set (desk_of self.now).words) }
    {
        match read_table(self.set, self.table.as_slice()) {
            Ok(outline) => Answer::Read(outline.nodes),
            Err(fault) => Answer::Refused(fault.report()),
        }
    }

    fn perform(&mut self, call: Call) -> Result<Answer, AllocError>
        ensures { Performed call (desk_of self.old) result (desk_of self.new) }
    {
        match call {
            Call::Set(set) => {
                self.set = set;
                Ok(Answer::Set(set))
            }
            Call::Table(words) => {
                self.table = words;
                Ok(Answer::Table(self.table.len()))
            }
            Call::More(words) => {
                self.table.extend_from_slice(words.as_slice())?;
                Ok(Answer::Table(self.table.len()))
            }
            Call::Admit => Ok(self.admit()),
        }
    }

    /// Carries out a line of the script, and gives its answer: none for a blank line or a comment.
    pub fn answer(&mut self, line: &[u8]) -> Result<Option<Answer>, AllocError>
        ensures { KeepsUnlessAnswered (desk_of self.old) result (desk_of self.new) }
    {
        match Call::parse(self.heap, line) {
            Ok(None) => Ok(None),
            Ok(Some(call)) => Ok(Some(self.perform(call)?)),
            Err(Unread::NotUnderstood) => Ok(Some(Answer::NotUnderstood)),
            Err(Unread::Memory) => Err(AllocError),
        }
    }
}
