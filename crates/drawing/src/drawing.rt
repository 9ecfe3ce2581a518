// The words of a table, with the plan of a table that was admitted.
ghost use Rattle.std.specs.Prelude.{◌≡◌, [], ◌++◌, is_some, IfSome, is_ok, None, MatchResult};
ghost use Rattle.std.specs.Option.{option_map};
ghost use Rattle.table.specs.Decoding.{table_of};
ghost use Rattle.admission.specs.Planned.{Planned};
ghost use Rattle.drawing.specs.Sets.{verdict_for};
ghost use Rattle.drawing.specs.Extents.{extent_unless};

use crate::set_choice::SetChoice;
use crate::verdict::{Extent, admit_for, size_of};
use admission::{Admitted, Fault, Plan};
use std::alloc::{AllocError, Global};

/// A table as it was entered, and its plan if these very words were admitted.
#[derive(Drop)]
pub struct Drawing {
    words: Vec<u32>,
    plan: Option<Plan>,
    ghost planned: { ∥ IfSome plan (Planned words.items) ∥₁ },
}

impl Drawing {
    /// No words, and nothing admitted.
    pub fn new(heap: Global) -> Drawing
        ensures words { result.words.items ≡ [] }
        ensures plan { result.plan ≡ None }
    {
        Drawing {
            words: Vec::new(heap),
            plan: None,
        }
    }

    pub fn words(&self) -> &[u32]
        ensures { result.now ≡ self.now.words.items }
    {
        self.words.as_slice()
    }

    /// The plan of the words, if they are admitted: with it `Admitted::of` takes them.
    pub fn plan(&self) -> Option<&Plan>
        ensures value { option_map (λ x. x.now) result ≡ self.now.plan }
        ensures planned { IfSome result (λ p. Planned self.now.words.items p.now) }
    {
        self.plan.as_ref()
    }

    /// Puts other words in the place of these. Nothing is admitted then.
    pub fn replace(&mut self, words: Vec<u32>)
        ensures words { self.new.words.items ≡ words.items }
        ensures plan { self.new.plan ≡ None }
    {
        self.words = words;
        self.plan = None;
    }

    /// Adds words behind these. Nothing is admitted then; without memory for them all stays.
    pub fn extend(&mut self, more: &[u32]) -> Result<(), AllocError>
        ensures words { MatchResult result (λ _. self.new.words.items ≡ self.old.words.items ++ more.now) (λ _. self.new.words.items ≡ self.old.words.items) }
        ensures plan { MatchResult result (λ _. self.new.plan ≡ None) (λ _. self.new.plan ≡ self.old.plan) }
    {
        self.words.extend_from_slice(more)?;
        self.plan = None;
        Ok(())
    }

    /// Admits the words for a set, and says how large the table is. Where they are refused nothing is admitted.
    pub fn admit(&mut self, set: SetChoice) -> Result<Extent, Fault>
        ensures value { result ≡ extent_unless (verdict_for set self.old.words.items) (table_of self.old.words.items) }
        ensures words { self.new.words.items ≡ self.old.words.items }
        ensures plan { is_some self.new.plan ≡ is_ok result }
    {
        match admit_for(set, self.words.as_slice()) {
            Ok(plan) => {
                let size = size_of(Admitted::of(self.words.as_slice(), &plan));
                self.plan = Some(plan);
                Ok(size)
            }
            Err(fault) => {
                self.plan = None;
                Err(fault)
            }
        }
    }
}
