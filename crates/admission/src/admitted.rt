// A table that was admitted.
ghost use Rattle.std.specs.Prelude.{◌≡◌};
ghost use Rattle.admission.specs.Planned.{Planned};

use crate::found::Plan;

/// The words of an admitted table, with the plan that admission found for them.
#[derive(Clone, Copy)]
pub struct Admitted<'w, 'p> {
    words: &'w [u32],
    plan: &'p Plan,
    ghost planned: { ∥ Planned words.now plan.now ∥₁ },
}

impl<'w, 'p> Admitted<'w, 'p> {
    /// Joins words and the plan that `admit` answered for them: of no others is it known that they belong together.
    pub fn of(words: &'w [u32], plan: &'p Plan) -> Admitted<'w, 'p>
        requires { Planned words.now plan.now }
        ensures words { result.words.now ≡ words.now }
        ensures plan { result.plan.now ≡ plan.now }
    {
        Admitted { words, plan }
    }

    pub fn words(&self) -> &'w [u32]
        ensures { result.now ≡ self.now.words.now }
    {
        self.words
    }

    /// The plan, which is that of the words.
    pub fn plan(&self) -> &'p Plan
        ensures value { result.now ≡ self.now.plan.now }
        ensures planned { Planned self.now.words.now result.now }
    {
        self.plan
    }
}
