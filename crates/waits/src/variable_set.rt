// Sets of a node's variables, of which there are at most 64.
ghost use Rattle.std.specs.Prelude.{◌≡◌, ℕ, ◌<◌, List, [], ◌∷◌, ◌++◌};
ghost use Rattle.std.specs.List.{AllByRecursion};
ghost use Rattle.schedule.specs.Reads.{meets as share};
ghost use Rattle.waits.specs.Members.{has, Holds};

/// A set of variables: bit `x` is set where it has variable `x`.
#[derive(Clone, Copy)]
pub struct VariableSet(u64);

impl VariableSet {
    /// The empty set.
    pub fn new() -> VariableSet
        ensures { Holds result [] }
    {
        VariableSet(0)
    }

    pub fn insert(&mut self, x: u8)
        requires { x < 64 }
        ensures { (l : List ℕ) → Holds self.old l → Holds self.new (x ∷ l) }
    {
        self.0 |= 1 << x;
    }

    pub fn union(self, other: VariableSet) -> VariableSet
        ensures { (l m : List ℕ) → Holds self l → Holds other m → Holds result (l ++ m) }
    {
        VariableSet(self.0 | other.0)
    }

    pub fn contains(self, x: u8) -> bool
        requires { x < 64 }
        ensures { result ≡ has self x }
    {
        (self.0 >> x) % 2 == 1
    }

    /// Whether a variable is in both sets.
    pub fn meets(self, other: VariableSet) -> bool
        ensures { (l m : List ℕ) → Holds self l → Holds other m → AllByRecursion (λ x. x < 64) l → result ≡ share l m }
    {
        self.0 & other.0 != 0
    }
}
