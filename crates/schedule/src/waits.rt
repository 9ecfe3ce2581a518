// Which equations come before which.
ghost use Rattle.std.specs.Prelude.{◌≡◌, ℕ, ◌<◌, false, ◌&&◌, ◌||◌, ◌==◌};
ghost use Rattle.schedule.specs.Waits.{comes_before};

/// The most equations that a node has.
pub(crate) const MOST_EQUATIONS: usize = 64;

/// For up to 64 equations, which come before which: mark `64 * i + j` says that equation `i` comes before equation `j`.
#[derive(Drop)]
pub struct Waits {
    pub marks: [bool; 4096],
}

impl Waits {
    /// No equation waits for another.
    pub fn none() -> Waits
        ensures { (a b : ℕ) → comes_before result.marks a b ≡ false }
    {
        Waits {
            marks: [false; 4096],
        }
    }

    /// Has equation `i` come before equation `j`. There is no equation past the 64th, so for one nothing is marked.
    pub fn set(&mut self, i: usize, j: usize)
        ensures { (a b : ℕ) → a < 64 → b < 64 → comes_before self.new.marks a b ≡ ((a == i && b == j) || comes_before self.old.marks a b) }
    {
        if i < MOST_EQUATIONS && j < MOST_EQUATIONS {
            self.marks[64 * i + j] = true;
        }
    }

    pub(crate) fn has(&self, i: usize, j: usize) -> bool
        requires { (i < 64) × (j < 64) }
        ensures { result ≡ comes_before self.now.marks i j }
    {
        self.marks[64 * i + j]
    }
}
