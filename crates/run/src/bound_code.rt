// Code: words that are known to run untested.
ghost use Rattle.std.specs.Prelude.{◌≡◌};
ghost use Rattle.execution.specs.Sound.{Sound};

/// Code that can be run: words that are sound. Only that fact makes one.
#[derive(Clone, Copy)]
pub struct Code<'a> {
    words: &'a [u32],
    ghost sound: { ∥ Sound words.now ∥₁ },
}

impl<'a> Code<'a> {
    /// The code of words that are sound.
    pub fn of(words: &'a [u32]) -> Code<'a>
        requires { Sound words.now }
        ensures { result.words.now ≡ words.now }
    {
        Code { words }
    }

    /// The words, which can be run untested.
    pub fn words(&self) -> &'a [u32]
        ensures value { result.now ≡ self.now.words.now }
        ensures sound { Sound result.now }
    {
        self.words
    }
}
