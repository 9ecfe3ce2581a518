// A piece of code: a few words, put together before they go to their place.
ghost use Rattle.std.specs.Prelude.{◌<◌, ◌≤◌, [], ◌∷◌};
ghost use Rattle.instructions.specs.Format.{CodeWordFits};
ghost use Rattle.pieces.specs.Holding.{Adds, Holds};

use instructions::{CodeWord, encode};

/// The first `len` words are those of the piece. What an equation comes to has 51 at most.
#[derive(Drop)]
pub struct Piece {
    pub words: [u32; 64],
    pub len: u8,
}

impl Piece {
    pub fn new() -> Piece
        ensures { Holds result [] }
    {
        Piece {
            words: [0; 64],
            len: 0,
        }
    }

    /// Adds a word behind the others.
    pub fn push(&mut self, word: CodeWord)
        requires fits { CodeWordFits word }
        requires room { self.old.len < 64 }
        ensures { Adds self.old self.new (word ∷ []) }
    {
        self.words[self.len as usize] = encode(word);
        self.len += 1;
    }
}
