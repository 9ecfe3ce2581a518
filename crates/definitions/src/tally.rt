// How a node's equations define its variables.
ghost use Rattle.std.specs.Prelude.{◌+◌, ◌<◌, ◌≤◌, [], ◌∷◌, length};
ghost use Rattle.table.specs.Access.{Described, gives_at};
ghost use Rattle.table.specs.Decoding.{table_of};
ghost use Rattle.table.specs.Syntax.{equation_at, equation_count, node_at};
ghost use Rattle.definitions.specs.Tallied.{count_of, Adds, AddsDelay, AddsEquation, Room, Tallies};

use reader::Outline;
use table::{Drawn, equation, equation_count, give_at, input_count, output_count};

/// How often each variable of a node is defined, and whether a DELAY defines it.
#[derive(Drop)]
pub struct Tally {
    pub counts: [u16; 64],
    pub delays: [bool; 64],
}

impl Tally {
    fn new() -> Tally
        ensures { Tallies result [] }
    {
        Tally {
            counts: [0; 64],
            delays: [false; 64],
        }
    }

    fn count(&mut self, x: u8)
        requires small { x < 64 }
        requires room { count_of self.old x < 65535 }
        ensures { Adds self.old self.new (x ∷ []) }
    {
        self.counts[x as usize] += 1;
    }

    fn count_delay(&mut self, x: u8)
        requires small { x < 64 }
        requires room { count_of self.old x < 65535 }
        ensures { AddsDelay self.old self.new x }
    {
        self.count(x);
        self.delays[x as usize] = true;
    }

    fn count_gives(&mut self, words: &[u32], at: usize, n: usize)
        requires near { at ≤ 16400 }
        requires few { n ≤ 16 }
        requires room { Room self.old }
        ensures { Adds self.old self.new (gives_at words.now at n) }
    {
        'gives: for i in 0..n {
            self.count(give_at(words, at + i));
        }
    }

    /// Counts what a CALL of node `g` gives, whose first operand stands at a place.
    fn count_call(&mut self, words: &[u32], outline: &Outline, g: u8, at: usize)
        requires described { Described words.now outline.now }
        requires node { g < length (table_of words.now) }
        requires room { Room self.old }
        ensures { Adds self.old self.new (gives_at words.now (at + (node_at (table_of words.now) g).inputs) (node_at (table_of words.now) g).outputs) }
    {
        // Past its end a table reads as zeros, so nothing is lost by a place at the end in place of one behind it.
        let at = if at < words.len() { at } else { words.len() };
        let first = at + input_count(words, outline, g as usize);
        self.count_gives(words, first, output_count(words, outline, g as usize));
    }

    fn count_equation(&mut self, words: &[u32], outline: &Outline, k: usize, e: usize)
        requires described { Described words.now outline.now }
        requires node { k < length (table_of words.now) }
        requires within { e < equation_count (node_at (table_of words.now) k) }
        requires room { Room self.old }
        ensures { AddsEquation self.old self.new (equation_at (node_at (table_of words.now) k) e) }
    {
        match equation(words, outline, k, e) {
            Drawn::Operate(_, _, _, x)
            | Drawn::Sample(_, x)
            | Drawn::Merge(_, _, _, x)
            | Drawn::Choose(_, _, _, x) => self.count(x),
            Drawn::Delay(_, _, x) => self.count_delay(x),
            Drawn::Call(g, _, at) => self.count_call(words, outline, g, at),
        }
    }

    /// The tally of node `k`.
    pub fn of_node(words: &[u32], outline: &Outline, k: usize) -> Tally
        requires described { Described words.now outline.now }
        requires node { k < length (table_of words.now) }
        ensures { Tallies result (node_at (table_of words.now) k).equations }
    {
        let mut tally = Tally::new();
        'equations: for e in 0..equation_count(words, outline, k) {
            tally.count_equation(words, outline, k, e);
        }
        tally
    }
}
