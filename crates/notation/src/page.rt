// A table that reads, with what its listing needs of it. Reading has shown that each place that is asked for is there; the answers for other places keep the functions total.
use crate::operand::{OperandList, OperandText};
use console::SetChoice;
use reader::Outline;
use words::{Clock, Ports, clock_in, ports_in};

#[derive(Clone, Copy)]
pub struct Page<'a> {
    pub set: SetChoice,
    pub words: &'a [u32],
    pub outline: &'a Outline,
}

/// The word at an index, or 0 behind the last one.
pub fn word_at(words: &[u32], i: usize) -> u32 {
    words.get(i).copied().unwrap_or(0)
}

/// The words from an index on, and at most so many.
pub fn part(words: &[u32], from: usize, count: usize) -> &[u32] {
    let from = from.min(words.len());
    let rest = &words[from..];
    let count = count.min(rest.len());
    &rest[0..count]
}

impl<'a> Page<'a> {
    /// Where a node's NODE stands.
    fn node_place(self, node: u8) -> u16 {
        self.outline.starts.get(node as usize).copied().unwrap_or(0)
    }

    pub fn ports(self, node: u8) -> Ports {
        ports_in(word_at(self.words, self.node_place(node) as usize))
    }

    pub fn equations(self, node: u8) -> u8 {
        self.outline
            .equations
            .get(node as usize)
            .copied()
            .unwrap_or(0)
    }

    /// Where the head of a node's equation stands.
    pub fn equation_place(self, node: u8, equation: u8) -> u16 {
        self.outline
            .heads
            .get(64 * node as usize + equation as usize)
            .copied()
            .unwrap_or(0)
    }

    /// The VARIABLE of a node's variable.
    pub fn variable(self, node: u8, variable: u16) -> u32 {
        word_at(
            self.words,
            self.node_place(node) as usize + 1 + variable as usize,
        )
    }

    pub fn clock(self, node: u8, variable: u8) -> Clock {
        clock_in(self.variable(node, variable as u16))
    }

    /// The words behind the one at a place.
    pub fn behind(self, place: u16) -> &'a [u32] {
        part(self.words, place as usize + 1, self.words.len())
    }

    pub fn operand(self, behind: &[u32], i: usize) -> OperandText {
        OperandText {
            set: self.set,
            word: word_at(behind, i),
        }
    }

    pub fn operands(self, behind: &'a [u32], count: usize) -> OperandList<'a> {
        OperandList {
            set: self.set,
            words: part(behind, 0, count),
        }
    }
}
