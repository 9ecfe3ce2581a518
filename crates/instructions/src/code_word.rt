// What a word of code says, by its kind.
use words::Operand;

/// A word of code. Blocks are made of the words from OPERATE to END; the others stand in front of them.
#[derive(Clone, Copy)]
pub enum CodeWord {
    /// The code's first word: how many nodes, and the number of the operator set.
    Head(u8, u8),
    /// Where a node's reset block begins.
    ResetAt(u16),
    /// Where a node's step block begins.
    StepAt(u16),
    /// An operator, and the variable that takes its result. Its operands stand behind it.
    Operate(u8, u8),
    /// Passes over a number of words unless a variable has a sense.
    Unless(bool, u8, u16),
    /// Passes over a number of words.
    Skip(u16),
    /// How many cells an instance of a node needs.
    Need(u16),
    /// Runs the reset block of a node on the segment that begins so many cells into its own.
    Reset(u8, u16),
    /// Runs the step block of a node likewise. Its operands stand behind it, and then the variables that take its outputs.
    Step(u8, u16),
    Operand(Operand),
    Give(u8),
    End,
    /// How many inputs and outputs the main node has.
    Ports(u8, u8),
}
