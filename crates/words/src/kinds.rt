// What a word of a table says, by its kind.

/// When a variable is present: at each instant of its node, or where another variable is present with a sense.
#[derive(Clone, Copy, PartialEq, Eq, Debug)]
pub enum Clock {
    Base,
    On(u8, bool),
}

/// A variable of a node: the type of its values, and its clock.
#[derive(Clone, Copy, PartialEq, Eq, Debug)]
pub struct Variable {
    pub ty: u8,
    pub clock: Clock,
}

/// A value written into the table, as a type and 24 bits that the operator set gives a value.
#[derive(Clone, Copy, PartialEq, Eq, Debug)]
pub struct Literal {
    pub ty: u8,
    pub payload: u32,
}

/// How many inputs, outputs and locals a node has, in the order in which its variables are numbered.
#[derive(Clone, Copy, PartialEq, Eq, Debug)]
pub struct Ports {
    pub inputs: u8,
    pub outputs: u8,
    pub locals: u8,
}

/// What an equation computes with: a variable of its node, or a literal.
#[derive(Clone, Copy, PartialEq, Eq, Debug)]
pub enum Operand {
    Take(u8),
    Literal(Literal),
}

/// A word of a table. A head of an equation names the variable that it defines last.
#[derive(Clone, Copy, PartialEq, Eq, Debug)]
pub enum Word {
    /// The table's first word: the number of the operator set.
    Head(u8),
    Node(Ports),
    Variable(Variable),
    /// The operator, and the variable.
    Operate(u8, u8),
    Sample(u8),
    /// The selector, and the variable.
    Merge(u8, u8),
    /// The selector, and the variable.
    Choose(u8, u8),
    Delay(u8),
    /// The called node, and the variable that restarts it, if any does.
    Call(u8, Option<u8>),
    Operand(Operand),
    Give(u8),
    End,
}
