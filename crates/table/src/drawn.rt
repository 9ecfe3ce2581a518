// An equation as it stands in a table's words.
use words::{Literal, Operand};

/// An equation, with the variable that it defines last.
#[derive(Clone, Copy)]
pub enum Drawn {
    /// An operator on one operand or two.
    Operate(u8, Operand, Option<Operand>, u8),
    Sample(Operand, u8),
    /// The selector, what is taken where it is true, and what where it is false.
    Merge(u8, Operand, Operand, u8),
    Choose(u8, Operand, Operand, u8),
    Delay(Literal, Operand, u8),
    /// The called node, the variable that restarts it, and the place of the first operand, behind which the others and the gives stand.
    Call(u8, Option<u8>, usize),
}
