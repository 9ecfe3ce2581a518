// Operators.
use std::fmt;

/// The operators that the known sets share. An operator of another number has no name.
fn operator_name(op: u8) -> Option<&'static str> {
    let name = match op {
        0 => "copy",
        1 => "not",
        2 => "negate",
        128 => "add",
        129 => "subtract",
        130 => "multiply",
        131 => "divide",
        132 => "remainder",
        133 => "and",
        134 => "or",
        135 => "xor",
        136 => "equal",
        137 => "less",
        138 => "less-or-equal",
        _ => return None,
    };
    Some(name)
}

/// An operator by its name, or by its number.
#[derive(Drop)]
pub struct OperatorText(pub u8);

impl fmt::Display for OperatorText {
    fn fmt<W: fmt::Write>(&self, f: &mut fmt::Formatter<W>) -> fmt::Result {
        let op = self.0;
        match operator_name(op) {
            Some(name) => write!(f, "{name}"),
            None => write!(f, "operator {op}"),
        }
    }
}
