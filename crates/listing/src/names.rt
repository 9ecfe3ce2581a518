// The names that a listing has for numbers.
use console::SetChoice;
use std::fmt;
use words::Clock;

/// The types of a set. A type that the set does not have has no name.
fn type_name(set: SetChoice, ty: u8) -> Option<&'static str> {
    match (set, ty) {
        (_, 0) => Some("bool"),
        (SetChoice::Integers, 1) => Some("int"),
        (SetChoice::Doubles, 2) => Some("real"),
        _ => None,
    }
}

/// A type by its name, or by its number: seven columns.
#[derive(Drop)]
pub struct TypeColumn {
    pub set: SetChoice,
    pub ty: u8,
}

impl fmt::Display for TypeColumn {
    fn fmt<W: fmt::Write>(&self, f: &mut fmt::Formatter<W>) -> fmt::Result {
        let ty = self.ty;
        match type_name(self.set, ty) {
            Some(name) => write!(f, "{name:<7}"),
            None => write!(f, "type {ty:<2}"),
        }
    }
}

/// `base`, `on x3` or `on not x3`
#[derive(Drop)]
pub struct ClockText(pub Clock);

impl fmt::Display for ClockText {
    fn fmt<W: fmt::Write>(&self, f: &mut fmt::Formatter<W>) -> fmt::Result {
        match self.0 {
            Clock::Base => write!(f, "base"),
            Clock::On(sampler, true) => write!(f, "on x{sampler}"),
            Clock::On(sampler, false) => write!(f, "on not x{sampler}"),
        }
    }
}

/// `2 locals`, but `1 local`
#[derive(Drop)]
pub struct Counted {
    pub count: u8,
    pub what: &'static str,
}

impl fmt::Display for Counted {
    fn fmt<W: fmt::Write>(&self, f: &mut fmt::Formatter<W>) -> fmt::Result {
        let count = self.count;
        let what = self.what;
        let plural = if count == 1 { "" } else { "s" };
        write!(f, "{count} {what}{plural}")
    }
}

pub fn set_name(set: SetChoice) -> &'static str {
    match set {
        SetChoice::Integers => "integers",
        SetChoice::Doubles => "doubles",
    }
}

/// What a word is called by its kind.
pub fn kind_name(kind: u8) -> &'static str {
    match kind {
        0 => "HEAD",
        1 => "NODE",
        2 => "VARIABLE",
        3 => "OPERATE",
        4 => "SAMPLE",
        5 => "MERGE",
        6 => "CHOOSE",
        7 => "DELAY",
        8 => "CALL",
        9 => "TAKE",
        10 => "LITERAL",
        11 => "GIVE",
        12 => "END",
        _ => "no kind of a table",
    }
}
