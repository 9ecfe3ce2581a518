// The answers of a script.
use crate::set_choice::SetChoice;
use reader::{Layer, Report};
use std::fmt;

/// The answer to a line that is neither blank nor a comment.
#[derive(Clone, Copy)]
pub enum Answer {
    Set(SetChoice),
    /// How many words the table has.
    Table(usize),
    /// How many nodes the table has, which reads.
    Read(u8),
    Refused(Report),
    NotUnderstood,
}

fn layer_name(layer: Layer) -> &'static str {
    match layer {
        Layer::Reading => "reading",
        Layer::Rules => "rules",
        Layer::Order => "order",
        Layer::Size => "size",
    }
}

fn write_refusal<W: fmt::Write>(report: Report, f: &mut fmt::Formatter<W>) -> fmt::Result {
    let Report {
        number,
        layer,
        node,
        place,
    } = report;
    let layer = layer_name(layer);
    write!(f, "refused: {number} {layer} node {node} place {place}")
}

impl fmt::Display for Answer {
    fn fmt<W: fmt::Write>(&self, f: &mut fmt::Formatter<W>) -> fmt::Result {
        match *self {
            Answer::Set(set) => {
                let number = set.number();
                write!(f, "set: {number}")
            }
            Answer::Table(words) => write!(f, "table: {words} words"),
            Answer::Read(nodes) => write!(f, "read: {nodes} nodes"),
            Answer::Refused(report) => write_refusal(report, f),
            Answer::NotUnderstood => write!(f, "not understood"),
        }
    }
}
