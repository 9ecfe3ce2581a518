// Equations.
use crate::operand::GiveList;
use crate::operator::OperatorText;
use crate::page::{Page, part, word_at};
use std::fmt;
use words::{Clock, Word, decode};

/// The first operator that takes two operands.
const FIRST_BINARY: u8 = 128;

/// An equation of a node, by the place of its head.
#[derive(Drop)]
pub struct EquationText<'a> {
    pub page: Page<'a>,
    pub node: u8,
    pub place: u16,
}

/// `x5 = add(x2, 1)`
fn write_operate<W: fmt::Write>(
    page: Page<'_>,
    op: u8,
    x: u8,
    behind: &[u32],
    f: &mut fmt::Formatter<W>,
) -> fmt::Result {
    let operator = OperatorText(op);
    let operands = page.operands(behind, if op < FIRST_BINARY { 1 } else { 2 });
    write!(f, "x{x} = {operator}({operands})")
}

/// `x4 = x2 when x1`, or `x4 = x2 when not x1`, by the clock of the variable that is defined.
fn write_sample<W: fmt::Write>(
    page: Page<'_>,
    clock: Clock,
    x: u8,
    behind: &[u32],
    f: &mut fmt::Formatter<W>,
) -> fmt::Result {
    let operand = page.operand(behind, 0);
    match clock {
        Clock::On(sampler, true) => write!(f, "x{x} = {operand} when x{sampler}"),
        Clock::On(sampler, false) => write!(f, "x{x} = {operand} when not x{sampler}"),
        // Against the rules, but such a table reads.
        Clock::Base => write!(f, "x{x} = {operand} when base"),
    }
}

/// `x3 = merge x1 (x4) (x6)`
fn write_merge<W: fmt::Write>(
    page: Page<'_>,
    selector: u8,
    x: u8,
    behind: &[u32],
    f: &mut fmt::Formatter<W>,
) -> fmt::Result {
    let yes = page.operand(behind, 0);
    let no = page.operand(behind, 1);
    write!(f, "x{x} = merge x{selector} ({yes}) ({no})")
}

/// `x3 = if x1 then x2 else 7`
fn write_choose<W: fmt::Write>(
    page: Page<'_>,
    selector: u8,
    x: u8,
    behind: &[u32],
    f: &mut fmt::Formatter<W>,
) -> fmt::Result {
    let yes = page.operand(behind, 0);
    let no = page.operand(behind, 1);
    write!(f, "x{x} = if x{selector} then {yes} else {no}")
}

/// `x2 = 0 fby x3`
fn write_delay<W: fmt::Write>(
    page: Page<'_>,
    x: u8,
    behind: &[u32],
    f: &mut fmt::Formatter<W>,
) -> fmt::Result {
    let first = page.operand(behind, 0);
    let then = page.operand(behind, 1);
    write!(f, "x{x} = {first} fby {then}")
}

/// `(x1, x2) = node0(x0, 3) every x4`
fn write_call<W: fmt::Write>(
    page: Page<'_>,
    node: u8,
    restart: Option<u8>,
    behind: &[u32],
    f: &mut fmt::Formatter<W>,
) -> fmt::Result {
    let ports = page.ports(node);
    let operands = page.operands(behind, ports.inputs as usize);
    let gives = GiveList {
        words: part(behind, ports.inputs as usize, ports.outputs as usize),
    };
    match restart {
        Some(x) => write!(f, "{gives} = node{node}({operands}) every x{x}"),
        None => write!(f, "{gives} = node{node}({operands})"),
    }
}

impl fmt::Display for EquationText<'_> {
    fn fmt<W: fmt::Write>(&self, f: &mut fmt::Formatter<W>) -> fmt::Result {
        let page = self.page;
        let behind = page.behind(self.place);
        match decode(word_at(page.words, self.place as usize)) {
            Some(Word::Operate(op, x)) => write_operate(page, op, x, behind, f),
            Some(Word::Sample(x)) => write_sample(page, page.clock(self.node, x), x, behind, f),
            Some(Word::Merge(selector, x)) => write_merge(page, selector, x, behind, f),
            Some(Word::Choose(selector, x)) => write_choose(page, selector, x, behind, f),
            Some(Word::Delay(x)) => write_delay(page, x, behind, f),
            Some(Word::Call(called, restart)) => write_call(page, called, restart, behind, f),
            // A table that reads has no other word here.
            _ => write!(f, "?"),
        }
    }
}
