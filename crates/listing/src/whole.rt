// The listing of a whole table.
use crate::names::{ClockText, Counted, TypeColumn, set_name};
use crate::refusal::write_refusal;
use console::{SetChoice, read_table};
use notation::{EquationText, Page};
use std::fmt;
use words::{Ports, clock_in};

/// The listing of the table that words spell, for the operator set that its HEAD names; or what is wrong with them.
#[derive(Drop)]
pub struct Listing<'a> {
    words: &'a [u32],
}

/// The set that the first word names. Where it names no known set, any set finds that out.
fn set_named(words: &[u32]) -> SetChoice {
    match words.first().copied() {
        Some(head) => SetChoice::of_number(head as u64).unwrap_or(SetChoice::Integers),
        None => SetChoice::Integers,
    }
}

/// Inputs come first, then outputs, then locals.
fn role_name(ports: Ports, variable: u16) -> &'static str {
    let inputs = ports.inputs as u16;
    if variable < inputs {
        "input"
    } else if variable < inputs + ports.outputs as u16 {
        "output"
    } else {
        "local"
    }
}

fn write_variable<W: fmt::Write>(
    page: Page<'_>,
    node: u8,
    variable: u16,
    f: &mut fmt::Formatter<W>,
) -> fmt::Result {
    let word = page.variable(node, variable);
    let role = role_name(page.ports(node), variable);
    let ty = TypeColumn {
        set: page.set,
        ty: ((word >> 24) % 0x10) as u8,
    };
    let clock = ClockText(clock_in(word));
    writeln!(f, "  x{variable:<3} {role:<6}  {ty}  {clock}")
}

fn write_header<W: fmt::Write>(
    page: Page<'_>,
    node: u8,
    main: bool,
    f: &mut fmt::Formatter<W>,
) -> fmt::Result {
    let ports = page.ports(node);
    let mark = if main { " (main)" } else { "" };
    let inputs = Counted {
        count: ports.inputs,
        what: "input",
    };
    let outputs = Counted {
        count: ports.outputs,
        what: "output",
    };
    let locals = Counted {
        count: ports.locals,
        what: "local",
    };
    let equations = Counted {
        count: page.equations(node),
        what: "equation",
    };
    writeln!(
        f,
        "node {node}{mark}: {inputs}, {outputs}, {locals}, {equations}"
    )
}

fn write_variables<W: fmt::Write>(
    page: Page<'_>,
    node: u8,
    f: &mut fmt::Formatter<W>,
) -> fmt::Result {
    let ports = page.ports(node);
    for variable in 0..ports.inputs as u16 + ports.outputs as u16 + ports.locals as u16 {
        write_variable(page, node, variable, f)?;
    }
    Ok(())
}

fn write_equations<W: fmt::Write>(
    page: Page<'_>,
    node: u8,
    f: &mut fmt::Formatter<W>,
) -> fmt::Result {
    for number in 0..page.equations(node) {
        let place = page.equation_place(node, number);
        let equation = EquationText { page, node, place };
        writeln!(f, "  equation {number:<2}  place {place:<5}  {equation}")?;
    }
    Ok(())
}

fn write_table<W: fmt::Write>(page: Page<'_>, nodes: u8, f: &mut fmt::Formatter<W>) -> fmt::Result {
    let words = page.words.len();
    let number = page.set.number();
    let set = set_name(page.set);
    let count = Counted {
        count: nodes,
        what: "node",
    };
    writeln!(
        f,
        "table of {words} words for set {number} ({set}), {count}"
    )?;
    for node in 0..nodes {
        writeln!(f, "")?;
        write_header(page, node, node + 1 == nodes, f)?;
        write_variables(page, node, f)?;
        write_equations(page, node, f)?;
    }
    Ok(())
}

impl<'a> Listing<'a> {
    pub fn of(words: &'a [u32]) -> Listing<'a> {
        Listing { words }
    }
}

impl fmt::Display for Listing<'_> {
    fn fmt<W: fmt::Write>(&self, f: &mut fmt::Formatter<W>) -> fmt::Result {
        let words = self.words;
        let set = set_named(words);
        match read_table(set, words) {
            Ok(outline) => write_table(
                Page {
                    set,
                    words,
                    outline: &outline,
                },
                outline.nodes,
                f,
            ),
            Err(fault) => write_refusal(words, fault, f),
        }
    }
}
