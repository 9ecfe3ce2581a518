// The first variable of a node that offends against the rule of definitions.
ghost use Rattle.std.specs.Prelude.{◌≡◌, ◌+◌, ◌<◌, ◌≤◌, length, IfSome};
ghost use Rattle.table.specs.Access.{Described};
ghost use Rattle.table.specs.Decoding.{table_of};
ghost use Rattle.rules.specs.First.{first_bad};
ghost use Rattle.rules.specs.Offences.{definition_offence};
ghost use Rattle.definitions.specs.Tallied.{keeps};

use crate::tally::Tally;
use reader::Outline;
use table::{input_count, output_count, variable_count};

/// Whether the tally has variable `x` defined as the rule asks, of a node with so many inputs and outputs.
fn is_kept(tally: &Tally, inputs: usize, outputs: usize, x: usize) -> bool
    requires small { x < 64 }
    requires ports { (inputs ≤ 16) × (outputs ≤ 16) }
    ensures { result ≡ keeps tally.now inputs outputs x }
{
    let n = tally.counts[x];
    if x < inputs {
        n == 0
    } else {
        n == 1 && (x >= inputs + outputs || !tally.delays[x])
    }
}

/// The lowest of a node's variables that is not defined as the rule asks.
fn first_offender(tally: &Tally, inputs: usize, outputs: usize, variables: usize) -> Option<usize>
    requires few { variables ≤ 64 }
    requires ports { (inputs ≤ 16) × (outputs ≤ 16) }
    ensures value { result ≡ first_bad (keeps tally.now inputs outputs) variables }
    ensures below { IfSome result (λ x. x < variables) }
{
    'variables: for x in 0..variables {
        if !is_kept(tally, inputs, outputs, x) {
            return Some(x);
        }
    }
    None
}

/// The place of variable `x` of a node that starts at a place.
fn variable_place(start: u16, x: usize) -> u16
    requires { start + 1 + x < 65536 }
    ensures { result ≡ start + 1 + x }
{
    start + 1 + x as u16
}

/// The place of the first VARIABLE of node `k` that is an input and defined, or no input and not defined once, or an output
/// that a DELAY defines.
pub fn definition_offence(words: &[u32], outline: &Outline, k: usize) -> Option<u16>
    requires described { Described words.now outline.now }
    requires node { k < length (table_of words.now) }
    ensures { result ≡ definition_offence (table_of words.now) k }
{
    let tally = Tally::of_node(words, outline, k);
    let inputs = input_count(words, outline, k);
    let outputs = output_count(words, outline, k);
    match first_offender(&tally, inputs, outputs, variable_count(words, outline, k)) {
        Some(x) => Some(variable_place(outline.starts[k], x)),
        None => None,
    }
}
