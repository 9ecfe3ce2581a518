// Where a node first offends against the rule of clocks.
ghost use Rattle.std.specs.Prelude.{◌≡◌, ◌<◌, length};
ghost use Rattle.table.specs.Access.{Described};
ghost use Rattle.table.specs.Decoding.{table_of};
ghost use Rattle.table.specs.Syntax.{equation_at, equation_count, node_at, variable_count};
ghost use Rattle.rules.specs.Clocks.{equation_clocked, variable_clocked};
ghost use Rattle.rules.specs.First.{first_bad};
ghost use Rattle.rules.specs.Offences.{clock_offence, equation_place, variable_place};

use crate::chains::variable_clocked;
use crate::equations::equation_clocked;
use reader::Outline;

fn first_unclocked_variable(words: &[u32], outline: &Outline, k: usize) -> Option<usize>
    requires { Described words.now outline.now }
    ensures { result ≡ first_bad (variable_clocked (node_at (table_of words.now) k)) (variable_count (node_at (table_of words.now) k)) }
{
    'variables: for x in 0..table::variable_count(words, outline, k) {
        if !variable_clocked(words, outline, k, x) {
            return Some(x);
        }
    }
    None
}

fn first_unclocked_equation(words: &[u32], outline: &Outline, k: usize) -> Option<usize>
    requires described { Described words.now outline.now }
    requires node { k < length (table_of words.now) }
    ensures { result ≡ first_bad (λ e. equation_clocked (node_at (table_of words.now) k) (equation_at (node_at (table_of words.now) k) e)) (equation_count (node_at (table_of words.now) k)) }
{
    'equations: for e in 0..table::equation_count(words, outline, k) {
        if !equation_clocked(words, outline, k, e) {
            return Some(e);
        }
    }
    None
}

/// Where the VARIABLE of a variable stands.
fn variable_place(words: &[u32], outline: &Outline, k: usize, x: usize) -> u16
    requires described { Described words.now outline.now }
    requires node { k < length (table_of words.now) }
    requires within { x < variable_count (node_at (table_of words.now) k) }
    ensures { result ≡ variable_place (table_of words.now) k x }
{
    (outline.starts[k] as usize + 1 + x) as u16
}

/// Where an equation's head stands.
fn equation_place(words: &[u32], outline: &Outline, k: usize, e: usize) -> u16
    requires described { Described words.now outline.now }
    requires node { k < length (table_of words.now) }
    requires within { e < equation_count (node_at (table_of words.now) k) }
    ensures { result ≡ equation_place (table_of words.now) k e }
{
    outline.heads[64 * k + e]
}

/// The place of the first VARIABLE of node `k` whose clock is wrong, else of the first head of an equation whose clocks are.
pub fn clock_offence(words: &[u32], outline: &Outline, k: usize) -> Option<u16>
    requires described { Described words.now outline.now }
    requires node { k < length (table_of words.now) }
    ensures { result ≡ clock_offence (table_of words.now) k }
{
    if let Some(x) = first_unclocked_variable(words, outline, k) {
        return Some(variable_place(words, outline, k, x));
    }
    match first_unclocked_equation(words, outline, k) {
        Some(e) => Some(equation_place(words, outline, k, e)),
        None => None,
    }
}
