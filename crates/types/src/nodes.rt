// Where a node first breaks the rule of types: its variables first, then its equations.
ghost use Rattle.std.specs.Prelude.{◌≡◌, ◌^◌, ◌<◌, length, take};
ghost use Rattle.std.specs.Option.{option_map};
ghost use Rattle.rules.specs.First.{first_bad};
ghost use Rattle.rules.specs.Offences.{equation_place, type_offence, variable_place};
ghost use Rattle.rules.specs.Types.{equation_typed, sampler_boolean, variable_typed};
ghost use Rattle.table.specs.Access.{Described};
ghost use Rattle.table.specs.Decoding.{table_of};
ghost use Rattle.table.specs.Syntax.{equation_at, equation_count, node_at, variable_count};

use crate::equations::equation_typed;
use crate::operands::is_boolean;
use opset::OperatorSet;
use reader::Outline;
use table::{equation_count, variable, variable_count};
use words::Clock;

/// Only a boolean can say when a variable is present. The operator set is there for the definition that the contract cites.
fn sampler_boolean<S: OperatorSet>(words: &[u32], outline: &Outline, k: usize, clock: Clock) -> bool
    requires { Described words.now outline.now }
    ensures { result ≡ sampler_boolean S.OperatorSet.meaning (node_at (table_of words.now) k) clock }
{
    match clock {
        Clock::Base => true,
        Clock::On(sampler, _) => is_boolean(words, outline, k, sampler as usize),
    }
}

fn variable_typed<S: OperatorSet>(words: &[u32], outline: &Outline, k: usize, x: usize) -> bool
    requires { Described words.now outline.now }
    ensures { result ≡ variable_typed S.OperatorSet.meaning (node_at (table_of words.now) k) x }
{
    let v = variable(words, outline, k, x);
    S::has_type(v.ty) && sampler_boolean::<S>(words, outline, k, v.clock)
}

/// The place of VARIABLE `x` of node `k`, behind the NODE.
fn variable_place(words: &[u32], outline: &Outline, k: usize, x: usize) -> u16
    requires described { Described words.now outline.now }
    requires node { k < length (table_of words.now) }
    requires place { variable_place (table_of words.now) k x < 2 ^ 16 }
    ensures { result ≡ variable_place (table_of words.now) k x }
{
    outline.starts[k] + 1 + x as u16
}

/// The place of the first VARIABLE of node `k` that has no type of the set, or a sampler that is not boolean.
fn first_untyped_variable<S: OperatorSet>(words: &[u32], outline: &Outline, k: usize) -> Option<u16>
    requires described { Described words.now outline.now }
    requires node { k < length (table_of words.now) }
    ensures { result ≡ option_map (variable_place (table_of words.now) k) (first_bad (variable_typed S.OperatorSet.meaning (node_at (table_of words.now) k)) (variable_count (node_at (table_of words.now) k))) }
{
    'variables: for x in 0..variable_count(words, outline, k) {
        if !variable_typed::<S>(words, outline, k, x) {
            return Some(variable_place(words, outline, k, x));
        }
    }
    None
}

/// The place of the first equation's head of node `k` whose types are wrong.
fn first_untyped_equation<S: OperatorSet>(words: &[u32], outline: &Outline, k: usize) -> Option<u16>
    requires described { Described words.now outline.now }
    requires node { k < length (table_of words.now) }
    ensures { result ≡ option_map (equation_place (table_of words.now) k) (first_bad (λ e. equation_typed S.OperatorSet.meaning (take k (table_of words.now)) (node_at (table_of words.now) k) (equation_at (node_at (table_of words.now) k) e)) (equation_count (node_at (table_of words.now) k))) }
{
    'equations: for e in 0..equation_count(words, outline, k) {
        if !equation_typed::<S>(words, outline, k, e) {
            return Some(outline.heads[64 * k + e]);
        }
    }
    None
}

/// The place of the first word of node `k` that breaks the rule of types: a VARIABLE, else the head of an equation.
pub fn type_offence<S: OperatorSet>(words: &[u32], outline: &Outline, k: usize) -> Option<u16>
    requires described { Described words.now outline.now }
    requires node { k < length (table_of words.now) }
    ensures { result ≡ type_offence S.OperatorSet.meaning (table_of words.now) k }
{
    match first_untyped_variable::<S>(words, outline, k) {
        Some(place) => Some(place),
        None => first_untyped_equation::<S>(words, outline, k),
    }
}
