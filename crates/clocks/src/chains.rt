// The clocks of variables, and the chains of samplers behind them.
ghost use Rattle.std.specs.Prelude.{◌≡◌, ◌+◌};
ghost use Rattle.table.specs.Access.{Described};
ghost use Rattle.table.specs.Decoding.{table_of};
ghost use Rattle.table.specs.Syntax.{node_at};
ghost use Rattle.rules.specs.Clocks.{clock_of, reaches as reaches_within, same_clock, variable_clocked};

use reader::Outline;
use words::Clock;

/// A chain that is longer does not reach the base.
const MOST_SAMPLERS: u8 = 8;

/// The clock of variable `x` of node `k`.
pub fn clock_of(words: &[u32], outline: &Outline, k: usize, x: usize) -> Clock
    requires { Described words.now outline.now }
    ensures { result ≡ clock_of (node_at (table_of words.now) k) x }
{
    table::variable(words, outline, k, x).clock
}

/// Whether two clocks are one: both the base, or one sampler with one sense.
pub fn same_clock(a: Clock, b: Clock) -> bool
    ensures { result ≡ same_clock a b }
{
    match (a, b) {
        (Clock::Base, Clock::Base) => true,
        (Clock::On(x, s), Clock::On(y, t)) => x == y && s == t,
        _ => false,
    }
}

/// Whether the chain of variable `x`, its sampler, that sampler's sampler and so on, reaches the base within `depth` samplers.
fn reaches(words: &[u32], outline: &Outline, k: usize, x: usize, depth: u8) -> bool
    requires { Described words.now outline.now }
    ensures { result ≡ reaches_within depth (node_at (table_of words.now) k) x }
{
    match clock_of(words, outline, k, x) {
        Clock::Base => true,
        // samplers may go round in a circle, so what ends the walk is the depth
        Clock::On(sampler, _) => depth > 0
            && reaches(words, outline, k, sampler as usize, depth - 1),
    }
}

/// How many inputs and outputs node `k` has: the variables below that number are these.
fn port_count(words: &[u32], outline: &Outline, k: usize) -> usize
    requires { Described words.now outline.now }
    ensures { result ≡ (node_at (table_of words.now) k).inputs + (node_at (table_of words.now) k).outputs }
{
    table::input_count(words, outline, k) + table::output_count(words, outline, k)
}

/// Whether variable `x` of node `k` has a chain that is short enough and, where it is an input or an output, is on the base.
pub fn variable_clocked(words: &[u32], outline: &Outline, k: usize, x: usize) -> bool
    requires { Described words.now outline.now }
    ensures { result ≡ variable_clocked (node_at (table_of words.now) k) x }
{
    let ports = port_count(words, outline, k);
    reaches(words, outline, k, x, MOST_SAMPLERS)
        && (x >= ports || same_clock(clock_of(words, outline, k, x), Clock::Base))
}
