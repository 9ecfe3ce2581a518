// The tests that stand before a statement: one for each sampler of its clock.
ghost use Rattle.std.specs.Prelude.{◌+◌, ◌^◌, ◌<◌, ◌≤◌};
ghost use Rattle.words.specs.Format.{ClockFits};
ghost use Rattle.table.specs.Access.{Described};
ghost use Rattle.table.specs.Decoding.{table_of};
ghost use Rattle.table.specs.Syntax.{node_at};
ghost use Rattle.rules.specs.Clocks.{clock_of};
ghost use Rattle.code.specs.Statements.{tests as tests_of, tests_to};
ghost use Rattle.code.specs.Code.{tests_words};
ghost use Rattle.pieces.specs.Holding.{Adds};

use crate::piece::Piece;
use instructions::CodeWord;
use reader::Outline;
use table::variable;
use words::Clock;

/// The most samplers that a chain has.
const MOST_SAMPLERS: u8 = 8;

/// Adds the tests of a clock of node `k`, at most `depth` of them: those of the outer samplers first. Each passes over the tests
/// behind it and `distance` words more.
fn push_tests(
    piece: &mut Piece,
    words: &[u32],
    outline: &Outline,
    k: usize,
    clock: Clock,
    depth: u8,
    distance: u16,
)
    requires described { Described words.now outline.now }
    requires fits { ClockFits clock }
    requires room { piece.old.len + depth ≤ 64 }
    requires near { distance + depth < 2 ^ 14 }
    ensures { Adds piece.old piece.new (tests_words (tests_to depth (node_at (table_of words.now) k) clock) distance) }
{
    if depth == 0 {
        return;
    }
    if let Clock::On(sampler, sense) = clock {
        let outer = variable(words, outline, k, sampler as usize).clock;
        push_tests(piece, words, outline, k, outer, depth - 1, distance + 1);
        piece.push(CodeWord::Unless(sense, sampler, distance));
    }
}

/// Adds the tests of the clock of variable `x` of node `k`, before `distance` words.
pub fn push_clock(
    piece: &mut Piece,
    words: &[u32],
    outline: &Outline,
    k: usize,
    x: u8,
    distance: u16,
)
    requires described { Described words.now outline.now }
    requires room { piece.old.len ≤ 56 }
    requires near { distance ≤ 64 }
    ensures { Adds piece.old piece.new (tests_words (tests_of (node_at (table_of words.now) k) (clock_of (node_at (table_of words.now) k) x)) distance) }
{
    let clock = variable(words, outline, k, x as usize).clock;
    push_tests(piece, words, outline, k, clock, MOST_SAMPLERS, distance);
}
