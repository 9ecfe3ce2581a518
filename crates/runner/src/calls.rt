// The calls of other nodes' blocks.
ghost use Rattle.std.specs.Prelude.{◌≡◌, ◌+◌, ◌<◌, true, length, slice_index};
ghost use Rattle.words.specs.Bits.{kind_of};
ghost use Rattle.execution.specs.Words.{reset_place, step_place};
ghost use Rattle.execution.specs.Sound.{nodes_in, Sound};
ghost use Rattle.runner.specs.From.{fine_from};
ghost use Rattle.runner.specs.Calls.{CallAt, StepAt};

use crate::fields::{distance, node, offset};

/// A block to run: its node, where it begins among the words, and where its segment begins among the caller's cells.
#[derive(Clone, Copy)]
pub struct Call {
    pub node: usize,
    pub start: usize,
    pub offset: usize,
}

/// Where node `k`'s reset block begins.
pub fn reset_place(words: &[u32], k: usize) -> usize
    requires sound { Sound words.now }
    requires node { k < nodes_in words.now }
    ensures { result ≡ reset_place words.now k }
{
    distance(words[1 + 3 * k])
}

/// Where node `k`'s step block begins.
pub fn step_place(words: &[u32], k: usize) -> usize
    requires sound { Sound words.now }
    requires node { k < nodes_in words.now }
    ensures { result ≡ step_place words.now k }
{
    distance(words[2 + 3 * k])
}

/// What the RESET at a place of node `k` runs.
pub fn reset_call(words: &[u32], k: usize, p: usize) -> Call
    requires sound { Sound words.now }
    requires node { k < nodes_in words.now }
    requires good { fine_from words.now k p ≡ true }
    requires reset { kind_of (slice_index words.now p) ≡ 7 }
    ensures call { CallAt words.now k p result }
    ensures start { result.start ≡ reset_place words.now result.node }
    ensures behind { p + 1 < length words.now }
{
    let w = words[p];
    let node = node(w);
    Call {
        node,
        start: reset_place(words, node),
        offset: offset(w),
    }
}

/// What the STEP at a place of node `k` runs.
pub fn step_call(words: &[u32], k: usize, p: usize) -> Call
    requires sound { Sound words.now }
    requires node { k < nodes_in words.now }
    requires good { fine_from words.now k p ≡ true }
    requires step { kind_of (slice_index words.now p) ≡ 8 }
    ensures call { CallAt words.now k p result }
    ensures start { result.start ≡ step_place words.now result.node }
    ensures behind { StepAt words.now k p result.node }
{
    let w = words[p];
    let node = node(w);
    Call {
        node,
        start: step_place(words, node),
        offset: offset(w),
    }
}
