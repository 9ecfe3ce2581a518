// How long the blocks are, and where they stand in the code.
ghost use Rattle.std.specs.Prelude.{◌≡◌, ◌<◌, ◌≤◌, length};
ghost use Rattle.table.specs.Access.{Described};
ghost use Rattle.table.specs.Decoding.{table_of};
ghost use Rattle.admission.specs.Planned.{Planned};
ghost use Rattle.code.specs.Code.{front_length};
ghost use Rattle.blocks.specs.Numbered.{block_words};
ghost use Rattle.blocks.specs.Offsets.{OffsetsOf};
ghost use Rattle.blocks.specs.Places.{PlacesOf};

use crate::block::{Block, block_piece, piece_count};
use crate::segments::segment_offsets;
use admission::Plan;
use reader::Outline;
use table::input_count;

/// Where each node's blocks begin, and the length of the whole code.
#[derive(Clone, Copy)]
pub struct Places {
    pub resets: [usize; 32],
    pub steps: [usize; 32],
    pub length: usize,
}

/// How many words a block of node `k` has.
fn block_length(words: &[u32], plan: &Plan, k: usize, offsets: &[u16; 64], block: Block) -> usize
    requires planned { Planned words.now plan.now }
    requires node { k < length (table_of words.now) }
    requires offsets { OffsetsOf (table_of words.now) k offsets.now }
    ensures value { result ≡ length (block_words (table_of words.now) k block) }
    ensures small { result ≤ 40000 }
{
    let mut found = 0usize;
    'pieces: for j in 0..piece_count(words, &plan.outline, k, block) {
        let piece = block_piece(words, plan, k, offsets, block, j);
        found += piece.len as usize;
    }
    found
}

/// How many words stand in front of the blocks.
fn front_length(words: &[u32], outline: &Outline) -> usize
    requires { Described words.now outline.now }
    ensures value { result ≡ front_length (table_of words.now) }
    ensures small { result ≤ 200 }
{
    let nodes = outline.nodes as usize;
    2 + 3 * nodes + input_count(words, outline, nodes - 1)
}

/// Where the blocks of a table's code begin, and how long the code is.
pub fn measure(words: &[u32], plan: &Plan) -> Places
    requires { Planned words.now plan.now }
    ensures { PlacesOf (table_of words.now) result }
{
    let mut resets = [0usize; 32];
    let mut steps = [0usize; 32];
    let mut next = front_length(words, &plan.outline);
    'nodes: for k in 0..plan.outline.nodes as usize {
        let offsets = segment_offsets(words, plan, k);
        resets[k] = next;
        next += block_length(words, plan, k, &offsets, Block::Resets);
        steps[k] = next;
        next += block_length(words, plan, k, &offsets, Block::Steps);
    }
    Places {
        resets,
        steps,
        length: next,
    }
}
