// Pieces, blocks and the front, written to their places in a buffer.
ghost use Rattle.std.specs.Prelude.{◌≡◌, ◌+◌, ◌<◌, ◌≤◌, length, slice_index};
ghost use Rattle.words.specs.Bits.{field};
ghost use Rattle.table.specs.Decoding.{table_of};
ghost use Rattle.admission.specs.Planned.{Planned};
ghost use Rattle.code.specs.Code.{blocks as blocks_of, front as front_of, front_length};
ghost use Rattle.pieces.specs.Holding.{contents};
ghost use Rattle.blocks.specs.Numbered.{block_words};
ghost use Rattle.blocks.specs.Offsets.{OffsetsOf};
ghost use Rattle.blocks.specs.Places.{PlacesOf};
ghost use Rattle.translation.specs.Writing.{Wrote, written};

use admission::Plan;
use blocks::{Block, Places, block_piece, piece_count, segment_offsets};
use front::front_piece;
use pieces::Piece;

/// Writes a piece to a place, and answers the place behind it.
fn write_piece(piece: &Piece, at: usize, buffer: &mut [u32]) -> usize
    requires whole { piece.now.len ≤ length piece.now.words }
    requires room { at + piece.now.len ≤ length buffer.old }
    ensures place { result ≡ at + piece.now.len }
    ensures stands { buffer.new ≡ written at (contents piece.now) buffer.old }
{
    let next = at + piece.len as usize;
    buffer[at..next].copy_from_slice(&piece.words[..piece.len as usize]);
    next
}

/// Writes a block of node `k` to a place, and answers the place behind it.
fn write_block(
    words: &[u32],
    plan: &Plan,
    k: usize,
    offsets: &[u16; 64],
    block: Block,
    at: usize,
    buffer: &mut [u32],
) -> usize
    requires planned { Planned words.now plan.now }
    requires node { k < length (table_of words.now) }
    requires offsets { OffsetsOf (table_of words.now) k offsets.now }
    requires room { at + length (block_words (table_of words.now) k block) ≤ length buffer.old }
    ensures { Wrote at (block_words (table_of words.now) k block) buffer.old result buffer.new }
{
    let mut next = at;
    'pieces: for j in 0..piece_count(words, &plan.outline, k, block) {
        let piece = block_piece(words, plan, k, offsets, block, j);
        next = write_piece(&piece, next, buffer);
    }
    next
}

/// Writes the blocks of all nodes to a place, and answers the place behind them.
pub fn write_blocks(words: &[u32], plan: &Plan, at: usize, buffer: &mut [u32]) -> usize
    requires planned { Planned words.now plan.now }
    requires room { at + length (blocks_of (table_of words.now) (length (table_of words.now))) ≤ length buffer.old }
    ensures { Wrote at (blocks_of (table_of words.now) (length (table_of words.now))) buffer.old result buffer.new }
{
    let mut next = at;
    'nodes: for k in 0..plan.outline.nodes as usize {
        let offsets = segment_offsets(words, plan, k);
        next = write_block(words, plan, k, &offsets, Block::Resets, next, buffer);
        next = write_block(words, plan, k, &offsets, Block::Steps, next, buffer);
    }
    next
}

/// Writes the front, and answers the place behind it.
pub fn write_front(words: &[u32], plan: &Plan, places: &Places, buffer: &mut [u32]) -> usize
    requires planned { Planned words.now plan.now }
    requires places { PlacesOf (table_of words.now) places.now }
    requires short { places.now.length ≤ 16384 }
    requires room { front_length (table_of words.now) ≤ length buffer.old }
    ensures { Wrote 0 (front_of (field (slice_index words.now 0) 0 8) (table_of words.now)) buffer.old result buffer.new }
{
    let mut next = 0usize;
    'pieces: for j in 0..plan.outline.nodes as usize + 2 {
        let piece = front_piece(words, plan, places, j);
        next = write_piece(&piece, next, buffer);
    }
    next
}
