// The pieces of a node's two blocks.
ghost use Rattle.std.specs.Prelude.{◌≡◌, ◌<◌, length};
ghost use Rattle.table.specs.Access.{Described};
ghost use Rattle.table.specs.Decoding.{table_of};
ghost use Rattle.table.specs.Syntax.{node_at};
ghost use Rattle.admission.specs.Planned.{Planned};
ghost use Rattle.pieces.specs.Holding.{Holds};
ghost use Rattle.blocks.specs.Numbered.{block_piece, piece_count};
ghost use Rattle.blocks.specs.Offsets.{OffsetsOf};

use admission::Plan;
use instructions::CodeWord;
use pieces::{Piece, push_call_reset, push_delay_reset, push_statements};
use reader::Outline;
use table::equation_count;

/// A block of a node: what resets an instance of it, or what steps it.
#[derive(Clone, Copy)]
pub enum Block {
    Resets,
    Steps,
}

/// How many pieces a block of node `k` has.
pub fn piece_count(words: &[u32], outline: &Outline, k: usize, block: Block) -> usize
    requires described { Described words.now outline.now }
    requires node { k < length (table_of words.now) }
    ensures { result ≡ piece_count (node_at (table_of words.now) k) block }
{
    let equations = equation_count(words, outline, k);
    match block {
        Block::Resets => equations + equations + 1,
        Block::Steps => equations + 1,
    }
}

/// Piece `j` of the reset block of node `k`: the delays, the calls, END.
fn reset_piece(words: &[u32], plan: &Plan, k: usize, offsets: &[u16; 64], j: usize) -> Piece
    requires planned { Planned words.now plan.now }
    requires node { k < length (table_of words.now) }
    requires offsets { OffsetsOf (table_of words.now) k offsets.now }
    ensures { Holds result (block_piece (table_of words.now) k Block.Resets j) }
{
    let equations = equation_count(words, &plan.outline, k);
    let mut piece = Piece::new();
    if j < equations {
        push_delay_reset(&mut piece, words, &plan.outline, k, j);
    } else if j - equations < equations {
        let e = j - equations;
        push_call_reset(&mut piece, words, &plan.outline, k, e, offsets[e]);
    } else {
        piece.push(CodeWord::End);
    }
    piece
}

/// Piece `j` of the step block of node `k`: the equations in their order, END.
fn step_piece(words: &[u32], plan: &Plan, k: usize, offsets: &[u16; 64], j: usize) -> Piece
    requires planned { Planned words.now plan.now }
    requires node { k < length (table_of words.now) }
    requires offsets { OffsetsOf (table_of words.now) k offsets.now }
    ensures { Holds result (block_piece (table_of words.now) k Block.Steps j) }
{
    let mut piece = Piece::new();
    if j < equation_count(words, &plan.outline, k) {
        let e = plan.orders[k].places[j] as usize;
        push_statements(&mut piece, words, &plan.outline, k, e, offsets[e]);
    } else {
        piece.push(CodeWord::End);
    }
    piece
}

/// Piece `j` of a block of node `k`.
pub fn block_piece(
    words: &[u32],
    plan: &Plan,
    k: usize,
    offsets: &[u16; 64],
    block: Block,
    j: usize,
) -> Piece
    requires planned { Planned words.now plan.now }
    requires node { k < length (table_of words.now) }
    requires offsets { OffsetsOf (table_of words.now) k offsets.now }
    ensures { Holds result (block_piece (table_of words.now) k block j) }
{
    match block {
        Block::Resets => reset_piece(words, plan, k, offsets, j),
        Block::Steps => step_piece(words, plan, k, offsets, j),
    }
}
