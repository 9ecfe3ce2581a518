// The blocks of a node's code, piece by piece, and how long they are.
#![tactic(auto)]

mod block;
mod lengths;
mod segments;

pub use block::{Block, block_piece, piece_count};
pub use lengths::{Places, measure};
pub use segments::segment_offsets;
