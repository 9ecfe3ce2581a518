// The front of a table's code, piece by piece, and whether the code is short enough for its buffer.
#![tactic(auto)]

mod entries;
mod short;

pub use entries::front_piece;
pub use short::places_within;
