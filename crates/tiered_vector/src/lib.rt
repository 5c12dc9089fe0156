//! A vector in blocks: an insert or a removal moves the elements of one block alone.
//! Begin at `TieredVector`.
#![tactic(auto)]

mod blocks;
mod vector;

pub use vector::TieredVector;
