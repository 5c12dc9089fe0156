//! Pieces with their keys.
use grid_base::Segment;

/// A piece and its key.
#[derive(Clone, Copy, Debug, PartialEq, Eq)]
pub struct KeyedPiece {
    pub piece: Segment,
    pub key: usize,
}
