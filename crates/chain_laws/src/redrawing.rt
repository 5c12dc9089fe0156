//! Paths that are to stand in the place of pieces.
use grid_base::{Chain, Segment};

/// A piece, and the path that is to stand in its place, from its lesser end to its greater.
#[derive(Drop)]
pub struct Redrawing {
    pub piece: Segment,
    pub path: Chain,
}

/// The one or two redrawings of a step, the second after the first.
#[derive(Drop)]
pub struct Redrawings {
    pub first: Redrawing,
    pub second: Option<Redrawing>,
}
