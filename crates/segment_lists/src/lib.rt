//! Short lists of segments: made of tables of numbers, put in order, and whether they are those of a realm.
//! Begin at `are_noded`.
#![tactic(auto)]

mod grid;
mod listing;
mod noded;

pub use grid::each_is_on_grid;
pub use listing::{ascending_segments, segment_with, segments_with};
pub use noded::are_noded;
