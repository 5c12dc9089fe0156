//! Whether predicates hold of values. Begin at `holds`.
#![tactic(auto)]

mod answering;
mod enclosing;
mod laws;
mod members;
mod of_boxes;
mod of_few;
mod of_lines;
mod of_points;
mod of_regions;

pub use answering::{HoldsError, holds};
pub use laws::equal_is_same;
