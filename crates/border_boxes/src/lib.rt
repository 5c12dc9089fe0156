//! The boxes of borders, which tell at little cost what two regions can't have in common. Begin at `box_of`.
//! Nothing here takes memory.
#![tactic(auto)]

mod boxes;
mod laws;

pub use boxes::{BorderBox, are_apart, are_beside, box_of, has_point, lies_in};
pub use laws::{boxes_hold_places, boxes_part_places, places_are_points};
