//! What a value is made of at present: its points, or the pieces that its parts lead by.
//! Begin at `geometry_of`.
#![tactic(auto)]

mod borders;
mod geometry;
mod links;

pub use geometry::geometry_of;
