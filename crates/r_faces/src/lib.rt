//! The faces of a region: how many they are, and cycles in the form in which they are written.
//! Begin at `number_of_faces`, `turned` and `in_order`.
#![tactic(auto)]

mod bounds;
mod face;
mod listing;
mod number;
mod ordering;
mod parts;
mod rims;
mod turning;

pub use bounds::place_of;
pub use face::{Face, Holes};
pub use listing::faces;
pub use number::{distinct, number_of_faces};
pub use ordering::{faces_in_order, in_order};
pub use parts::places_in;
pub use rims::odd_sides;
pub use turning::turned;
