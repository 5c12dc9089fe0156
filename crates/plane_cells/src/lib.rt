//! Classes of the plane by one sweep over the vertices of a border: a number for the class of each side,
//! whether sides are in the outer class, and the region of all that isn't. Begin at `side_classes`.
#![tactic(auto)]

mod classes;
mod columns;
mod fans;
mod interiors;
mod listing;
mod numbers;
mod outer;
mod splice;
mod status;
mod sweep;

pub use classes::{SideClasses, side_classes};
pub use interiors::interior;
pub use outer::outer_sides;
