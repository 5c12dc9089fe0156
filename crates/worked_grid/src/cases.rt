//! The cases, by what they are about. Nothing but the public calls of the crates is used.
mod blocks;
mod boxes;
mod clusters;
mod crossings;
mod lists;
mod near_points;
