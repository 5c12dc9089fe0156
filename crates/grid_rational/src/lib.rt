//! Where two segments cross, and the grid point at which they meet. Begin at `meet_point`;
//! `crossing` gives the exact place. Nothing here takes memory.
#![tactic(auto)]

mod fraction;
mod laws;
mod meeting;
mod place;
mod rounding;

pub use fraction::Crossing;
pub use laws::{crossing_is_one, meet_point_is_one};
pub use meeting::{Meet, crossing, meet_point};
