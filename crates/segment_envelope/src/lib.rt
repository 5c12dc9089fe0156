//! What lies beside a segment of the grid: the points near it, and its envelope.
//! Begin at `near`, then `column_pair`, which answers all near points of a column at once. Nothing
//! here takes memory.
#![tactic(auto)]

mod columns;
mod laws;
mod nearness;

pub use columns::column_pair;
pub use laws::{meet_point_is_near, near_is_in_envelope, near_is_within_one, on_is_near};
pub use nearness::{in_envelope, near};
