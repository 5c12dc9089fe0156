//! Numbers of values: squared distances, twice the area of a region, and how many components there are.
//! Begin at `dist2`, `diameter2`, `area2` and `components`.
#![tactic(auto)]

mod apart;
mod areas;
mod counting;
mod directions;
mod distances;
mod narrowing;
mod parts;
mod widths;

pub use areas::area2;
pub use counting::components;
pub use distances::dist2;
pub use widths::diameter2;
