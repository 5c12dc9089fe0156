//! Operators on lists of values: what at least one of them has, the parts of a value, which regions of
//! two lists overlap, and values gathered by keys. Begin at `sum`.
#![tactic(auto)]

mod common;
mod decomposing;
mod error;
mod face_parts;
mod fusing;
mod group;
mod laws;
mod members;
mod overlaying;
mod pair;
mod summing;

pub use decomposing::decompose;
pub use error::SetError;
pub use fusing::fusion;
pub use group::Group;
pub use laws::{one_sum, sum_of_parts};
pub use members::ascends;
pub use overlaying::overlay;
pub use pair::Pair;
pub use summing::sum;
