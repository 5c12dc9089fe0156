//! How much is in a state. Begin at `count_state`. Nothing here changes a state.
#![tactic(auto)]

mod counting;
mod originals;
mod telling;

pub use counting::{Counts, counts_of};
pub use telling::{count_state, push_counts, push_number};
