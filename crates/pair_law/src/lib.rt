//! What holds of a primary and its standby whatever is lost, repeated and reordered between them: laws of the
//! definitions. Nothing here runs.
#![tactic(auto)]

mod laws;

pub use laws::{
    following_ends_in_the_history, lines_have_one_output, pair_law, what_is_sent_is_enough,
};
