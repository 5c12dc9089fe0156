//! The chains that stand for originals: which lists of points may be one, what a step puts in the place of its pieces, and
//! the laws of both.
//! Begin at `original_of`, then read what a step is in `specs/Steps.antt` of hook_chain, and its laws at `step_mends`.
#![tactic(auto)]

mod courses;
mod laws;
mod mending;
mod redrawing;

pub use courses::original_of;
pub use laws::{one_chain_stays_one, step_keeps_chains, step_mends, steps_end, valid_chain_stands};
pub use mending::{crossing_step, is_mending, redrawings_of};
pub use redrawing::{Redrawing, Redrawings};
