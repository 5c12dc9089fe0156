//! The lines of a certificate, made from what a store keeps: those of a state, and those of each change behind it.
//! Begin at `certify_entry`. Nothing here touches a file.
#![tactic(auto)]

mod certifying;
mod lines;
mod opening;
mod telling;

pub use certifying::certify_entry;
pub use opening::{engine_at, opening_original, opening_point};
