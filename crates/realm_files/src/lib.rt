//! What two files stand for: the newest of them holds a payload, which opens a state, and records behind it, which
//! lead on. Which states there are, what a payload opens and where a record leads, is left open here; the crate above
//! says it. Begin at `specs/Stands`, then `specs/Writing`. There is hardly anything to run: what is proved here are the
//! laws by which each crash leaves files that stand for the state before a change or after it, up to a next gate that is
//! there.
#![tactic(auto)]

mod place;
mod syncing;

pub use place::Place;
pub use syncing::sync_both;
