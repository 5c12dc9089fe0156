//! The engine: it makes each change, settles the drawing, and keeps the traces.
//! Begin at `Engine`, then read what a change makes of the state in `specs/Next.antt`.
#![tactic(auto)]

mod applied;
mod asked;
mod causes;
mod defining;
mod engine;
mod figure;
mod indexing;
mod laws;
mod making;
mod near_box;
mod operands;
mod placing;
mod refusal;
mod removing;
mod restoring;
mod searching;
mod settling;
mod sharing;
mod snapshot_error;

pub use applied::Applied;
pub use engine::{Engine, MOST_CHANGES};
pub use laws::{let_makes_no_violation, replay_agrees};
pub use operands::{Operands, operands_named, operands_side_by_side};
pub use record_codec::Trace;
pub use refusal::{ChangeError, Refusal, ReplayError};
pub use sharing::may_be_shared;
pub use snapshot_error::SnapshotError;
