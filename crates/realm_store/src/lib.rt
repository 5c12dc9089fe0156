//! The store: the state, kept in two files. Begin at `Store`: it is started on what the files stand for; a commit makes a
//! change and writes its record to the newest file, and a checkpoint writes the state to the other. So after a crash at
//! any moment the files stand for the state before a change or after it. What two files stand for, and what each kind of
//! writing leaves of that, is told by `realm_files`.
#![tactic(auto)]

mod accepting;
mod adopting;
mod changing;
mod committing;
mod error;
mod gates;
mod grouping;
mod laws;
mod looking;
mod opening;
mod remaking;
mod renewing;
mod replaying;
mod replies;
mod starting;
mod store;
mod writing;

pub use error::{AcceptError, AdoptError, BeginError, CheckpointError, CommitError, EndError};
pub use laws::{
    empty_files_stand, gate_is_kept, journal_stands, one_reading, stands_alone, stands_as_before,
};
pub use realm_pages::{Damage, PagesError as StartError};
pub use starting::{Journal, Started};
pub use store::Store;
