//! Why the example stops early.
use grid_base::NoMemory;
use line_grammar::LineError;
use realm_insert::ChangeError;
use realm_store::{CheckpointError, CommitError, StartError};
use std::io;
use thiserror::Error;

/// Why the example stops early. With the lines that it has none of these comes while there is memory and the disk works.
#[derive(Debug, Drop, Error)]
pub enum ExampleError {
    #[error("the line is no command: {0:?}")]
    Line(#[from] LineError),
    #[error("the line asks for neither a change nor an answer")]
    Kind,
    #[error("{0}")]
    Change(#[from] ChangeError),
    #[error("no start: {0:?}")]
    Start(#[from] StartError),
    #[error("no commit: {0:?}")]
    Commit(#[from] CommitError),
    #[error("no checkpoint: {0:?}")]
    Checkpoint(#[from] CheckpointError),
    #[error("no output: {0}")]
    Output(#[from] io::Error),
    #[error("{0}")]
    Memory(#[from] NoMemory),
}
