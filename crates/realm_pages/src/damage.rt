//! What is wrong with files that stand for no state.
use outside_world::FileName;
use thiserror::Error;

/// The fault of the files that decides, in the order in which they are read.
#[derive(Clone, Copy, Debug, PartialEq, Eq, Error)]
pub enum Damage {
    /// The digest that is kept in a page isn't the one that is found of its bytes.
    #[error("file {file:?}, page {page}: the digest is another")]
    Digest {
        file: FileName,
        page: u64,
        kept: [u8; 32],
        found: [u8; 32],
    },
    /// A page isn't whole within its file, or isn't the one that belongs there; page 0 is the head.
    #[error("file {file:?}, page {page}: not the page that belongs there")]
    BadPage {
        file: FileName,
        page: u64,
    },
    /// The payload is that of no state. Who makes an engine of the state tells this too, where it isn't valid.
    #[error("file {file:?}: the payload is that of no state")]
    BadSnapshot {
        file: FileName,
    },
    /// The record with this number in its file, from 1, isn't whole, or doesn't lead on from the state
    /// before. Only who reads records tells this.
    #[error("file {file:?}, record {number}: it doesn't lead on")]
    BadRecord {
        file: FileName,
        number: u64,
    },
    /// Both files count with this generation.
    #[error("both files count with generation {generation}")]
    Twins {
        generation: u64,
    },
}
