//! What is found on the files.
use outside_world::FileName;
use record_codec::Snapshot;

/// The newest file, the version of its format, the number of its generation, the state of its payload, and the
/// place of its first record's gate.
#[derive(Debug, Drop)]
pub struct Found {
    pub file: FileName,
    pub version: u64,
    pub generation: u64,
    pub snapshot: Snapshot,
    pub end: u64,
}
