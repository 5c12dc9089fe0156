//! Where the next record will stand.
use outside_world::FileName;

/// The newest file, its version and generation by number, and where its next gate stands.
#[derive(Clone, Copy, Debug, PartialEq, Eq)]
pub struct Place {
    pub file: FileName,
    pub version: u64,
    pub generation: u64,
    pub next: u64,
}
