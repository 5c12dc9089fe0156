//! What is sent to a standby.
use record_codec::{Record, Snapshot};

/// A record, which leads on from the state before its first change, or a whole state.
#[derive(Debug, Drop)]
pub enum Frame {
    Rec(Record),
    Snap(Snapshot),
}
