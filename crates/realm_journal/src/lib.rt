//! Records in a file, each behind a gate: a byte that is written last, and makes the record count.
//! Begin at `append`. Before a record is written, a closed gate stands in its place on the disk; the record
//! is written behind it with a closed gate after it, and synced; then the gate is opened, and synced. So a
//! crash at any moment leaves the record whole, or a closed gate.
#![tactic(auto)]

mod appending;
mod block;
mod error;
mod handing;
mod prepared;
mod reading;
mod records;
mod scanning;
mod shutting;

pub use appending::{append, append_block};
pub use block::{Block, begin_block};
pub use error::{JournalError, ScanError};
pub use handing::Records;
pub use prepared::{Prepared, prepare};
pub use reading::read_from;
pub use records::{NextRecord, Scan};
pub use scanning::{next_record, scan, scan_bytes};
pub use shutting::shut_gate;

/// The byte of an open gate. Every other byte is a closed one.
pub const OPEN: u8 = 0xA5;

/// The byte that is written for a closed gate.
pub const CLOSED: u8 = 0;
