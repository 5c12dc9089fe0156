//! What stands in a file: at one gate, and from a place on.
use record_codec::{ListOf, Record};

/// What stands at the gate of a place.
#[derive(Drop)]
pub enum NextRecord {
    /// The gate is closed, or behind the end.
    Closed,
    /// The gate is open, and no whole record stands behind it.
    Bad,
    /// A record stands behind an open gate, and `end` is the place of the gate behind it.
    Record { record: Record, end: usize },
}

/// The records in order, the place of the gate behind them, and whether this gate is open.
#[derive(Drop)]
pub struct Scan {
    pub list: ListOf<Record>,
    pub end: u64,
    pub bad: bool,
}
