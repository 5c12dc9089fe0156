//! What a change answers.
use grid_base::Point;
use record_codec::Trace;

/// What an accepted change did.
#[derive(Debug, Drop)]
pub struct Applied {
    /// The next id before it.
    pub first: u64,
    /// How many originals are new.
    pub added: u64,
    /// The points that became explicit, ascending.
    pub points: Vec<Point>,
    /// The steps that settled the drawing.
    pub trace: Trace,
}
