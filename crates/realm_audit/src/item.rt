//! The lines of a certificate.
use grid_base::{Chain, Point, Step};

/// One line of a certificate.
#[derive(Debug, Drop)]
pub enum Item {
    /// The point becomes explicit.
    Point(Point),
    /// The point is explicit no longer.
    Unpoint(Point),
    /// A chain that was there at the beginning, with the id of its original.
    Original(u32, Chain),
    /// A change begins. The one before it, if there is one, is over.
    Change,
    /// The original with this id goes.
    Remove(u32),
    /// A straight original comes, with its id, from the first point to the second, which is the greater.
    Segment(u32, Point, Point),
    /// A step is taken.
    Step(Step),
    /// The certificate is over.
    End,
}
