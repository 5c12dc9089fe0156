//! Boxes with sides along the axes. One pass over a border finds its box.
ghost use Rattle.std.specs.Prelude.{◌↔◌, IsTrue};
ghost use Rattle.grid_base.specs.Segment.{GridSegment};
ghost use Rattle.border_boxes.specs.Boxes.{AreApart, AreBeside, HasPoint, IsBoxOf, IsWithin, LiesIn};

use grid_base::{Point, Segment};

/// A box by its sides, in grid coordinates, all four counted. Where its columns or its rows run backwards it
/// holds nothing.
#[derive(Clone, Copy, Debug)]
pub struct BorderBox {
    /// The first column.
    pub left: u32,
    /// The last column.
    pub right: u32,
    /// The first row.
    pub low: u32,
    /// The last row.
    pub high: u32,
}

/// The least box that holds all the segments: the empty one where there are none.
pub fn box_of(border: &[Segment]) -> BorderBox
    ensures { IsBoxOf result border.now }
{
    let mut least = BorderBox {
        left: u32::MAX,
        right: 0,
        low: u32::MAX,
        high: 0,
    };
    for s in border {
        least = widened(least, s);
    }
    least
}

// The least box that holds what `least` holds, and `s`.
fn widened(least: BorderBox, s: &Segment) -> BorderBox
    ensures one_more { IsWithin result s.now }
    ensures others { (t : GridSegment) → IsWithin least t → IsWithin result t }
    ensures least { (other : BorderBox) → IsWithin other s.now → LiesIn least other → LiesIn result other }
{
    let (a, b) = (s.a(), s.b());
    BorderBox {
        left: least.left.min(a.x()),
        right: least.right.max(b.x()),
        low: least.low.min(a.y()).min(b.y()),
        high: least.high.max(a.y()).max(b.y()),
    }
}

/// Whether the point lies in the box, its rim counted.
pub fn has_point(around: &BorderBox, p: &Point) -> bool
    ensures { IsTrue result ↔ HasPoint around.now p.now }
{
    around.left <= p.x() && p.x() <= around.right && around.low <= p.y() && p.y() <= around.high
}

/// Whether the first box lies in the second, sides that lie on one another counted. The empty box lies in each.
pub fn lies_in(first: &BorderBox, second: &BorderBox) -> bool
    ensures { IsTrue result ↔ LiesIn first.now second.now }
{
    second.left <= first.left
        && first.right <= second.right
        && second.low <= first.low
        && first.high <= second.high
}

/// Whether the boxes have no column in common but that of a common side, or no row but that of one. Nothing that
/// lies in one of them is then strictly inside the other.
pub fn are_beside(first: &BorderBox, second: &BorderBox) -> bool
    ensures { IsTrue result ↔ AreBeside first.now second.now }
{
    first.right <= second.left
        || second.right <= first.left
        || first.high <= second.low
        || second.high <= first.low
}

/// Whether the boxes have no column in common, or no row. Nothing then lies in both.
pub fn are_apart(first: &BorderBox, second: &BorderBox) -> bool
    ensures { IsTrue result ↔ AreApart first.now second.now }
{
    first.right < second.left
        || second.right < first.left
        || first.high < second.low
        || second.high < first.low
}
