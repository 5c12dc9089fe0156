//! Points by their coordinates, as tables write them.
ghost use Rattle.std.specs.Prelude.{◌≡◌, ◌⊎◌, ◌≤◌, MatchOption};
ghost use Rattle.grid_base.specs.Grid.{grid_side};
ghost use Rattle.grid_base.specs.Point.{point_at};

use grid_base::Point;
#[cfg(test)]
use grid_base::Segment;
#[cfg(test)]
use segment_lists::segment_with;
#[cfg(test)]
use std::process::Abort;

/// The point with these coordinates; none off the grid.
pub fn point(x: u64, y: u64) -> Option<Point>
    ensures { MatchOption result ((grid_side ≤ x) ⊎ (grid_side ≤ y)) (λ p. p ≡ point_at x y) }
{
    Point::new(x, y).ok()
}

// A point that is known to be on the grid.
#[cfg(test)]
pub(crate) fn place(rt: &impl Abort, [x, y]: [u64; 2]) -> Point {
    point(x, y).expect(rt, "a point of the grid")
}

// A segment that is known to have two ends on the grid.
#[cfg(test)]
pub(crate) fn drawn(rt: &impl Abort, ends: [u64; 4]) -> Segment {
    segment_with(&ends).expect(rt, "a segment")
}
