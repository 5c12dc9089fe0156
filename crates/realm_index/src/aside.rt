//! Boxes that lie off the line of a segment.
ghost use Rattle.std.specs.Prelude.{◌≡◌, nat_le};
ghost use Rattle.grid_base.specs.Sides.{side};
ghost use Rattle.realm_index.specs.Aside.{is_aside, is_left, is_right, rightmost, leftmost};

use crate::bounds::Bounds;
use grid_base::{Point, Segment, cross_of};

// Whether the box lies off the line of the segment: the corner that is farthest to its right is on its left, or the one that
// is farthest to its left is on its right.
pub(crate) fn is_aside(s: &Segment, b: &Bounds) -> bool
    ensures { result ≡ is_aside s.now b.now }
{
    is_left(s, &rightmost(s, b)) || is_right(s, &leftmost(s, b))
}

// The corner of the box that is farthest to the right of the line.
fn rightmost(s: &Segment, b: &Bounds) -> Point
    ensures { result ≡ rightmost s.now b.now }
{
    let column = if rises(s) { b.right() } else { b.left() };
    Point::at(column, b.low())
}

// The corner of the box that is farthest to the left of the line.
fn leftmost(s: &Segment, b: &Bounds) -> Point
    ensures { result ≡ leftmost s.now b.now }
{
    let column = if rises(s) { b.left() } else { b.right() };
    Point::at(column, b.high())
}

// Whether the segment doesn't fall.
fn rises(s: &Segment) -> bool
    ensures { result ≡ nat_le s.now.a.y s.now.b.y }
{
    s.a().y() <= s.b().y()
}

// Whether the point is on the left of the line.
fn is_left(s: &Segment, p: &Point) -> bool
    ensures { result ≡ is_left (side s.now.a s.now.b p.now) }
{
    cross_of(s, p) > 0
}

// Whether the point is on the right of the line.
fn is_right(s: &Segment, p: &Point) -> bool
    ensures { result ≡ is_right (side s.now.a s.now.b p.now) }
{
    cross_of(s, p) < 0
}
