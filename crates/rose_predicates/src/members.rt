//! What lists of points and of segments have in common.
ghost use Rattle.std.specs.Prelude.{◌≡◌, ◌↔◌, ◌++◌, IsTrue, IfOk, All, Any, Contains};
ghost use Rattle.grid_base.specs.Border.{AreNoded};
ghost use Rattle.grid_base.specs.Plane.{Place};
ghost use Rattle.rose_values.specs.Areas.{IsOnSome};
ghost use Rattle.rose_values.specs.Border.{ArePointsAscending, AreSegmentsAscending};
ghost use Rattle.rose_values.specs.Operators.{HasEnds};

use crate::of_boxes::lie_apart;
use grid_base::{NoMemory, Point, Segment};
use rose_overlay::{ascending_points, ends, has_point, has_segment, lesser_ends_first};
use std::alloc::Global;

// Whether each point of `a` is one of `b`.
pub(crate) fn all_points_in(a: &[Point], b: &[Point]) -> bool
    requires { ArePointsAscending b.now }
    ensures { IsTrue result ↔ All (Contains b.now) a.now }
{
    a.iter().all(|p| has_point(b, p))
}

// Whether some point of `a` is one of `b`.
pub(crate) fn share_point(a: &[Point], b: &[Point]) -> bool
    requires { ArePointsAscending b.now }
    ensures { IsTrue result ↔ Any (Contains b.now) a.now }
{
    a.iter().any(|p| has_point(b, p))
}

// Whether each segment of `a` is one of `b`.
pub(crate) fn all_segments_in(a: &[Segment], b: &[Segment]) -> bool
    requires { AreSegmentsAscending b.now }
    ensures { IsTrue result ↔ All (Contains b.now) a.now }
{
    a.iter().all(|s| has_segment(b, s))
}

// Whether some segment of `a` is one of `b`.
pub(crate) fn share_segment(a: &[Segment], b: &[Segment]) -> bool
    requires { AreSegmentsAscending b.now }
    ensures { IsTrue result ↔ Any (Contains b.now) a.now }
{
    if lie_apart(a, b) {
        return false;
    }
    a.iter().any(|s| has_segment(b, s))
}

// Whether some place is on a segment of each: they have a common end.
pub(crate) fn share_vertex(alloc: Global, a: &[Segment], b: &[Segment]) -> Result<bool, NoMemory>
    requires noded { AreNoded (a.now ++ b.now) }
    ensures { IfOk result (λ answer. IsTrue answer
        ↔ ((q : Place) × IsOnSome a.now q × IsOnSome b.now q)) }
{
    if lie_apart(a, b) {
        return Ok(false);
    }
    lesser_ends_first(a);
    lesser_ends_first(b);
    let first = vertices(alloc, a)?;
    let second = vertices(alloc, b)?;
    Ok(share_point(&first, &second))
}

// The ends of the segments, ascending.
pub(crate) fn vertices(alloc: Global, list: &[Segment]) -> Result<Vec<Point>, NoMemory>
    ensures ascending { IfOk result (λ v. ArePointsAscending v.items) }
    ensures ends { IfOk result (λ v. HasEnds list.now v.items) }
{
    Ok(ascending_points(ends(alloc, list)?))
}
