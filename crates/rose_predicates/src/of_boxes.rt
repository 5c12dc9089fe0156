//! What the boxes of two values tell, at the cost of one pass over each. Where boxes don't tell, the answer is
//! false, and says nothing.
ghost use Rattle.std.specs.Prelude.{◌↔◌, ◌++◌, IsTrue, All, Any, Contains};
ghost use Rattle.grid_base.specs.Segment.{GridSegment};
ghost use Rattle.grid_base.specs.Plane.{Place};
ghost use Rattle.grid_base.specs.Border.{AreNoded, IsEvenBorder};
ghost use Rattle.rose_values.specs.Areas.{IsOnSome};
ghost use Rattle.rose_values.specs.Border.{IsBorder};
ghost use Rattle.rose_values.specs.declared.geometry.Geometry.TheVariants.{P, L, R};
ghost use Rattle.border_boxes.specs.Boxes.{HasPoint};
ghost use Rattle.rose_predicates.specs.Predicates.{AreasMeet, IsInside, IsShutIn, ReachesInto, ShareAPoint};

use border_boxes::{BorderBox, are_apart, are_beside, box_of, has_point, lies_in};
use grid_base::{Point, Segment};
use rose_overlay::lesser_ends_first;

// Whether the boxes lie apart: no place is then on a segment of each.
pub(crate) fn lie_apart(a: &[Segment], b: &[Segment]) -> bool
    ensures places { IsTrue result → (q : Place) → IsOnSome a.now q → ¬ IsOnSome b.now q }
    ensures segments { IsTrue result → (s : GridSegment) → Contains a.now s → ¬ Contains b.now s }
{
    are_apart(&box_of(a), &box_of(b))
}

// Whether the boxes lie beside each other: nothing of the first is then interior to the second.
pub(crate) fn lie_beside(a: &[Segment], b: &[Segment]) -> bool
    ensures lines { IsTrue result → IsEvenBorder b.now → ¬ ReachesInto (L a.now) (R b.now) }
    ensures regions { IsTrue result → IsEvenBorder a.now → IsEvenBorder b.now
        → ¬ AreasMeet (R a.now) (R b.now) }
{
    are_beside(&box_of(a), &box_of(b))
}

// Whether the box of the first doesn't lie in that of the second: the second then neither has all of the first,
// nor shuts it in.
pub(crate) fn reaches_out(a: &[Segment], b: &[Segment]) -> bool
    ensures lines { IsTrue result → IsEvenBorder b.now → ¬ IsInside (L a.now) (R b.now) }
    ensures regions { IsTrue result → IsEvenBorder b.now → ¬ IsInside (R a.now) (R b.now) }
    ensures shut_in { IsTrue result → AreNoded (b.now ++ a.now) → IsBorder b.now → IsBorder a.now
        → ¬ IsShutIn (R b.now) (R a.now) }
{
    lesser_ends_first(a);
    lesser_ends_first(b);
    !lies_in(&box_of(a), &box_of(b))
}

// Whether some of the points is off the box: it is then no point of what the box holds.
pub(crate) fn one_is_off(points: &[Point], list: &[Segment]) -> bool
    ensures lines { IsTrue result → ¬ IsInside (P points.now) (L list.now) }
    ensures region { IsTrue result → IsEvenBorder list.now → ¬ IsInside (P points.now) (R list.now) }
{
    !all_in(&box_of(list), points)
}

// Whether each of the points is.
pub(crate) fn all_are_off(points: &[Point], list: &[Segment]) -> bool
    ensures lines { IsTrue result → ¬ ShareAPoint (P points.now) (L list.now) }
    ensures region { IsTrue result → IsEvenBorder list.now → ¬ ShareAPoint (P points.now) (R list.now) }
{
    !some_in(&box_of(list), points)
}

// Whether the box has each of the points.
fn all_in(around: &BorderBox, points: &[Point]) -> bool
    ensures { IsTrue result ↔ All (HasPoint around.now) points.now }
{
    points.iter().all(|p| has_point(around, p))
}

// Whether it has some of them.
fn some_in(around: &BorderBox, points: &[Point]) -> bool
    ensures { IsTrue result ↔ Any (HasPoint around.now) points.now }
{
    points.iter().any(|p| has_point(around, p))
}
