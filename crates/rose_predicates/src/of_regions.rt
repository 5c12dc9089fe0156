//! Two regions. What an operator makes of them is empty exactly where it has no place, so areas are compared
//! by what intersection and minus make, and borders by their segments and ends. Boxes, common segments and
//! common ends are found at less cost than what an operator makes, and are asked first.
ghost use Rattle.std.specs.Prelude.{◌≡◌, ◌↔◌, ◌++◌, IfOk, IsTrue, Err, false};
ghost use Rattle.grid_base.specs.Border.{AreNoded};
ghost use Rattle.grid_base.specs.declared.kinds.Kind.TheVariants.{Regions};
ghost use Rattle.rose_values.specs.declared.geometry.Geometry.TheVariants.{R};
ghost use Rattle.rose_values.specs.Border.{IsBorder};
ghost use Rattle.rose_values.specs.Kinds.{takes_kinds};
ghost use Rattle.rose_predicates.specs.Predicates.{IsInside, AreasMeet, AreEdgeDisjoint, ShareAPoint};
ghost use Rattle.rose_predicates.specs.Predicates.{ShareASegment, ShareABorderPoint, IsShutIn, IsTrueOf};
ghost use Rattle.rose_predicates.specs.declared.answering.HoldsError.TheVariants.{WrongTypes};

use crate::answering::HoldsError;
use crate::enclosing::is_shut_in;
use crate::members::{share_segment, share_vertex};
use crate::of_boxes::{lie_beside, reaches_out};
use grid_base::{NoMemory, Segment};
use rose_overlay::{combination, lesser_ends_first};
use rose_values::{Op, Pred};
use std::alloc::Global;

pub(crate) fn of_regions(
    alloc: Global,
    pred: Pred,
    a: &[Segment],
    b: &[Segment],
) -> Result<bool, HoldsError>
    requires noded { AreNoded (a.now ++ b.now) }
    requires first { IsBorder a.now }
    requires second { IsBorder b.now }
    ensures holds { IfOk result (λ answer. IsTrue answer ↔ IsTrueOf pred (R a.now) (R b.now)) }
    ensures wrong_types { (result ≡ Err WrongTypes) ↔ (takes_kinds pred Regions Regions ≡ false) }
{
    match pred {
        Pred::Equal => Ok(are_equal(a, b)),
        Pred::Inside => Ok(is_inside(alloc, a, b)?),
        Pred::EdgeInside => Ok(is_edge_inside(alloc, a, b)?),
        Pred::VertexInside => Ok(is_vertex_inside(alloc, a, b)?),
        Pred::AreaDisjoint => Ok(!areas_meet(alloc, a, b)?),
        Pred::EdgeDisjoint => Ok(are_edge_disjoint(alloc, a, b)?),
        Pred::Disjoint => Ok(are_disjoint(alloc, a, b)?),
        Pred::Intersects => Ok(areas_meet(alloc, a, b)?),
        Pred::Meets => Ok(are_meeting(alloc, a, b)?),
        Pred::Adjacent => Ok(are_adjacent(alloc, a, b)?),
        Pred::Encloses => Ok(encloses(alloc, a, b)?),
        Pred::BorderInCommon => Ok(share_segment(a, b)),
        _ => Err(HoldsError::WrongTypes),
    }
}

// Whether the two have the same points.
fn are_equal(a: &[Segment], b: &[Segment]) -> bool
    requires noded { AreNoded (a.now ++ b.now) }
    requires first { IsBorder a.now }
    requires second { IsBorder b.now }
    ensures { IsTrue result ↔ (IsInside (R a.now) (R b.now) × IsInside (R b.now) (R a.now)) }
{
    lesser_ends_first(a);
    lesser_ends_first(b);
    a == b
}

// Whether each point of the first is one of the second: minus makes nothing of them. It makes something where
// the first reaches out of the box of the second.
fn is_inside(alloc: Global, a: &[Segment], b: &[Segment]) -> Result<bool, NoMemory>
    requires noded { AreNoded (a.now ++ b.now) }
    requires first { IsBorder a.now }
    requires second { IsBorder b.now }
    ensures { IfOk result (λ answer. IsTrue answer ↔ IsInside (R a.now) (R b.now)) }
{
    if reaches_out(a, b) {
        return Ok(false);
    }
    lesser_ends_first(a);
    lesser_ends_first(b);
    let outside = combination(alloc, Op::Minus, a, b)?;
    Ok(outside.segments().is_empty())
}

// The same, and no segment is common.
fn is_edge_inside(alloc: Global, a: &[Segment], b: &[Segment]) -> Result<bool, NoMemory>
    requires noded { AreNoded (a.now ++ b.now) }
    requires first { IsBorder a.now }
    requires second { IsBorder b.now }
    ensures { IfOk result (λ answer. IsTrue answer
        ↔ (IsInside (R a.now) (R b.now) × ¬ ShareASegment (R a.now) (R b.now))) }
{
    if share_segment(a, b) {
        return Ok(false);
    }
    Ok(is_inside(alloc, a, b)?)
}

// The same, and no point is on both borders.
fn is_vertex_inside(alloc: Global, a: &[Segment], b: &[Segment]) -> Result<bool, NoMemory>
    requires noded { AreNoded (a.now ++ b.now) }
    requires first { IsBorder a.now }
    requires second { IsBorder b.now }
    ensures { IfOk result (λ answer. IsTrue answer
        ↔ (IsInside (R a.now) (R b.now) × ¬ ShareABorderPoint (R a.now) (R b.now))) }
{
    let touching = share_vertex(alloc, a, b)?;
    if touching {
        return Ok(false);
    }
    Ok(is_inside(alloc, a, b)?)
}

// Whether some point is interior to both: intersection makes something of them. It makes nothing where their
// boxes lie beside each other.
fn areas_meet(alloc: Global, a: &[Segment], b: &[Segment]) -> Result<bool, NoMemory>
    requires noded { AreNoded (a.now ++ b.now) }
    requires first { IsBorder a.now }
    requires second { IsBorder b.now }
    ensures { IfOk result (λ answer. IsTrue answer ↔ AreasMeet (R a.now) (R b.now)) }
{
    if lie_beside(a, b) {
        return Ok(false);
    }
    lesser_ends_first(a);
    lesser_ends_first(b);
    let common = combination(alloc, Op::Intersection, a, b)?;
    Ok(!common.segments().is_empty())
}

// Whether neither a point is interior to both nor a segment common.
fn are_edge_disjoint(alloc: Global, a: &[Segment], b: &[Segment]) -> Result<bool, NoMemory>
    requires noded { AreNoded (a.now ++ b.now) }
    requires first { IsBorder a.now }
    requires second { IsBorder b.now }
    ensures { IfOk result (λ answer. IsTrue answer ↔ AreEdgeDisjoint (R a.now) (R b.now)) }
{
    if share_segment(a, b) {
        return Ok(false);
    }
    let meeting = areas_meet(alloc, a, b)?;
    Ok(!meeting)
}

// Whether no point is a point of both: none is interior to both, and none on both borders.
fn are_disjoint(alloc: Global, a: &[Segment], b: &[Segment]) -> Result<bool, NoMemory>
    requires noded { AreNoded (a.now ++ b.now) }
    requires first { IsBorder a.now }
    requires second { IsBorder b.now }
    ensures { IfOk result (λ answer. IsTrue answer ↔ ¬ ShareAPoint (R a.now) (R b.now)) }
{
    lesser_ends_first(a);
    lesser_ends_first(b);
    let touching = share_vertex(alloc, a, b)?;
    if touching {
        return Ok(false);
    }
    let meeting = areas_meet(alloc, a, b)?;
    Ok(!meeting)
}

// Whether they touch, in points alone.
fn are_meeting(alloc: Global, a: &[Segment], b: &[Segment]) -> Result<bool, NoMemory>
    requires noded { AreNoded (a.now ++ b.now) }
    requires first { IsBorder a.now }
    requires second { IsBorder b.now }
    ensures { IfOk result (λ answer. IsTrue answer
        ↔ (AreEdgeDisjoint (R a.now) (R b.now) × ShareAPoint (R a.now) (R b.now))) }
{
    lesser_ends_first(a);
    lesser_ends_first(b);
    let touching = share_vertex(alloc, a, b)?;
    if !touching {
        return Ok(false);
    }
    Ok(are_edge_disjoint(alloc, a, b)?)
}

// Whether they touch along a segment, with no point interior to both.
fn are_adjacent(alloc: Global, a: &[Segment], b: &[Segment]) -> Result<bool, NoMemory>
    requires noded { AreNoded (a.now ++ b.now) }
    requires first { IsBorder a.now }
    requires second { IsBorder b.now }
    ensures { IfOk result (λ answer. IsTrue answer
        ↔ ((¬ AreasMeet (R a.now) (R b.now)) × ShareASegment (R a.now) (R b.now))) }
{
    if !share_segment(a, b) {
        return Ok(false);
    }
    let meeting = areas_meet(alloc, a, b)?;
    Ok(!meeting)
}

// Whether the areas don't meet, and the first encloses that of the second: no part of it then reaches out of
// the box of the first.
fn encloses(alloc: Global, a: &[Segment], b: &[Segment]) -> Result<bool, NoMemory>
    requires noded { AreNoded (a.now ++ b.now) }
    requires first { IsBorder a.now }
    requires second { IsBorder b.now }
    ensures { IfOk result (λ answer. IsTrue answer
        ↔ ((¬ AreasMeet (R a.now) (R b.now)) × IsShutIn (R a.now) (R b.now))) }
{
    if reaches_out(b, a) {
        return Ok(false);
    }
    let meeting = areas_meet(alloc, a, b)?;
    if meeting {
        return Ok(false);
    }
    Ok(is_shut_in(alloc, a, b)?)
}
