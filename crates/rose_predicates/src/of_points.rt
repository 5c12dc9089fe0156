//! Points, and where they lie. A point that is inside no segment is on a segment where it is an end.
ghost use Rattle.std.specs.Prelude.{◌≡◌, ◌⊎◌, ◌↔◌, List, IfOk, IsTrue, All, Any, Contains, Err, false};
ghost use Rattle.grid_base.specs.declared.kinds.Kind.TheVariants.{Points, Lines, Regions};
ghost use Rattle.grid_base.specs.Segment.{GridSegment};
ghost use Rattle.grid_base.specs.Border.{AreNoded, IsEvenBorder};
ghost use Rattle.grid_base.specs.Odd.{Odd};
ghost use Rattle.grid_base.specs.Plane.{as_place};
ghost use Rattle.grid_base.specs.SideOf.{as_rational};
ghost use Rattle.rose_values.specs.declared.geometry.Geometry.TheVariants.{P, L, R};
ghost use Rattle.rose_values.specs.Border.{ArePointsAscending};
ghost use Rattle.rose_values.specs.Kinds.{takes_kinds};
ghost use Rattle.plane_sweep.specs.Told.{AreOddPoints};
ghost use Rattle.rose_predicates.specs.Predicates.{AreOutside, IsInside, ShareAPoint, IsTrueOf};
ghost use Rattle.rose_predicates.specs.declared.answering.HoldsError.TheVariants.{WrongTypes};

use crate::answering::HoldsError;
use crate::members::{all_points_in, share_point, vertices};
use crate::of_boxes::{all_are_off, one_is_off};
use grid_base::{NoMemory, Point, Segment};
use plane_sweep::odd_points;
use rose_overlay::{has_point, lesser_ends_first};
use rose_values::Pred;
use std::alloc::Global;

pub(crate) fn of_points(pred: Pred, a: &[Point], b: &[Point]) -> Result<bool, HoldsError>
    requires ascending_first { ArePointsAscending a.now }
    requires ascending_second { ArePointsAscending b.now }
    ensures holds { IfOk result (λ answer. IsTrue answer ↔ IsTrueOf pred (P a.now) (P b.now)) }
    ensures wrong_types { (result ≡ Err WrongTypes) ↔ (takes_kinds pred Points Points ≡ false) }
{
    match pred {
        Pred::Equal => Ok(are_equal(a, b)),
        Pred::Disjoint => Ok(are_disjoint(a, b)),
        _ => Err(HoldsError::WrongTypes),
    }
}

// Whether the two have the same points.
fn are_equal(a: &[Point], b: &[Point]) -> bool
    requires ascending_first { ArePointsAscending a.now }
    requires ascending_second { ArePointsAscending b.now }
    ensures { IsTrue result ↔ (IsInside (P a.now) (P b.now) × IsInside (P b.now) (P a.now)) }
{
    a == b
}

// Whether the two have no common point.
fn are_disjoint(a: &[Point], b: &[Point]) -> bool
    requires ascending { ArePointsAscending b.now }
    ensures { IsTrue result ↔ ¬ ShareAPoint (P a.now) (P b.now) }
{
    !share_point(a, b)
}

pub(crate) fn of_points_and_lines(
    alloc: Global,
    pred: Pred,
    points: &[Point],
    lines: &[Segment],
) -> Result<bool, HoldsError>
    requires outside { AreOutside points.now lines.now }
    ensures holds { IfOk result (λ answer. IsTrue answer ↔ IsTrueOf pred (P points.now) (L lines.now)) }
    ensures wrong_types { (result ≡ Err WrongTypes) ↔ (takes_kinds pred Points Lines ≡ false) }
{
    match pred {
        Pred::Inside => Ok(are_on(alloc, points, lines)?),
        Pred::Disjoint => Ok(are_off(alloc, points, lines)?),
        _ => Err(HoldsError::WrongTypes),
    }
}

// Whether each of the points is on a segment of the lines.
fn are_on(alloc: Global, points: &[Point], lines: &[Segment]) -> Result<bool, NoMemory>
    requires outside { AreOutside points.now lines.now }
    ensures { IfOk result (λ answer. IsTrue answer ↔ IsInside (P points.now) (L lines.now)) }
{
    if one_is_off(points, lines) {
        return Ok(false);
    }
    lesser_ends_first(lines);
    let vertices = vertices(alloc, lines)?;
    Ok(all_points_in(points, &vertices))
}

// Whether none of the points is on a segment of the lines.
fn are_off(alloc: Global, points: &[Point], lines: &[Segment]) -> Result<bool, NoMemory>
    requires outside { AreOutside points.now lines.now }
    ensures { IfOk result (λ answer. IsTrue answer ↔ ¬ ShareAPoint (P points.now) (L lines.now)) }
{
    if all_are_off(points, lines) {
        return Ok(true);
    }
    lesser_ends_first(lines);
    let vertices = vertices(alloc, lines)?;
    Ok(!share_point(points, &vertices))
}

pub(crate) fn of_points_and_region(
    alloc: Global,
    pred: Pred,
    points: &[Point],
    border: &[Segment],
) -> Result<bool, HoldsError>
    requires noded { AreNoded border.now }
    requires even { IsEvenBorder border.now }
    requires outside { AreOutside points.now border.now }
    ensures holds { IfOk result (λ answer. IsTrue answer ↔ IsTrueOf pred (P points.now) (R border.now)) }
    ensures wrong_types { (result ≡ Err WrongTypes) ↔ (takes_kinds pred Points Regions ≡ false) }
{
    match pred {
        Pred::Inside => Ok(are_inside(alloc, points, border)?),
        Pred::Disjoint => Ok(are_outside(alloc, points, border)?),
        Pred::OnBorderOf => Ok(are_on(alloc, points, border)?),
        _ => Err(HoldsError::WrongTypes),
    }
}

// Whether each of the points is one of the region.
fn are_inside(alloc: Global, points: &[Point], border: &[Segment]) -> Result<bool, NoMemory>
    requires noded { AreNoded border.now }
    requires even { IsEvenBorder border.now }
    requires outside { AreOutside points.now border.now }
    ensures { IfOk result (λ answer. IsTrue answer ↔ IsInside (P points.now) (R border.now)) }
{
    if one_is_off(points, border) {
        return Ok(false);
    }
    lesser_ends_first(border);
    let vertices = vertices(alloc, border)?;
    let odd = odd_points(alloc, border, points)?;
    Ok(each_is_of(&vertices, points, &odd))
}

// Whether none of the points is one of the region.
fn are_outside(alloc: Global, points: &[Point], border: &[Segment]) -> Result<bool, NoMemory>
    requires noded { AreNoded border.now }
    requires even { IsEvenBorder border.now }
    requires outside { AreOutside points.now border.now }
    ensures { IfOk result (λ answer. IsTrue answer ↔ ¬ ShareAPoint (P points.now) (R border.now)) }
{
    if all_are_off(points, border) {
        return Ok(true);
    }
    lesser_ends_first(border);
    let vertices = vertices(alloc, border)?;
    let odd = odd_points(alloc, border, points)?;
    Ok(!one_is_of(&vertices, points, &odd))
}

// Whether each of the points, of which it is told whether they are odd, is an end of the border or odd.
fn each_is_of(vertices: &[Point], points: &[Point], odd: &[bool]) -> bool
    requires ascending { ArePointsAscending vertices.now }
    ensures { (border : List GridSegment) → AreOddPoints border points.now odd.now → (IsTrue result
        ↔ All (λ p. Contains vertices.now p ⊎ Odd border (as_place (as_rational p))) points.now) }
{
    points
        .iter()
        .zip(odd)
        .all(|(p, is_odd)| is_point_of(vertices, p, *is_odd))
}

// Whether some of them is.
fn one_is_of(vertices: &[Point], points: &[Point], odd: &[bool]) -> bool
    requires ascending { ArePointsAscending vertices.now }
    ensures { (border : List GridSegment) → AreOddPoints border points.now odd.now → (IsTrue result
        ↔ Any (λ p. Contains vertices.now p ⊎ Odd border (as_place (as_rational p))) points.now) }
{
    points
        .iter()
        .zip(odd)
        .any(|(p, is_odd)| is_point_of(vertices, p, *is_odd))
}

// Whether the point is an end of the border, or odd.
fn is_point_of(vertices: &[Point], p: &Point, is_odd: bool) -> bool
    requires ascending { ArePointsAscending vertices.now }
    ensures { IsTrue result ↔ (Contains vertices.now p.now ⊎ IsTrue is_odd) }
{
    is_odd || has_point(vertices, p)
}
