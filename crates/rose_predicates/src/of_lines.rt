//! Lines, and where they lie. Two segments of a realm have at most an end in common, and a segment that isn't
//! on a border lies in its region, or outside it with all its inner places.
ghost use Rattle.std.specs.Prelude.{◌≡◌, ◌↔◌, ◌++◌, IfOk, IsTrue, Err, false};
ghost use Rattle.grid_base.specs.Border.{AreNoded, IsEvenBorder};
ghost use Rattle.grid_base.specs.declared.kinds.Kind.TheVariants.{Lines, Regions};
ghost use Rattle.rose_values.specs.declared.geometry.Geometry.TheVariants.{L, R};
ghost use Rattle.rose_values.specs.Border.{AreSegmentsAscending, IsBorder};
ghost use Rattle.rose_values.specs.Kinds.{takes_kinds};
ghost use Rattle.rose_values.specs.Operators.{HasWithin};
ghost use Rattle.rose_predicates.specs.Predicates.{IsInside, Meet, ReachesInto, ShareAPoint, IsTrueOf};
ghost use Rattle.rose_predicates.specs.declared.answering.HoldsError.TheVariants.{WrongTypes};

use crate::answering::HoldsError;
use crate::members::{all_segments_in, share_segment, share_vertex};
use crate::of_boxes::{lie_beside, reaches_out};
use crate::of_few::{are_few, one_reaches_into};
use grid_base::{NoMemory, Segment};
use rose_overlay::{ascending_segments, lesser_ends_first, within};
use rose_values::Pred;
use std::alloc::Global;

pub(crate) fn of_lines(
    alloc: Global,
    pred: Pred,
    a: &[Segment],
    b: &[Segment],
) -> Result<bool, HoldsError>
    requires noded { AreNoded (a.now ++ b.now) }
    requires ascending_first { AreSegmentsAscending a.now }
    requires ascending_second { AreSegmentsAscending b.now }
    ensures holds { IfOk result (λ answer. IsTrue answer ↔ IsTrueOf pred (L a.now) (L b.now)) }
    ensures wrong_types { (result ≡ Err WrongTypes) ↔ (takes_kinds pred Lines Lines ≡ false) }
{
    match pred {
        Pred::Equal => Ok(are_equal(a, b)),
        Pred::Disjoint => Ok(!share_vertex(alloc, a, b)?),
        Pred::Intersects => Ok(share_vertex(alloc, a, b)?),
        _ => Err(HoldsError::WrongTypes),
    }
}

// Whether the two have the same places: they have the same segments.
fn are_equal(a: &[Segment], b: &[Segment]) -> bool
    requires noded { AreNoded (a.now ++ b.now) }
    requires ascending_first { AreSegmentsAscending a.now }
    requires ascending_second { AreSegmentsAscending b.now }
    ensures { IsTrue result ↔ (IsInside (L a.now) (L b.now) × IsInside (L b.now) (L a.now)) }
{
    lesser_ends_first(a);
    lesser_ends_first(b);
    a == b
}

pub(crate) fn of_lines_and_region(
    alloc: Global,
    pred: Pred,
    lines: &[Segment],
    border: &[Segment],
) -> Result<bool, HoldsError>
    requires noded { AreNoded (lines.now ++ border.now) }
    requires border { IsBorder border.now }
    ensures holds { IfOk result (λ answer. IsTrue answer ↔ IsTrueOf pred (L lines.now) (R border.now)) }
    ensures wrong_types { (result ≡ Err WrongTypes) ↔ (takes_kinds pred Lines Regions ≡ false) }
{
    match pred {
        Pred::Inside => Ok(are_inside(alloc, lines, border)?),
        Pred::Disjoint => Ok(are_outside(alloc, lines, border)?),
        Pred::Intersects => Ok(reach_into(alloc, lines, border)?),
        Pred::Meets => Ok(meet(alloc, lines, border)?),
        Pred::OnBorderOf => Ok(are_on_border(lines, border)),
        Pred::BorderInCommon => Ok(share_segment(lines, border)),
        _ => Err(HoldsError::WrongTypes),
    }
}

// Whether each place of the lines is a point of the region: each segment lies in it.
fn are_inside(alloc: Global, lines: &[Segment], border: &[Segment]) -> Result<bool, NoMemory>
    requires noded { AreNoded (lines.now ++ border.now) }
    requires border { IsBorder border.now }
    ensures { IfOk result (λ answer. IsTrue answer ↔ IsInside (L lines.now) (R border.now)) }
{
    if reaches_out(lines, border) {
        return Ok(false);
    }
    let lying = lying_in(alloc, lines, border)?;
    Ok(all_segments_in(lines, &lying))
}

// Whether some place of the lines is interior to the region: a segment lies in it that isn't on the border.
fn reach_into(alloc: Global, lines: &[Segment], border: &[Segment]) -> Result<bool, NoMemory>
    requires noded { AreNoded (lines.now ++ border.now) }
    requires border { IsBorder border.now }
    ensures { IfOk result (λ answer. IsTrue answer ↔ ReachesInto (L lines.now) (R border.now)) }
{
    if lie_beside(lines, border) {
        return Ok(false);
    }
    if are_few(lines, border) {
        return Ok(one_reaches_into(lines, border));
    }
    lesser_ends_first(lines);
    lesser_ends_first(border);
    let lying = lying_in(alloc, lines, border)?;
    Ok(!all_segments_in(&lying, border))
}

// Whether no place of the lines is a point of the region.
fn are_outside(alloc: Global, lines: &[Segment], border: &[Segment]) -> Result<bool, NoMemory>
    requires noded { AreNoded (lines.now ++ border.now) }
    requires border { IsBorder border.now }
    ensures { IfOk result (λ answer. IsTrue answer ↔ ¬ ShareAPoint (L lines.now) (R border.now)) }
{
    lesser_ends_first(lines);
    lesser_ends_first(border);
    let touching = share_vertex(alloc, lines, border)?;
    if touching {
        return Ok(false);
    }
    let reaching = reach_into(alloc, lines, border)?;
    Ok(!reaching)
}

// Whether the lines touch the region and don't reach into it.
fn meet(alloc: Global, lines: &[Segment], border: &[Segment]) -> Result<bool, NoMemory>
    requires noded { AreNoded (lines.now ++ border.now) }
    requires border { IsBorder border.now }
    ensures { IfOk result (λ answer. IsTrue answer
        ↔ (ShareAPoint (L lines.now) (R border.now) × ¬ ReachesInto (L lines.now) (R border.now))) }
{
    lesser_ends_first(lines);
    lesser_ends_first(border);
    let touching = share_vertex(alloc, lines, border)?;
    if !touching {
        return Ok(false);
    }
    let reaching = reach_into(alloc, lines, border)?;
    Ok(!reaching)
}

// Whether each place of the lines is on the border: each segment is one of it.
fn are_on_border(lines: &[Segment], border: &[Segment]) -> bool
    requires noded { AreNoded (lines.now ++ border.now) }
    requires border { IsBorder border.now }
    ensures { IsTrue result ↔ IsInside (L lines.now) (L border.now) }
{
    lesser_ends_first(lines);
    all_segments_in(lines, border)
}

// The segments of the lines that lie in the region, ascending.
fn lying_in(alloc: Global, lines: &[Segment], border: &[Segment]) -> Result<Vec<Segment>, NoMemory>
    requires noded { AreNoded (lines.now ++ border.now) }
    requires border { IsBorder border.now }
    ensures ascending { IfOk result (λ v. AreSegmentsAscending v.items) }
    ensures within { IfOk result (λ v. HasWithin border.now lines.now v.items) }
{
    Ok(ascending_segments(within(alloc, border, lines)?))
}
