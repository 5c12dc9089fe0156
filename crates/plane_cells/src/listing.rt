//! Segments in ascending lists, and lists in any order made such.
ghost use Rattle.std.specs.Prelude.{◌≡◌, ◌↔◌, ◌<◌, IsTrue, IfOk, length, AllPairs, Contains};
ghost use Rattle.grid_base.specs.Segment.{GridSegment, IsSegmentBefore};
ghost use Rattle.plane_cells.specs.Numbered.{numbered};
ghost use Rattle.plane_cells.specs.OtherNumbers.{HaveSameSegments};

use grid_base::{NoMemory, Segment};
use segment_lists::ascending_segments;
use std::alloc::Global;

// Whether the list has the segment.
pub(crate) fn has(list: &[Segment], s: &Segment) -> bool
    requires { AllPairs IsSegmentBefore list.now }
    ensures { IsTrue result ↔ Contains list.now s.now }
{
    list.binary_search(s).is_ok()
}

// The number of a segment that the list has.
pub(crate) fn number_of(list: &[Segment], s: &Segment) -> usize
    requires ascending { AllPairs IsSegmentBefore list.now }
    requires there { Contains list.now s.now }
    ensures within { result < length list.now }
    ensures number { numbered list.now result ≡ s.now }
{
    match list.binary_search(s) {
        Ok(i) | Err(i) => i,
    }
}

// The segments of the list, ascending and each once.
pub(crate) fn in_order(alloc: Global, list: &[Segment]) -> Result<Vec<Segment>, NoMemory>
    ensures ascending { IfOk result (λ v. AllPairs IsSegmentBefore v.items) }
    ensures members { IfOk result (λ v. HaveSameSegments v.items list.now) }
{
    let mut copy = Vec::new(alloc);
    copy.extend_from_slice(list)?;
    Ok(ascending_segments(copy))
}

// The segments of the list that the other one hasn't.
pub(crate) fn without(
    alloc: Global,
    list: &[Segment],
    other: &[Segment],
) -> Result<Vec<Segment>, NoMemory>
    requires list_ascending { AllPairs IsSegmentBefore list.now }
    requires other_ascending { AllPairs IsSegmentBefore other.now }
    ensures ascending { IfOk result (λ v. AllPairs IsSegmentBefore v.items) }
    ensures members { IfOk result (λ v. (s : GridSegment) → Contains v.items s
        ↔ (Contains list.now s × ¬ Contains other.now s)) }
{
    let mut kept = Vec::new(alloc);
    for s in list {
        if !has(other, s) {
            kept.push(*s)?;
        }
    }
    Ok(kept)
}
