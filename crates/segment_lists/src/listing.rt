//! Segments made of tables of numbers, and put in order.
ghost use Rattle.std.specs.Prelude.{◌≡◌, ◌↔◌, IsSome, IfSome, IfOk, All, AllPairs, Contains, map};
ghost use Rattle.grid_base.specs.Segment.{GridSegment, IsSegmentBefore};
ghost use Rattle.segment_lists.specs.Ends.{AreEnds, between_ends};

use grid_base::{NoMemory, Point, Segment};
use std::alloc::Global;

/// The segment with these ends, in either order: the column and the row of the one, and those of the other. None
/// where a coordinate is off the grid, or where both ends are one point.
pub fn segment_with(ends: &[u64; 4]) -> Option<Segment>
    ensures none { IsSome result ↔ AreEnds ends.now }
    ensures some { IfSome result (λ s. s ≡ between_ends ends.now) }
{
    let p = Point::new(ends[0], ends[1]).ok()?;
    let q = Point::new(ends[2], ends[3]).ok()?;
    Segment::new(p, q)
}

/// The segments with these ends, in the order of the table. None where there is none with some of them.
pub fn segments_with(alloc: Global, table: &[[u64; 4]]) -> Result<Option<Vec<Segment>>, NoMemory>
    ensures none { IfOk result (λ found. IsSome found ↔ All AreEnds table.now) }
    ensures some { IfOk result (λ found. IfSome found (λ v. v.items ≡ map between_ends table.now)) }
{
    let mut list = Vec::new(alloc);
    for ends in table {
        let Some(s) = segment_with(ends) else {
            return Ok(None);
        };
        list.push(s)?;
    }
    Ok(Some(list))
}

/// The segments, ascending and each once.
pub fn ascending_segments(list: Vec<Segment>) -> Vec<Segment>
    ensures ascending { AllPairs IsSegmentBefore result.items }
    ensures same { (s : GridSegment) → Contains result.items s ↔ Contains list.items s }
{
    let mut list = list;
    list.sort_unstable();
    list.dedup();
    list
}
