//! Segments by the coordinates of their ends, as tables write them, and the values that they make.
ghost use Rattle.grid_base.specs.Border.{AreNoded};
ghost use Rattle.rose_values.specs.Border.{AreSegmentsAscending};

use grid_base::Segment;
use rose_values::RegionsValue;
use segment_lists::{are_noded, ascending_segments, segment_with};
use std::alloc::Global;
use std::process::Abort;

// The segments with these ends, in the order of the table.
pub(crate) fn listed(rt: &impl Abort, alloc: Global, table: &[[u64; 4]]) -> Vec<Segment> {
    let mut list = Vec::new(alloc);
    for ends in table {
        let s = segment_with(ends).expect(rt, "a segment");
        list.push(s).expect(rt, "memory");
    }
    list
}

// The same, in order.
pub(crate) fn segments(rt: &impl Abort, alloc: Global, table: &[[u64; 4]]) -> Vec<Segment>
    ensures ascending { AreSegmentsAscending result.items }
{
    ascending_segments(listed(rt, alloc, table))
}

// The same, which are those of a realm.
pub(crate) fn realm(rt: &impl Abort, alloc: Global, table: &[[u64; 4]]) -> Vec<Segment>
    ensures ascending { AreSegmentsAscending result.items }
    ensures noded { AreNoded result.items }
{
    let list = segments(rt, alloc, table);
    assert!(rt; are_noded(&list), "no realm");
    list
}

// The region with this border.
pub(crate) fn region(rt: &impl Abort, alloc: Global, table: &[[u64; 4]]) -> RegionsValue {
    RegionsValue::from_segments(realm(rt, alloc, table)).expect(rt, "an even border")
}
