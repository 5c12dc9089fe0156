//! Values as tables write them: a point is two numbers, and a segment four, those of its ends.
ghost use Rattle.std.specs.Prelude.{◌≡◌, ◌++◌};
ghost use Rattle.rose_values.specs.Operators.{segments_of};

use grid_base::{Point, Segment};
use rose_overlay::{ascending_points, ascending_segments};
use rose_values::{Geometry, LinesValue, PointsValue, RegionsValue};
use segment_lists::{are_noded, segment_with};
use std::alloc::Global;
use std::process::Abort;

/// A list of points, a list of lines, or the border of a region.
#[derive(Clone, Copy, Debug)]
pub(crate) enum Row {
    P(&'static [[u64; 2]]),
    L(&'static [[u64; 4]]),
    R(&'static [[u64; 4]]),
}

// The segment with these ends.
pub(crate) fn segment(rt: &impl Abort, ends: &[u64; 4]) -> Segment {
    segment_with(ends).expect(rt, "a segment")
}

// The segments with these ends, in the order of the table.
fn segments(rt: &impl Abort, alloc: Global, table: &[[u64; 4]]) -> Vec<Segment> {
    let mut list = Vec::new(alloc);
    for ends in table {
        list.push(segment(rt, ends)).expect(rt, "memory");
    }
    list
}

// The points of the table, in its order.
fn points(rt: &impl Abort, alloc: Global, table: &[[u64; 2]]) -> Vec<Point> {
    let mut list = Vec::new(alloc);
    for [x, y] in table {
        let p = Point::new(*x, *y).expect(rt, "a point");
        list.push(p).expect(rt, "memory");
    }
    list
}

// The value of these lines.
fn lines(rt: &impl Abort, list: Vec<Segment>) -> LinesValue {
    let list = ascending_segments(list);
    assert!(rt; are_noded(&list), "no realm");
    LinesValue::new(list)
}

// The region that these segments are the border of.
pub(crate) fn region(rt: &impl Abort, list: Vec<Segment>) -> RegionsValue {
    let list = ascending_segments(list);
    assert!(rt; are_noded(&list), "no realm");
    RegionsValue::from_segments(list).expect(rt, "an even border")
}

// The value of the row.
pub(crate) fn value(rt: &impl Abort, alloc: Global, row: &Row) -> Geometry {
    match *row {
        Row::P(table) => Geometry::P(PointsValue::new(ascending_points(points(rt, alloc, table)))),
        Row::L(table) => Geometry::L(lines(rt, segments(rt, alloc, table))),
        Row::R(table) => Geometry::R(region(rt, segments(rt, alloc, table))),
    }
}

// Whether the values have one kind, and one list of points or of segments.
pub(crate) fn is_same(a: &Geometry, b: &Geometry) -> bool {
    match (a, b) {
        (Geometry::P(a), Geometry::P(b)) => a.points() == b.points(),
        (Geometry::L(a), Geometry::L(b)) => a.segments() == b.segments(),
        (Geometry::R(a), Geometry::R(b)) => a.segments() == b.segments(),
        _ => false,
    }
}

// The segments of a value.
pub(crate) fn segments_in(value: &Geometry) -> &[Segment]
    ensures { result.now ≡ segments_of value.now }
{
    match value {
        Geometry::P(_) => &[],
        Geometry::L(lines) => lines.segments(),
        Geometry::R(region) => region.segments(),
    }
}

// The segments of both.
pub(crate) fn joined(rt: &impl Abort, alloc: Global, a: &[Segment], b: &[Segment]) -> Vec<Segment>
    ensures { result.items ≡ a.now ++ b.now }
{
    let mut list = Vec::new(alloc);
    list.extend_from_slice(a).expect(rt, "memory");
    list.extend_from_slice(b).expect(rt, "memory");
    list
}
