//! Small pairs with the answer of every predicate worked out by hand from the table.
ghost use Rattle.std.specs.Prelude.{◌≡◌, ◌++◌, IsTrue, All};
ghost use Rattle.grid_base.specs.Crossing.{Inside};
ghost use Rattle.rose_predicates.specs.Predicates.{points_of, AreOutside};

use crate::paper::{Row, joined, segments_in, value};
use grid_base::{Point, Segment, in_side};
use rose_predicates::{HoldsError, holds};
use rose_values::{Geometry, Pred};
use segment_lists::are_noded;
use std::alloc::Global;
use std::process::Abort;

// Whether the point is inside none of the segments.
fn is_outside(list: &[Segment], p: &Point) -> bool
    ensures { IsTrue result → All (λ s. ¬ Inside p.now s) list.now }
{
    list.iter().all(|s| !in_side(s, p))
}

// Whether none of the points is inside a segment.
fn are_outside(points: &[Point], list: &[Segment]) -> bool
    ensures { IsTrue result → AreOutside points.now list.now }
{
    points.iter().all(|p| is_outside(list, p))
}

// The points of the two values.
fn points_in(rt: &impl Abort, alloc: Global, a: &Geometry, b: &Geometry) -> Vec<Point>
    ensures { result.items ≡ points_of a.now ++ points_of b.now }
{
    let mut list = Vec::new(alloc);
    list.extend_from_slice(own_points(a)).expect(rt, "memory");
    list.extend_from_slice(own_points(b)).expect(rt, "memory");
    list
}

fn own_points(value: &Geometry) -> &[Point]
    ensures { result.now ≡ points_of value.now }
{
    match value {
        Geometry::P(points) => points.points(),
        _ => &[],
    }
}

static ALL: [Pred; 13] = [
    Pred::Equal,
    Pred::Inside,
    Pred::EdgeInside,
    Pred::VertexInside,
    Pred::AreaDisjoint,
    Pred::EdgeDisjoint,
    Pred::Disjoint,
    Pred::Intersects,
    Pred::Meets,
    Pred::Adjacent,
    Pred::Encloses,
    Pred::OnBorderOf,
    Pred::BorderInCommon,
];

// The answer of each predicate in this order: 1 where it holds, 0 where not, - where it doesn't take the kinds, and ? for want
// of memory.
fn answers(rt: &impl Abort, alloc: Global, a: &Geometry, b: &Geometry) -> String {
    let list = joined(rt, alloc, segments_in(a), segments_in(b));
    let given = points_in(rt, alloc, a, b);
    assert!(rt; are_noded(&list), "no realm");
    assert!(rt; are_outside(&given, &list), "a point inside a segment");
    let mut told = String::new(alloc);
    for pred in ALL.iter() {
        let answer = match holds(alloc, *pred, a, b) {
            Ok(true) => '1',
            Ok(false) => '0',
            Err(HoldsError::WrongTypes) => '-',
            Err(HoldsError::NoMemory) => '?',
        };
        told.push(answer).expect(rt, "memory");
    }
    told
}

const SMALL: Row = Row::R(&[[2, 2, 2, 4], [2, 2, 4, 2], [2, 4, 4, 4], [4, 2, 4, 4]]);

const LARGE: Row = Row::R(&[[0, 0, 0, 6], [0, 0, 6, 0], [0, 6, 6, 6], [6, 0, 6, 6]]);

const RIGHT: Row = Row::R(&[[4, 2, 4, 4], [4, 2, 6, 2], [4, 4, 6, 4], [6, 2, 6, 4]]);

const CORNER: Row = Row::R(&[[4, 4, 4, 6], [4, 4, 6, 4], [4, 6, 6, 6], [6, 4, 6, 6]]);

const FAR: Row = Row::R(&[[8, 8, 8, 9], [8, 8, 9, 8], [8, 9, 9, 9], [9, 8, 9, 9]]);

const KITE: Row = Row::R(&[[0, 0, 1, 3], [0, 0, 3, 1], [1, 3, 3, 3], [3, 1, 3, 3]]);

const RING: Row = Row::R(&[
    [0, 0, 0, 6],
    [0, 0, 6, 0],
    [0, 6, 6, 6],
    [2, 2, 2, 4],
    [2, 2, 4, 2],
    [2, 4, 4, 4],
    [4, 2, 4, 4],
    [6, 0, 6, 6],
]);

const WIDE_RING: Row = Row::R(&[
    [0, 0, 0, 6],
    [0, 0, 6, 0],
    [0, 6, 6, 6],
    [1, 1, 1, 5],
    [1, 1, 5, 1],
    [1, 5, 5, 5],
    [5, 1, 5, 5],
    [6, 0, 6, 6],
]);

const BESIDE: Row = Row::R(&[[6, 2, 6, 4], [6, 2, 8, 2], [6, 4, 8, 4], [8, 2, 8, 4]]);

const ABOVE: Row = Row::R(&[[2, 6, 2, 8], [2, 6, 4, 6], [2, 8, 4, 8], [4, 6, 4, 8]]);

const UPPER: Row = Row::R(&[[2, 4, 2, 6], [2, 4, 4, 4], [2, 6, 4, 6], [4, 4, 4, 6]]);

const DIAMOND: Row = Row::R(&[[0, 2, 2, 0], [0, 2, 2, 4], [2, 0, 4, 2], [2, 4, 4, 2]]);

const HOOK: Row = Row::R(&[
    [0, 0, 0, 8],
    [0, 0, 8, 0],
    [0, 8, 2, 8],
    [2, 2, 2, 8],
    [2, 2, 8, 2],
    [8, 0, 8, 2],
]);

const SMALL_AND_FAR: Row = Row::R(&[
    [2, 2, 2, 4],
    [2, 2, 4, 2],
    [2, 4, 4, 4],
    [4, 2, 4, 4],
    [8, 8, 8, 9],
    [8, 8, 9, 8],
    [8, 9, 9, 9],
    [9, 8, 9, 9],
]);

const NOTHING: Row = Row::R(&[]);

const BEND: Row = Row::L(&[[0, 0, 2, 2], [2, 2, 5, 2]]);

const RISING: Row = Row::L(&[[0, 0, 2, 2], [2, 2, 4, 4]]);

static PAIRS: [(Row, Row, &str); 66] = [
    // squares beside one another and in one another, with common sides and corners, rings, and nothing
    (SMALL, SMALL, "11000001000-1"),
    (SMALL, LARGE, "01110001000-0"),
    (LARGE, SMALL, "00000001000-0"),
    (KITE, LARGE, "01100001000-0"),
    (SMALL, RIGHT, "00001000010-1"),
    (SMALL, CORNER, "00001100100-0"),
    (SMALL, FAR, "00001110000-0"),
    (RING, SMALL, "00001000011-1"),
    (WIDE_RING, SMALL, "00001110001-0"),
    (SMALL, WIDE_RING, "00001110000-0"),
    (SMALL, NOTHING, "00001110001-0"),
    (NOTHING, SMALL, "01111110000-0"),
    (NOTHING, NOTHING, "11111110001-0"),
    // boxes apart in columns alone, and in rows alone
    (SMALL, BESIDE, "00001110000-0"),
    (BESIDE, SMALL, "00001110000-0"),
    (SMALL, ABOVE, "00001110000-0"),
    (ABOVE, SMALL, "00001110000-0"),
    (FAR, SMALL, "00001110000-0"),
    // boxes that touch in a side: along a segment, at a common vertex, and where the regions don't touch
    (RIGHT, SMALL, "00001000010-1"),
    (SMALL, UPPER, "00001000010-1"),
    (UPPER, SMALL, "00001000010-1"),
    (
        DIAMOND,
        Row::R(&[[4, 2, 6, 0], [4, 2, 6, 4], [6, 0, 8, 2], [6, 4, 8, 2]]),
        "00001100100-0",
    ),
    (
        DIAMOND,
        Row::R(&[[4, 3, 6, 1], [4, 3, 6, 5], [6, 1, 8, 3], [6, 5, 8, 3]]),
        "00001110000-0",
    ),
    (
        DIAMOND,
        Row::R(&[[0, 6, 2, 4], [0, 6, 2, 8], [2, 4, 4, 6], [2, 8, 4, 6]]),
        "00001100100-0",
    ),
    (
        DIAMOND,
        Row::R(&[[1, 6, 3, 4], [1, 6, 3, 8], [3, 4, 5, 6], [3, 8, 5, 6]]),
        "00001110000-0",
    ),
    // boxes that touch in a corner, with the regions and without
    (CORNER, SMALL, "00001100100-0"),
    (
        DIAMOND,
        Row::R(&[[4, 6, 6, 4], [4, 6, 6, 8], [6, 4, 8, 6], [6, 8, 8, 6]]),
        "00001110000-0",
    ),
    // one in the box of the other, and partly in it, without meeting; and some of it shut in
    (CORNER, HOOK, "00001110000-0"),
    (HOOK, CORNER, "00001110000-0"),
    (
        HOOK,
        Row::R(&[[4, 4, 4, 9], [4, 4, 9, 4], [4, 9, 9, 9], [9, 4, 9, 9]]),
        "00001110000-0",
    ),
    (WIDE_RING, SMALL_AND_FAR, "00001110000-0"),
    (SMALL_AND_FAR, SMALL, "00000001000-1"),
    (SMALL, SMALL_AND_FAR, "01000001000-1"),
    // nothing, and what is far from it
    (NOTHING, FAR, "01111110000-0"),
    (FAR, NOTHING, "00001110001-0"),
    // lines on the border, to a corner from outside and from inside, within, through, and none
    (Row::L(&[[2, 2, 2, 4]]), SMALL, "-1----001--11"),
    (Row::L(&[[4, 4, 6, 6]]), SMALL, "-0----001--00"),
    (Row::L(&[[3, 3, 4, 4]]), SMALL, "-1----010--00"),
    (Row::L(&[[2, 2, 4, 4]]), SMALL, "-1----010--00"),
    (
        Row::L(&[[1, 1, 2, 2], [2, 2, 4, 4]]),
        SMALL,
        "-0----010--00",
    ),
    (Row::L(&[[7, 7, 8, 9]]), SMALL, "-0----100--00"),
    (Row::L(&[]), SMALL, "-1----100--10"),
    (Row::L(&[[7, 7, 8, 9]]), NOTHING, "-0----100--00"),
    (Row::L(&[]), NOTHING, "-1----100--10"),
    // lines whose box is apart, touches a side with the region and without, and lies in that of the region
    (Row::L(&[[2, 6, 4, 6]]), SMALL, "-0----100--00"),
    (Row::L(&[[4, 2, 4, 5]]), DIAMOND, "-0----001--00"),
    (Row::L(&[[4, 3, 6, 3]]), DIAMOND, "-0----100--00"),
    (Row::L(&[[0, 0, 1, 0]]), DIAMOND, "-0----100--00"),
    (Row::L(&[[1, 2, 3, 2]]), DIAMOND, "-1----010--00"),
    // points at a corner, in a region, and outside
    (Row::P(&[[2, 2]]), SMALL, "-1----0----1-"),
    (Row::P(&[[2, 2], [3, 3]]), SMALL, "-1----0----0-"),
    (Row::P(&[[3, 3], [7, 7]]), SMALL, "-0----0----0-"),
    (Row::P(&[[3, 1], [7, 7]]), SMALL, "-0----1----0-"),
    (Row::P(&[]), SMALL, "-1----1----1-"),
    // points at an end, and off the lines
    (Row::P(&[[2, 2]]), BEND, "-1----0------"),
    (Row::P(&[[2, 2], [3, 3]]), BEND, "-0----0------"),
    (Row::P(&[[3, 3], [7, 7]]), BEND, "-0----1------"),
    (Row::P(&[]), BEND, "-1----1------"),
    // two lists of points
    (
        Row::P(&[[2, 2], [3, 3]]),
        Row::P(&[[3, 3], [2, 2]]),
        "1-----0------",
    ),
    (
        Row::P(&[[2, 2], [3, 3]]),
        Row::P(&[[2, 2]]),
        "0-----0------",
    ),
    (
        Row::P(&[[3, 3], [7, 7]]),
        Row::P(&[[2, 2]]),
        "0-----1------",
    ),
    (Row::P(&[]), Row::P(&[]), "1-----1------"),
    // lines that cross in a common end, that have a segment in common, and that don't touch
    (
        RISING,
        Row::L(&[[0, 0, 2, 2], [2, 2, 4, 4]]),
        "1-----01-----",
    ),
    (
        RISING,
        Row::L(&[[0, 4, 2, 2], [2, 2, 4, 0]]),
        "0-----01-----",
    ),
    (RISING, Row::L(&[[0, 0, 2, 2]]), "0-----01-----"),
    (RISING, Row::L(&[[9, 0, 9, 9]]), "0-----10-----"),
];

#[test]
fn each_predicate_answers(rt: HostRuntime) {
    let alloc = rt.alloc();
    for (a, b, wanted) in PAIRS.iter() {
        let told = answers(&rt, alloc, &value(&rt, alloc, a), &value(&rt, alloc, b));
        assert!(rt; told.as_str() == *wanted, "{a:?} {b:?}");
    }
}
