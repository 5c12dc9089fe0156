//! What the operators make of two values. The tables of triangles say which triangle of the paper is in a region,
//! so what an operator makes is known without it.
use crate::paper::{Row, is_same, joined, region, segment, segments_in, value};
use grid_base::{Point, Segment, Sides, above_at};
use rose_overlay::{EvalError, EvalResult, evaluate, evaluate_alone};
use rose_values::{Geometry, Op, RegionsValue};
use segment_lists::are_noded;
use side_parity::sides;
use std::alloc::Global;
use std::process::Abort;
use std::thread::Threads;

// What the operator makes of two values.
fn of_two(rt: &impl Abort, alloc: Global, op: Op, a: &Geometry, b: &Geometry) -> EvalResult {
    let all = joined(rt, alloc, segments_in(a), segments_in(b));
    assert!(rt; are_noded(&all), "no realm");
    assert!(rt; op != Op::Interior, "not of two");
    evaluate_alone(alloc, op, a, Some(b))
}

// The edges of four cells, each cut from its lower left to its upper right corner, and the triangles on the left
// and on the right of each as bits. What lies outside of the cells is 0.
static EDGES: [([u64; 4], u32, u32); 16] = [
    ([0, 0, 0, 4], 0, 1),
    ([0, 0, 4, 0], 2, 0),
    ([0, 0, 4, 4], 1, 2),
    ([0, 4, 0, 8], 0, 16),
    ([0, 4, 4, 4], 32, 1),
    ([0, 4, 4, 8], 16, 32),
    ([0, 8, 4, 8], 0, 16),
    ([4, 0, 4, 4], 2, 4),
    ([4, 0, 8, 0], 8, 0),
    ([4, 0, 8, 4], 4, 8),
    ([4, 4, 4, 8], 32, 64),
    ([4, 4, 8, 4], 128, 4),
    ([4, 4, 8, 8], 64, 128),
    ([4, 8, 8, 8], 0, 64),
    ([8, 0, 8, 4], 8, 0),
    ([8, 4, 8, 8], 128, 0),
];

// A point inside each triangle.
static INSIDE: [([u64; 2], u32); 8] = [
    ([1, 3], 1),
    ([3, 1], 2),
    ([5, 3], 4),
    ([7, 1], 8),
    ([1, 7], 16),
    ([3, 5], 32),
    ([5, 7], 64),
    ([7, 5], 128),
];

// Regions of triangles: none, one, two that meet in a corner, a cell, a ring, all.
static DRAWN: [u32; 8] = [0, 4, 33, 48, 150, 189, 219, 255];

// The edges that have a triangle of the region on one side alone.
fn border(rt: &impl Abort, alloc: Global, triangles: u32) -> Vec<Segment> {
    let mut list = Vec::new(alloc);
    for (ends, left, right) in EDGES.iter() {
        if (triangles & left == 0) != (triangles & right == 0) {
            list.push(segment(rt, ends)).expect(rt, "memory");
        }
    }
    list
}

// The region of the triangles.
fn drawn(rt: &impl Abort, alloc: Global, triangles: u32) -> RegionsValue {
    region(rt, border(rt, alloc, triangles))
}

// Whether an odd number of the segments is strictly above the point.
fn is_odd(border: &[Segment], p: &Point) -> bool {
    let mut odd = false;
    for s in border {
        odd = odd != above_at(s, p);
    }
    odd
}

// The points inside the triangles: one is odd where its triangle is in the region.
fn compare_points(rt: &impl Abort, alloc: Global, triangles: u32) {
    let found = border(rt, alloc, triangles);
    for ([x, y], triangle) in INSIDE.iter() {
        let p = Point::new(*x, *y).expect(rt, "a point");
        assert!(rt;
            is_odd(&found, &p) == (triangles & triangle != 0),
            "{triangles} {x} {y}"
        );
    }
}

// The sides of a segment, by the border of a region.
fn told(rt: &impl Abort, alloc: Global, region: &RegionsValue, s: &Segment) -> Sides {
    let mut all = Vec::new(alloc);
    all.push(*s).expect(rt, "memory");
    all.extend_from_slice(region.segments())
        .expect(rt, "memory");
    assert!(rt; are_noded(&all), "no realm");
    sides(region.segments(), s)
}

// Each edge has the sides that the table of edges says.
fn compare_sides(rt: &impl Abort, alloc: Global, triangles: u32) {
    let found = drawn(rt, alloc, triangles);
    for (ends, left, right) in EDGES.iter() {
        let want = Sides {
            left: triangles & left != 0,
            right: triangles & right != 0,
        };
        assert!(rt;
            told(rt, alloc, &found, &segment(rt, ends)) == want,
            "{triangles} {ends:?}"
        );
    }
}

#[test]
fn triangles_are_in_their_regions(rt: HostRuntime) {
    for triangles in DRAWN.iter() {
        compare_points(&rt, rt.alloc(), *triangles);
        compare_sides(&rt, rt.alloc(), *triangles);
    }
}

// What the operator makes of two regions of triangles is the region of the triangles that it keeps.
fn compare(rt: &impl Abort, alloc: Global, op: Op, first: u32, second: u32, want: u32) {
    let a = Geometry::R(drawn(rt, alloc, first));
    let b = Geometry::R(drawn(rt, alloc, second));
    let found = of_two(rt, alloc, op, &a, &b).expect(rt, "two regions");
    assert!(rt;
        segments_in(&found) == border(rt, alloc, want).as_slice(),
        "{op:?} {first} {second}"
    );
}

#[test]
fn regions_of_triangles_are_combined(rt: HostRuntime) {
    let alloc = rt.alloc();
    for first in DRAWN.iter() {
        for second in DRAWN.iter() {
            compare(
                &rt,
                alloc,
                Op::Intersection,
                *first,
                *second,
                *first & *second,
            );
            compare(&rt, alloc, Op::Plus, *first, *second, *first | *second);
            compare(&rt, alloc, Op::Minus, *first, *second, *first & !*second);
        }
    }
}

// Two squares that overlap, two parcels with a common border and a road through both, lines that cross, and lists that have an
// entry in common.
const FIRST: Row = Row::R(&[
    [0, 0, 0, 4],
    [0, 0, 4, 0],
    [0, 4, 2, 4],
    [2, 4, 4, 4],
    [4, 0, 4, 2],
    [4, 2, 4, 4],
]);

const SECOND: Row = Row::R(&[
    [2, 2, 2, 4],
    [2, 2, 4, 2],
    [2, 4, 2, 6],
    [2, 6, 6, 6],
    [4, 2, 6, 2],
    [6, 2, 6, 6],
]);

const PARCEL: Row = Row::R(&[
    [0, 0, 0, 30],
    [0, 0, 100, 0],
    [0, 30, 0, 60],
    [0, 60, 100, 60],
    [100, 0, 100, 30],
    [100, 30, 100, 60],
]);

const NEXT: Row = Row::R(&[
    [100, 0, 100, 30],
    [100, 0, 180, 0],
    [100, 30, 100, 60],
    [100, 60, 180, 60],
    [180, 0, 180, 30],
    [180, 30, 180, 60],
]);

const ROAD: Row = Row::L(&[[0, 30, 100, 30], [100, 30, 180, 30]]);

const RISING: Row = Row::L(&[[0, 0, 2, 2], [2, 2, 4, 4]]);

const FALLING: Row = Row::L(&[[0, 4, 2, 2], [2, 2, 4, 0]]);

const LEVEL: Row = Row::L(&[[0, 0, 2, 0], [2, 0, 4, 0]]);

const BENT: Row = Row::L(&[[2, 0, 4, 0], [4, 0, 4, 9]]);

const THREE: Row = Row::P(&[[0, 0], [3, 4], [5, 5]]);

const TWO: Row = Row::P(&[[3, 4], [4, 3]]);

const ONE_POINT: Row = Row::P(&[[0, 0]]);

const ONE_LINE: Row = Row::L(&[[0, 0, 2, 0]]);

const EMPTY: Row = Row::R(&[]);

/// An operator, its values, and what it makes of them; none where it doesn't take their kinds.
type Case = (Op, Row, Row, Option<Row>);

static CASES: [Case; 22] = [
    (
        Op::Intersection,
        FIRST,
        SECOND,
        Some(Row::R(&[[2, 2, 2, 4], [2, 2, 4, 2], [2, 4, 4, 4], [4, 2, 4, 4]])),
    ),
    (
        Op::Plus,
        FIRST,
        SECOND,
        Some(Row::R(&[
            [0, 0, 0, 4],
            [0, 0, 4, 0],
            [0, 4, 2, 4],
            [2, 4, 2, 6],
            [2, 6, 6, 6],
            [4, 0, 4, 2],
            [4, 2, 6, 2],
            [6, 2, 6, 6],
        ])),
    ),
    (
        Op::Minus,
        FIRST,
        SECOND,
        Some(Row::R(&[
            [0, 0, 0, 4],
            [0, 0, 4, 0],
            [0, 4, 2, 4],
            [2, 2, 2, 4],
            [2, 2, 4, 2],
            [4, 0, 4, 2],
        ])),
    ),
    (Op::CommonBorder, FIRST, SECOND, Some(Row::L(&[]))),
    (
        Op::CommonBorder,
        PARCEL,
        NEXT,
        Some(Row::L(&[[100, 0, 100, 30], [100, 30, 100, 60]])),
    ),
    (
        Op::Intersection,
        PARCEL,
        ROAD,
        Some(Row::L(&[[0, 30, 100, 30]])),
    ),
    (
        Op::Intersection,
        NEXT,
        ROAD,
        Some(Row::L(&[[100, 30, 180, 30]])),
    ),
    (Op::Intersection, PARCEL, NEXT, Some(EMPTY)),
    (Op::Minus, PARCEL, NEXT, Some(PARCEL)),
    (Op::Intersection, RISING, FALLING, Some(Row::P(&[[2, 2]]))),
    (Op::Intersection, RISING, RISING, Some(Row::P(&[]))),
    (Op::Intersection, LEVEL, BENT, Some(Row::P(&[]))),
    (Op::Intersection, THREE, TWO, Some(Row::P(&[[3, 4]]))),
    (
        Op::Plus,
        THREE,
        TWO,
        Some(Row::P(&[[0, 0], [3, 4], [4, 3], [5, 5]])),
    ),
    (Op::Minus, THREE, TWO, Some(Row::P(&[[0, 0], [5, 5]]))),
    (
        Op::Plus,
        LEVEL,
        BENT,
        Some(Row::L(&[[0, 0, 2, 0], [2, 0, 4, 0], [4, 0, 4, 9]])),
    ),
    (Op::Minus, LEVEL, BENT, Some(ONE_LINE)),
    (Op::Intersection, ONE_LINE, EMPTY, None),
    (Op::Intersection, ONE_POINT, ONE_LINE, None),
    (Op::Plus, EMPTY, ONE_LINE, None),
    (Op::CommonBorder, ONE_LINE, ONE_LINE, None),
    (Op::Contour, EMPTY, EMPTY, None),
];

// Whether this was made; where none is wanted, whether the operator doesn't take the kinds.
pub(crate) fn is_made(
    rt: &impl Abort,
    alloc: Global,
    found: &EvalResult,
    wanted: &Option<Row>,
) -> bool {
    match (found, wanted) {
        (Ok(found), Some(row)) => is_same(found, &value(rt, alloc, row)),
        (Err(error), None) => *error == EvalError::WrongTypes,
        _ => false,
    }
}

#[test]
fn values_are_combined(rt: HostRuntime) {
    let alloc = rt.alloc();
    for (op, a, b, wanted) in CASES.iter() {
        let found = of_two(
            &rt,
            alloc,
            *op,
            &value(&rt, alloc, a),
            &value(&rt, alloc, b),
        );
        assert!(rt; is_made(&rt, alloc, &found, wanted), "{op:?} {a:?} {b:?}");
    }
}

// Which cells of a sheet are meant: those of the first region, those of the second, or those of what is made of both.
#[derive(Clone, Copy)]
enum Cells {
    First,
    Second,
    Made(Op),
}

// Whether the cell in this column and row of a sheet is meant. They are drawn as if by lot.
fn is_meant(cells: Cells, column: u64, row: u64) -> bool {
    let lot = column
        .wrapping_mul(0x9e37_79b9_7f4a_7c15)
        .wrapping_add(row.wrapping_mul(0xc2b2_ae3d_27d4_eb4f));
    let lot = lot ^ lot >> 29;
    let lot = lot.wrapping_mul(0xbf58_476d_1ce4_e5b9);
    let first = lot >> 40 & 1 == 1;
    let second = lot >> 50 & 1 == 1;
    match cells {
        Cells::First => first,
        Cells::Second => second,
        Cells::Made(Op::Intersection) => first && second,
        Cells::Made(Op::Plus) => first || second,
        Cells::Made(_) => first && !second,
    }
}

// The same, for a sheet with so many columns and rows, from 1 on.
fn is_drawn(cells: Cells, columns: u64, rows: u64, x: u64, y: u64) -> bool {
    1 <= x && x <= columns && 1 <= y && y <= rows && is_meant(cells, x, y)
}

// The region of the cells that are meant.
fn sheet(rt: &impl Abort, alloc: Global, cells: Cells, columns: u16, rows: u16) -> RegionsValue {
    let (columns, rows) = (u64::from(columns), u64::from(rows));
    let mut list = Vec::new(alloc);
    for x in 0..=columns {
        for y in 0..=rows {
            let (left, low) = (4 * x, 4 * y);
            let is_in = is_drawn(cells, columns, rows, x, y);
            if is_in != is_drawn(cells, columns, rows, x + 1, y) {
                list.push(segment(rt, &[left + 4, low, left + 4, low + 4]))
                    .expect(rt, "memory");
            }
            if is_in != is_drawn(cells, columns, rows, x, y + 1) {
                list.push(segment(rt, &[left, low + 4, left + 4, low + 4]))
                    .expect(rt, "memory");
            }
        }
    }
    region(rt, list)
}

// What the operators make of two regions, by threads where they are large, is drawn.
fn compare_sheets<R: Threads + Sync + Abort>(rt: &R, alloc: Global, columns: u16, rows: u16) {
    let a = Geometry::R(sheet(rt, alloc, Cells::First, columns, rows));
    let b = Geometry::R(sheet(rt, alloc, Cells::Second, columns, rows));
    let all = joined(rt, alloc, segments_in(&a), segments_in(&b));
    assert!(rt; are_noded(&all), "no realm");
    for op in OPS.iter() {
        assert!(rt; *op != Op::Interior);
        let found = evaluate(rt, alloc, *op, &a, Some(&b)).expect(rt, "two regions");
        let wanted = sheet(rt, alloc, Cells::Made(*op), columns, rows);
        assert!(rt;
            segments_in(&found) == wanted.segments(),
            "{op:?} on {columns} by {rows}"
        );
    }
}

static OPS: [Op; 3] = [Op::Intersection, Op::Plus, Op::Minus];

// One thread is enough for the first sheet. The others are cut into strips, on whose edges upright segments stand and
// others have ends; the last has all in one column.
#[test]
fn strips_make_what_is_drawn(rt: HostRuntime) {
    compare_sheets(&rt, rt.alloc(), 4, 5);
    compare_sheets(&rt, rt.alloc(), 40, 60);
    compare_sheets(&rt, rt.alloc(), 1, 1_400);
}
