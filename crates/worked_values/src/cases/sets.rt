//! Sums, parts, overlays and fusions: two squares that overlap, a ring with an island, and rows of squares.
ghost use Rattle.std.specs.Prelude.{◌≡◌, IfOk};
ghost use Rattle.rose_values.specs.Operators.{segments_of};
ghost use Rattle.rose_sets.specs.Sums.{all_segments};

use crate::paper::{listed, realm, region, segments};
use grid_base::{NoMemory, Point, Segment};
use rose_overlay::ascending_points;
use rose_sets::{Group, Pair, SetError, decompose, fusion, one_sum, overlay, sum, sum_of_parts};
use rose_values::{Geometry, LinesValue, PointsValue};
use segment_lists::are_noded;
use std::alloc::Global;
use std::process::Abort;

fn points(rt: &impl Abort, alloc: Global, table: &[[u64; 2]]) -> Geometry {
    let mut list = Vec::new(alloc);
    for [x, y] in table {
        list.push(Point::new(*x, *y).expect(rt, "a point"))
            .expect(rt, "memory");
    }
    Geometry::P(PointsValue::new(ascending_points(list)))
}

fn lines(rt: &impl Abort, alloc: Global, table: &[[u64; 4]]) -> Geometry {
    Geometry::L(LinesValue::new(realm(rt, alloc, table)))
}

fn square(rt: &impl Abort, alloc: Global, table: &[[u64; 4]]) -> Geometry {
    Geometry::R(region(rt, alloc, table))
}

// The segments of the value.
fn segments_of(g: &Geometry) -> &[Segment]
    ensures { result.now ≡ segments_of g.now }
{
    match g {
        Geometry::L(lines) => lines.segments(),
        Geometry::R(region) => region.segments(),
        Geometry::P(_) => &[],
    }
}

// The points of the value.
fn points_of(g: &Geometry) -> &[Point] {
    match g {
        Geometry::P(points) => points.points(),
        _ => &[],
    }
}

// The segments of all the values.
fn together(alloc: Global, list: &[Geometry]) -> Result<Vec<Segment>, NoMemory>
    ensures { IfOk result (λ v. v.items ≡ all_segments list.now) }
{
    let mut all = Vec::new(alloc);
    for g in list {
        all.extend_from_slice(segments_of(g))?;
    }
    Ok(all)
}

// The same.
fn all_of(rt: &impl Abort, alloc: Global, list: &[Geometry]) -> Vec<Segment>
    ensures { result.items ≡ all_segments list.now }
{
    together(alloc, list).expect(rt, "memory")
}

// The sum of values whose segments are those of one realm.
fn summed(rt: &impl Abort, alloc: Global, list: &[Geometry]) -> Result<Geometry, SetError> {
    assert!(rt; are_noded(&all_of(rt, alloc, list)), "no realm");
    sum(alloc, list)
}

// The overlay of such values.
fn overlaid(
    rt: &impl Abort,
    alloc: Global,
    a: &[Geometry],
    b: &[Geometry],
) -> Result<Vec<Pair>, SetError> {
    let mut all = all_of(rt, alloc, a);
    all.extend_from_slice(&all_of(rt, alloc, b))
        .expect(rt, "memory");
    assert!(rt; are_noded(&all), "no realm");
    overlay(alloc, a, b)
}

// The fusion of such values.
fn fused(
    rt: &impl Abort,
    alloc: Global,
    list: &[Geometry],
    keys: &[u64],
) -> Result<Vec<Group>, SetError> {
    assert!(rt; are_noded(&all_of(rt, alloc, list)), "no realm");
    assert!(rt; keys.len() == list.len(), "a key for each");
    fusion(alloc, list, keys)
}

// Whether the value has the segments of the table.
fn has_segments(rt: &impl Abort, alloc: Global, g: &Geometry, table: &[[u64; 4]]) -> bool {
    segments_of(g) == segments(rt, alloc, table).as_slice()
}

// Two squares of side 4, the second 2 further up and to the right, cut where they cross.
static LOWER: [[u64; 4]; 6] = [
    [0, 0, 0, 4],
    [0, 0, 4, 0],
    [0, 4, 2, 4],
    [2, 4, 4, 4],
    [4, 0, 4, 2],
    [4, 2, 4, 4],
];

static UPPER: [[u64; 4]; 6] = [
    [2, 2, 2, 4],
    [2, 4, 2, 6],
    [2, 2, 4, 2],
    [4, 2, 6, 2],
    [2, 6, 6, 6],
    [6, 2, 6, 6],
];

static UNION: [[u64; 4]; 8] = [
    [0, 0, 0, 4],
    [0, 0, 4, 0],
    [0, 4, 2, 4],
    [2, 4, 2, 6],
    [2, 6, 6, 6],
    [4, 0, 4, 2],
    [4, 2, 6, 2],
    [6, 2, 6, 6],
];

static COMMON: [[u64; 4]; 4] = [[2, 2, 2, 4], [2, 2, 4, 2], [2, 4, 4, 4], [4, 2, 4, 4]];

#[test]
fn two_squares_make_one_region(rt: HostRuntime) {
    one_sum();
    let alloc = rt.alloc();
    let (lower, upper) = (square(&rt, alloc, &LOWER), square(&rt, alloc, &UPPER));
    let list = vec![in alloc; lower, upper].expect(&rt, "memory");
    let found = summed(&rt, alloc, &list).expect(&rt, "a sum");
    assert!(rt; has_segments(&rt, alloc, &found, &UNION));
}

#[test]
fn two_squares_have_a_square_in_common(rt: HostRuntime) {
    let alloc = rt.alloc();
    let a = vec![in alloc; square(&rt, alloc, &LOWER)].expect(&rt, "memory");
    let b = vec![in alloc; square(&rt, alloc, &UPPER)].expect(&rt, "memory");
    let found = overlaid(&rt, alloc, &a, &b).expect(&rt, "an overlay");
    assert!(rt; found.len() == 1);
    for pair in &found {
        assert!(rt; pair.i == 1 && pair.j == 1);
        assert!(rt; has_segments(&rt, alloc, &pair.g, &COMMON));
    }
}

#[test]
fn points_are_gathered_by_keys(rt: HostRuntime) {
    let alloc = rt.alloc();
    let (p, q) = (points(&rt, alloc, &[[1, 1]]), points(&rt, alloc, &[[2, 2]]));
    let r = points(&rt, alloc, &[[3, 3]]);
    let list = vec![in alloc; p, q, r].expect(&rt, "memory");
    let found = fused(&rt, alloc, &list, &[5, 2, 5]).expect(&rt, "a fusion");
    assert!(rt; found.len() == 2);
    let mut keys = Vec::new(alloc);
    let mut counts = Vec::new(alloc);
    for group in &found {
        keys.push(group.key).expect(&rt, "memory");
        counts.push(points_of(&group.g).len()).expect(&rt, "memory");
    }
    assert!(rt; keys.as_slice() == [2, 5].as_slice());
    assert!(rt; counts.as_slice() == [1, 2].as_slice());
}

#[test]
fn lines_are_cut_and_not_added_to_points(rt: HostRuntime) {
    let alloc = rt.alloc();
    let l = lines(&rt, alloc, &[[0, 0, 1, 0], [5, 5, 6, 5]]);
    let parts = decompose(alloc, &l).expect(&rt, "memory");
    assert!(rt; parts.len() == 2);
    assert!(rt; all_of(&rt, alloc, &parts).as_slice() == segments_of(&l));
    let list = vec![in alloc; points(&rt, alloc, &[[1, 1]]), l].expect(&rt, "memory");
    assert!(rt; summed(&rt, alloc, &list).err() == Some(SetError::WrongTypes));
    assert!(rt; summed(&rt, alloc, &[]).err() == Some(SetError::WrongTypes));
}

// A square with a hole, a square in the hole, and one that touches the first in a corner.
static RING: [[u64; 4]; 8] = [
    [0, 0, 0, 10],
    [0, 0, 10, 0],
    [0, 10, 10, 10],
    [2, 2, 2, 8],
    [2, 2, 8, 2],
    [2, 8, 8, 8],
    [8, 2, 8, 8],
    [10, 0, 10, 10],
];

static ISLAND: [[u64; 4]; 4] = [[4, 4, 4, 6], [4, 4, 6, 4], [4, 6, 6, 6], [6, 4, 6, 6]];

static CORNER: [[u64; 4]; 4] = [
    [10, 10, 10, 12],
    [10, 10, 12, 10],
    [10, 12, 12, 12],
    [12, 10, 12, 12],
];

#[test]
fn faces_are_regions_of_their_own(rt: HostRuntime) {
    sum_of_parts();
    let alloc = rt.alloc();
    let mut all = Vec::new(alloc);
    for table in [&CORNER[..], &ISLAND[..], &RING[..]] {
        all.extend_from_slice(table).expect(&rt, "memory");
    }
    let whole = square(&rt, alloc, &all);
    let parts = decompose(alloc, &whole).expect(&rt, "memory");
    assert!(rt; parts.len() == 3);
    let mut wanted = listed(&rt, alloc, &RING);
    wanted
        .extend_from_slice(&listed(&rt, alloc, &ISLAND))
        .expect(&rt, "memory");
    wanted
        .extend_from_slice(&listed(&rt, alloc, &CORNER))
        .expect(&rt, "memory");
    assert!(rt; all_of(&rt, alloc, &parts).as_slice() == wanted.as_slice());
    let again = sum(alloc, &parts).expect(&rt, "a sum");
    assert!(rt; segments_of(&again) == segments_of(&whole));
}

// Unit squares in a row, by their left columns 0, 1, 2 and 5.
static FIRST: [[u64; 4]; 4] = [[0, 0, 0, 1], [0, 0, 1, 0], [0, 1, 1, 1], [1, 0, 1, 1]];

static SECOND: [[u64; 4]; 4] = [[1, 0, 1, 1], [1, 0, 2, 0], [1, 1, 2, 1], [2, 0, 2, 1]];

static THIRD: [[u64; 4]; 4] = [[2, 0, 2, 1], [2, 0, 3, 0], [2, 1, 3, 1], [3, 0, 3, 1]];

static SIXTH: [[u64; 4]; 4] = [[5, 0, 5, 1], [5, 0, 6, 0], [5, 1, 6, 1], [6, 0, 6, 1]];

static STRIP: [[u64; 4]; 8] = [
    [0, 0, 0, 1],
    [0, 0, 1, 0],
    [0, 1, 1, 1],
    [1, 0, 2, 0],
    [1, 1, 2, 1],
    [2, 0, 3, 0],
    [2, 1, 3, 1],
    [3, 0, 3, 1],
];

#[test]
fn a_row_of_squares_is_one_strip(rt: HostRuntime) {
    let alloc = rt.alloc();
    let (first, second) = (square(&rt, alloc, &FIRST), square(&rt, alloc, &SECOND));
    let third = square(&rt, alloc, &THIRD);
    let list = vec![in alloc; second, first, third].expect(&rt, "memory");
    let found = summed(&rt, alloc, &list).expect(&rt, "a sum");
    assert!(rt; has_segments(&rt, alloc, &found, &STRIP));
    let zones = vec![in alloc;
        square(&rt, alloc, &SIXTH),
        square(&rt, alloc, &SECOND),
        found,
    ];
    let zones = zones.expect(&rt, "memory");
    let mut at = Vec::new(alloc);
    for pair in &overlaid(&rt, alloc, &list, &zones).expect(&rt, "an overlay") {
        at.push((pair.i, pair.j)).expect(&rt, "memory");
    }
    assert!(rt; at.as_slice() == [(1, 2), (1, 3), (2, 3), (3, 3)].as_slice());
}
