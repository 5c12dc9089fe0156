//! Numbers of values: the triangle with sides 3, 4 and 5, areas by hand, and faces as they are seen on the paper.
ghost use Rattle.rose_values.specs.Border.{ArePointsAscending};

use crate::paper::{realm, region};
use grid_base::Point;
use rose_measure::{area2, components, diameter2, dist2};
use rose_overlay::ascending_points;
use rose_values::{Geometry, LinesValue, PointsValue};
use std::alloc::Global;
use std::process::Abort;

// The list of one point.
fn single(rt: &impl Abort, alloc: Global, x: u64, y: u64) -> Vec<Point>
    ensures { ArePointsAscending result.items }
{
    let p = Point::new(x, y).expect(rt, "a point");
    let mut list = Vec::new(alloc);
    list.push(p).expect(rt, "memory");
    list
}

#[test]
fn three_and_four_make_five(rt: HostRuntime) {
    let near = PointsValue::new(single(&rt, rt.alloc(), 0, 0));
    let far = PointsValue::new(single(&rt, rt.alloc(), 3, 4));
    assert!(rt; dist2(&near, &far) == Some(25));
    assert!(rt; diameter2(&Geometry::P(near)) == Some(0));
    let lines = LinesValue::new(realm(&rt, rt.alloc(), &[[0, 0, 3, 4]]));
    assert!(rt; diameter2(&Geometry::L(lines)) == Some(25));
}

// No points, which ascend.
fn nowhere(alloc: Global) -> Vec<Point>
    ensures { ArePointsAscending result.items }
{
    Vec::new(alloc)
}

#[test]
fn nothing_has_no_distance(rt: HostRuntime) {
    let none = PointsValue::new(nowhere(rt.alloc()));
    let near = PointsValue::new(single(&rt, rt.alloc(), 0, 0));
    assert!(rt; dist2(&near, &none).is_none());
    assert!(rt; diameter2(&Geometry::P(none)).is_none());
}

// Points of the grid on a circle with the radius 1105 round (1105, 1105): of each row the columns and the rows of
// four of them, and the rows and the columns of four others.
static CIRCLE: [[u64; 4]; 13] = [
    [1058, 1152, 1, 2209],
    [1000, 1210, 5, 2205],
    [936, 1274, 13, 2197],
    [841, 1369, 32, 2178],
    [833, 1377, 34, 2176],
    [680, 1530, 85, 2125],
    [637, 1573, 104, 2106],
    [585, 1625, 130, 2080],
    [544, 1666, 153, 2057],
    [529, 1681, 162, 2048],
    [442, 1768, 221, 1989],
    [405, 1805, 250, 1960],
    [361, 1849, 288, 1922],
];

// The point, and that with its coordinates exchanged.
fn add_both(rt: &impl Abort, list: &mut Vec<Point>, x: u64, y: u64) {
    list.push(Point::new(x, y).expect(rt, "a point"))
        .expect(rt, "memory");
    list.push(Point::new(y, x).expect(rt, "a point"))
        .expect(rt, "memory");
}

#[test]
fn a_circle_is_two_radii_wide(rt: HostRuntime) {
    let mut list = Vec::new(rt.alloc());
    for [left, right, low, high] in CIRCLE.iter() {
        add_both(&rt, &mut list, *left, *low);
        add_both(&rt, &mut list, *left, *high);
        add_both(&rt, &mut list, *right, *low);
        add_both(&rt, &mut list, *right, *high);
    }
    let circle = PointsValue::new(ascending_points(list));
    assert!(rt; diameter2(&Geometry::P(circle)) == Some(2210 * 2210));
}

/// The border of a region, its area, twice, and how many faces it has.
type Measured = (&'static [[u64; 4]], u128, u64);

// A square with a hole, squares that touch in a corner, a triangle with half a square to count, and nothing.
static REGIONS: [Measured; 4] = [
    (
        &[
            [0, 0, 0, 10],
            [0, 0, 10, 0],
            [0, 10, 10, 10],
            [10, 0, 10, 10],
            [4, 4, 4, 6],
            [4, 4, 6, 4],
            [4, 6, 6, 6],
            [6, 4, 6, 6],
        ],
        192,
        1,
    ),
    (
        &[
            [0, 0, 0, 3],
            [0, 0, 3, 0],
            [0, 3, 3, 3],
            [3, 0, 3, 3],
            [3, 3, 3, 5],
            [3, 3, 5, 3],
            [3, 5, 5, 5],
            [5, 3, 5, 5],
        ],
        26,
        2,
    ),
    (&[[0, 0, 5, 1], [0, 0, 5, 2], [5, 1, 5, 2]], 5, 1),
    (&[], 0, 0),
];

#[test]
fn a_region_has_its_area_and_its_faces(rt: HostRuntime) {
    let alloc = rt.alloc();
    for (border, area, faces) in REGIONS.iter() {
        let region = region(&rt, alloc, border);
        assert!(rt; area2(alloc, &region) == Ok(*area), "{border:?}");
        assert!(rt;
            components(alloc, &Geometry::R(region)) == Ok(*faces),
            "{border:?}"
        );
    }
}
