//! Borders cut into cycles, cycles turned both ways, and faces in order.
ghost use Rattle.std.specs.Prelude.{◌≡◌, ◌∷◌, []};
ghost use Rattle.grid_base.specs.Point.{point_at};

use crate::paper::region;
use grid_base::{Chain, Point, Segment};
use r_cycles::cycles;
use r_faces::{Face, Holes, faces_in_order, in_order, turned};
use std::alloc::Global;
use std::process::Abort;

// Two triangles with one vertex in common.
static BOW: [[u64; 4]; 6] = [
    [0, 0, 0, 4],
    [0, 0, 2, 2],
    [0, 4, 2, 2],
    [2, 2, 4, 0],
    [2, 2, 4, 4],
    [4, 0, 4, 4],
];

#[test]
fn a_bow_is_two_triangles(rt: HostRuntime) {
    let border = region(&rt, rt.alloc(), &BOW);
    let found = cycles(rt.alloc(), border.segments()).expect(&rt, "memory");
    assert!(rt; found.len() == 2);
    for cycle in &found {
        assert!(rt; cycle.points().len() == 3, "{cycle:?}");
    }
}

#[test]
fn no_border_has_no_cycles(rt: HostRuntime) {
    let none: Vec<Segment> = Vec::new(rt.alloc());
    assert!(rt; cycles(rt.alloc(), &none).expect(&rt, "memory").len() == 0);
}

fn point(rt: &impl Abort, x: u64, y: u64) -> Point
    ensures { result ≡ point_at x y }
{
    Point::new(x, y).expect(rt, "a point")
}

// A triangle that begins with its greatest vertex.
fn triangle(rt: &impl Abort, alloc: Global) -> Vec<Point>
    ensures { result.items ≡ point_at 2 2 ∷ point_at 0 0 ∷ point_at 0 4 ∷ [] }
{
    let mut list = Vec::new(alloc);
    list.push(point(rt, 2, 2)).expect(rt, "memory");
    list.push(point(rt, 0, 0)).expect(rt, "memory");
    list.push(point(rt, 0, 4)).expect(rt, "memory");
    list
}

#[test]
fn a_cycle_is_turned_both_ways(rt: HostRuntime) {
    let cycle = triangle(&rt, rt.alloc());
    let (a, b, c) = (point(&rt, 0, 0), point(&rt, 0, 4), point(&rt, 2, 2));
    let forward = turned(rt.alloc(), &cycle, true).expect(&rt, "memory");
    assert!(rt; forward.points() == [a, b, c].as_slice());
    let backward = turned(rt.alloc(), &cycle, false).expect(&rt, "memory");
    assert!(rt; backward.points() == [a, c, b].as_slice());
}

#[test]
fn a_list_stands_before_a_longer_one(rt: HostRuntime) {
    let alloc = rt.alloc();
    let (p, q) = (point(&rt, 0, 0), point(&rt, 1, 0));
    let longer = Chain::new(vec![in alloc; p, q].expect(&rt, "memory"));
    let short = Chain::new(vec![in alloc; p].expect(&rt, "memory"));
    let list = vec![in alloc; longer, short].expect(&rt, "memory");
    let sorted = in_order(list).expect(&rt, "memory");
    assert!(rt; sorted.len() == 2);
    assert!(rt; sorted[0].points().len() == 1);
}

#[test]
fn a_face_stays_whole(rt: HostRuntime) {
    let outer = Chain::new(triangle(&rt, rt.alloc()));
    let holes = Holes::new(Vec::new(rt.alloc()));
    let list = vec![in rt.alloc(); Face { outer, holes }].expect(&rt, "memory");
    let sorted = faces_in_order(list).expect(&rt, "memory");
    assert!(rt; sorted.len() == 1);
    assert!(rt; sorted[0].outer.points().len() == 3);
    assert!(rt; sorted[0].holes.cycles().len() == 0);
}
