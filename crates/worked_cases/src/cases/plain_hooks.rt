//! All small cases, and some hundred longer ones, against a plain program that looks at each grid
//! point. A part of a hook goes on to the grid point of the triangle whose direction is the nearest
//! to the piece, the farthest of equals. A piece is close where no grid point of a column, or row,
//! lies between the two places, compared as fractions.
ghost use Rattle.std.specs.Prelude.{◌<◌};

use grid_base::{Point, Segment, in_box};
use hook_chain::{HookError, close, hook};
use std::alloc::Global;
use std::process::Abort;

// A point as the plain program sees it, whose sums and products stay far below 2^63.
type Place = [i64; 2];

fn place(p: &Point) -> Place {
    [i64::from(p.x()), i64::from(p.y())]
}

// Twice the area of the triangle p, q, t: above 0 where t is on the left of the way from p to q.
fn turn(p: Place, q: Place, t: Place) -> i64 {
    let forward = q[0]
        .wrapping_sub(p[0])
        .wrapping_mul(t[1].wrapping_sub(p[1]));
    let back = q[1]
        .wrapping_sub(p[1])
        .wrapping_mul(t[0].wrapping_sub(p[0]));
    forward.wrapping_sub(back)
}

// How wide and how high the way from p to q is, below 0 where it falls.
fn ways([p, q]: [Place; 2]) -> [i64; 2] {
    [q[0].wrapping_sub(p[0]), q[1].wrapping_sub(p[1])]
}

fn is_steep(ends: [Place; 2]) -> bool {
    let [dx, dy] = ways(ends);
    dx.unsigned_abs() < dy.unsigned_abs()
}

// How far along the piece p lies.
fn along(ends: [Place; 2], p: Place) -> i64 {
    if is_steep(ends) {
        ways(ends)[1].signum().wrapping_mul(p[1])
    } else {
        p[0]
    }
}

// Whether p is in the closed triangle.
fn in_triangle([a, b, x]: [Place; 3], p: Place) -> bool {
    let inside = turn(a, b, x).signum();
    [turn(a, b, p), turn(b, x, p), turn(x, a, p)]
        .into_iter()
        .all(|n| n == 0 || n.signum() == inside)
}

// Whether the way from v to p is nearer to the piece than that to `best`, or as near and longer.
fn is_better([a, b, x]: [Place; 3], v: Place, p: Place, best: Place) -> bool {
    let away = turn(v, best, p).wrapping_mul(turn(a, b, x).signum());
    away < 0 || away == 0 && along([a, b], best) < along([a, b], p)
}

// The vertex of the hook after v, none after the last.
fn next(corners: [Place; 3], v: Place) -> Option<Place> {
    let [a, b, x] = corners;
    if v == b {
        return None;
    }
    let from = along([a, b], v);
    let end = if from < along([a, b], x) { x } else { b };
    let to = along([a, b], end);
    let mut best = end;
    for column in a[0]..=b[0] {
        for row in a[1].min(b[1])..=a[1].max(b[1]) {
            let p = [column, row];
            let at = along([a, b], p);
            if from < at && at <= to && in_triangle(corners, p) && is_better(corners, v, p, best) {
                best = p;
            }
        }
    }
    Some(best)
}

// Whether these points are the hook.
fn is_hook(corners: [Place; 3], points: &[Point]) -> bool {
    let mut wanted = Some(corners[0]);
    for p in points {
        if wanted != Some(place(p)) {
            return false;
        }
        wanted = next(corners, place(p));
    }
    wanted.is_none()
}

fn is_near(t: &Segment, x: &Point) -> bool {
    let (a, b) = (place(&t.a()), place(&t.b()));
    let [dx, dy] = ways([a, b]);
    let span = dx.unsigned_abs().max(dy.unsigned_abs());
    in_box(t, x) && turn(a, b, place(x)).unsigned_abs() < span
}

// Whether `hook` answers as the plain program at a point.
fn agrees(alloc: Global, t: &Segment, x: Point) -> bool {
    let corners = [place(&t.a()), place(&t.b()), place(&x)];
    match hook(alloc, t, x) {
        Ok(chain) => is_near(t, &x) && is_hook(corners, chain.points()),
        Err(error) => error == HookError::NotNear && !is_near(t, &x),
    }
}

#[test]
fn hooks_in_a_box_of_nine_by_nine(rt: HostRuntime) {
    for a in 0..81 {
        for b in a..81 {
            if let Some(t) = Segment::new(Point::at(a / 9, a % 9), Point::at(b / 9, b % 9)) {
                for n in 0..81 {
                    let x = Point::at(n / 9, n % 9);
                    assert!(rt; agrees(rt.alloc(), &t, x), "{t:?} at {x:?}");
                }
            }
        }
    }
}

// The next number of a fixed series that looks like chance.
fn drawn(last: &mut u64) -> u32
    ensures { result < 100 }
{
    *last = last
        .wrapping_mul(6_364_136_223_846_793_005)
        .wrapping_add(1_442_695_040_888_963_407);
    ((*last >> 33) % 100) as u32
}

#[test]
fn longer_hooks(rt: HostRuntime) {
    let mut last = 1;
    for _ in 0..120 {
        let p = Point::at(drawn(&mut last), drawn(&mut last));
        let q = Point::at(drawn(&mut last), drawn(&mut last));
        let column = drawn(&mut last);
        if let Some(t) = Segment::new(p, q) {
            for row in 0..100 {
                let x = Point::at(column, row);
                assert!(rt; agrees(rt.alloc(), &t, x), "{t:?} at {x:?}");
            }
        }
    }
}

// The ends of a segment from left to right, with x and y exchanged where asked.
fn ends(s: &Segment, is_exchanged: bool) -> [Place; 2] {
    let [p, q] = [place(&s.a()), place(&s.b())];
    if !is_exchanged {
        return [p, q];
    }
    if p[1] <= q[1] {
        [[p[1], p[0]], [q[1], q[0]]]
    } else {
        [[q[1], q[0]], [p[1], p[0]]]
    }
}

// The lowest and the highest place of a segment in a column, as fractions.
fn heights([p, q]: [Place; 2], column: i64) -> [[i64; 2]; 2] {
    let [dx, dy] = ways([p, q]);
    if dx == 0 {
        return [[p[1], 1], [q[1], 1]];
    }
    let up = dy.wrapping_mul(column.wrapping_sub(p[0]));
    let place = [p[1].wrapping_mul(dx).wrapping_add(up), dx];
    [place, place]
}

// Whether the row lies from the place r to the place q: r counts and q doesn't.
fn is_from(r: [i64; 2], q: [i64; 2], row: i64) -> bool {
    let (at_r, at_q) = (row.wrapping_mul(r[1]), row.wrapping_mul(q[1]));
    r[0] <= at_r && at_q < q[0] || at_r <= r[0] && q[0] < at_q
}

// Whether in no column of p a point of the six rows lies from the place of o to a place of p.
fn is_clear(o: [Place; 2], p: [Place; 2]) -> bool {
    for column in p[0][0]..=p[1][0] {
        let [r, _] = heights(o, column);
        let [low, high] = heights(p, column);
        for row in 0..6 {
            if is_from(r, low, row) || is_from(r, high, row) {
                return false;
            }
        }
    }
    true
}

// Whether `close` answers as the plain program, where the piece is in the box of the original.
fn is_as_plain(o: &Segment, p: &Segment) -> bool {
    if !in_box(o, &p.a()) || !in_box(o, &p.b()) {
        return true;
    }
    let is_exchanged = is_steep([place(&o.a()), place(&o.b())]);
    close(o, p) == is_clear(ends(o, is_exchanged), ends(p, is_exchanged))
}

fn all_agree(rt: &impl Abort, o: &Segment) {
    for a in 0..36 {
        for b in a..36 {
            if let Some(p) = Segment::new(Point::at(a / 6, a % 6), Point::at(b / 6, b % 6)) {
                assert!(rt; is_as_plain(o, &p), "{p:?} of {o:?}");
            }
        }
    }
}

#[test]
fn pieces_in_a_box_of_six_by_six(rt: HostRuntime) {
    for a in 0..36 {
        for b in a..36 {
            if let Some(o) = Segment::new(Point::at(a / 6, a % 6), Point::at(b / 6, b % 6)) {
                all_agree(&rt, &o);
            }
        }
    }
}
