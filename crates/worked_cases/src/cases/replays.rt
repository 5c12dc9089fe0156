//! A replay against a program that knows lists of points alone. On a grid of nine by nine, where segments cross, overlap
//! and have ends inside one another, steps are taken in both until no violation is left, and all chains are compared
//! after each.
use crate::cases::drawings::placed;
use crate::paper::place;
use grid_base::{Point, Segment, Step};
use hook_chain::hook;
use realm_drawing::Drawing;
use segment_lists::segment_with;
use std::alloc::Global;
use std::process::Abort;

// A number below 9, the next of a fixed series that looks like chance.
fn drawn(last: &mut u64) -> u64 {
    *last = last
        .wrapping_mul(6_364_136_223_846_793_005)
        .wrapping_add(1_442_695_040_888_963_407);
    (*last >> 33) % 9
}

// The ends of ten segments, without those that would have equal ends.
fn drawn_segments(rt: &impl Abort, alloc: Global, last: &mut u64) -> Vec<[u64; 4]> {
    let mut list = Vec::new(alloc);
    for _ in 0..10 {
        let [x, y, u, v] = [drawn(last), drawn(last), drawn(last), drawn(last)];
        if [x, y] != [u, v] {
            list.push([x, y, u, v]).expect(rt, "memory");
        }
    }
    list
}

// The chain with the path, from the lesser end of the piece to its greater, in the place of each link that is the piece.
fn replaced(
    rt: &impl Abort,
    alloc: Global,
    chain: &[Point],
    piece: &Segment,
    path: &[Point],
) -> Vec<Point> {
    let (a, b) = (piece.a(), piece.b());
    let mut list = Vec::new(alloc);
    for i in 1..chain.len() {
        let link = [chain[i - 1], chain[i]];
        if link == [a, b] {
            list.extend_from_slice(path).expect(rt, "memory");
            list.pop();
        } else if link == [b, a] {
            for p in path.iter().rev() {
                list.push(*p).expect(rt, "memory");
            }
            list.pop();
        } else {
            list.push(chain[i - 1]).expect(rt, "memory");
        }
    }
    if let Some(last) = chain.last() {
        list.push(*last).expect(rt, "memory");
    }
    list
}

fn replace(
    rt: &impl Abort,
    alloc: Global,
    chains: &mut [Vec<Point>],
    piece: &Segment,
    path: &[Point],
) {
    for chain in chains {
        *chain = replaced(rt, alloc, chain, piece, path);
    }
}

fn lead(rt: &impl Abort, alloc: Global, chains: &mut [Vec<Point>], piece: &Segment, x: Point) {
    let path = hook(alloc, piece, x).expect(rt, "a hook");
    replace(rt, alloc, chains, piece, path.points());
}

// The lower left corner of the cell at whose centre a rising diagonal and a falling one cross. Along the first the
// difference of the coordinates stays the same, and along the second their sum.
fn corner(rising: &Segment, falling: &Segment) -> [u64; 2] {
    let (p, q) = (rising.a(), falling.a());
    let difference = u64::from(p.x()).wrapping_sub(u64::from(p.y()));
    let sum = u64::from(q.x()).wrapping_add(u64::from(q.y()));
    [
        sum.wrapping_add(difference) / 2,
        sum.wrapping_sub(difference) / 2,
    ]
}

// The falling diagonal goes round the corner, where the first and the last of these points may be one with its ends.
fn round(
    rt: &impl Abort,
    alloc: Global,
    chains: &mut [Vec<Point>],
    piece: &Segment,
    [x, y]: [u64; 2],
) {
    let mut path = Vec::new(alloc);
    path.push(piece.a()).expect(rt, "memory");
    for at in [[x, y.wrapping_add(1)], [x, y], [x.wrapping_add(1), y]] {
        path.push(place(rt, at)).expect(rt, "memory");
    }
    path.push(piece.b()).expect(rt, "memory");
    path.dedup();
    replace(rt, alloc, chains, piece, &path);
}

// Puts the paths of the step in the place of its pieces, and answers its kind.
fn take(rt: &impl Abort, alloc: Global, chains: &mut [Vec<Point>], step: &Step) -> usize {
    match step {
        Step::Split { p, t } => {
            lead(rt, alloc, chains, t, *p);
            0
        }
        Step::Meet { t, u, x } => {
            lead(rt, alloc, chains, t, *x);
            lead(rt, alloc, chains, u, *x);
            1
        }
        Step::Corner { t, u } => {
            let z = corner(t, u);
            lead(rt, alloc, chains, t, place(rt, z));
            round(rt, alloc, chains, u, z);
            2
        }
    }
}

// The chains before the first step.
fn straight(rt: &impl Abort, alloc: Global, segments: &[[u64; 4]]) -> Vec<Vec<Point>> {
    let mut chains = Vec::new(alloc);
    for ends in segments {
        let original = segment_with(ends).expect(rt, "a segment");
        let mut chain = Vec::new(alloc);
        chain.push(original.a()).expect(rt, "memory");
        chain.push(original.b()).expect(rt, "memory");
        chains.push(chain).expect(rt, "memory");
    }
    chains
}

// Whether the chain of each original is the one of the list.
fn compare(rt: &impl Abort, drawing: &Drawing, chains: &[Vec<Point>]) {
    let mut id: u32 = 0;
    for chain in chains {
        id = id.wrapping_add(1);
        assert!(rt; drawing.chain(id) == Some(chain.as_slice()), "{id}");
    }
}

// Takes steps in both until no violation is left, and counts them by kind.
fn replay(rt: &impl Abort, alloc: Global, segments: &[[u64; 4]], taken: &mut [u64; 3]) {
    let mut drawing = placed(alloc, segments).expect(rt, "originals");
    let mut chains = straight(rt, alloc, segments);
    for _ in 0..1000 {
        compare(rt, &drawing, &chains);
        let Some(step) = drawing.first_violation() else {
            return;
        };
        let kind = take(rt, alloc, &mut chains, &step);
        taken[kind % 3] = taken[kind % 3].wrapping_add(1);
        drawing.apply(&step).expect(rt, "memory");
    }
    assert!(rt; drawing.first_violation().is_none(), "steps without end");
}

#[test]
fn chains_follow_lists_of_points(rt: HostRuntime) {
    let mut last = 1;
    let mut taken = [0, 0, 0];
    for _ in 0..100 {
        let segments = drawn_segments(&rt, rt.alloc(), &mut last);
        replay(&rt, rt.alloc(), &segments, &mut taken);
    }
    let [splits, meets, corners] = taken;
    assert!(rt;
        splits > 200 && meets > 500 && corners > 10,
        "{splits} {meets} {corners}"
    );
}
