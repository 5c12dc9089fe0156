//! Drawings, read off squared paper.
use crate::paper::place;
use chain_laws::crossing_step;
use grid_base::{NoMemory, Point, Segment};
use realm_drawing::Drawing;
use segment_lists::segment_with;
use std::alloc::Global;
use std::process::Abort;

// Straight originals 1, 2 and so on along these segments.
pub(crate) fn placed(alloc: Global, segments: &[[u64; 4]]) -> Result<Drawing, NoMemory> {
    let mut drawing = Drawing::new(alloc);
    let mut id: u32 = 1;
    for ends in segments {
        drawing.place(id, segment_with(ends).ok_or(NoMemory)?)?;
        id = id.checked_add(1).ok_or(NoMemory)?;
    }
    Ok(drawing)
}

// Takes steps until no violation is left.
fn settle(rt: &impl Abort, drawing: &mut Drawing) {
    for _ in 0..20 {
        if let Some(step) = drawing.first_violation() {
            drawing.apply(&step).expect(rt, "memory");
        }
    }
    assert!(rt; drawing.first_violation().is_none(), "steps without end");
}

// Whether the points have these coordinates.
fn are_at(points: &[Point], want: &[[u64; 2]]) -> bool {
    for (p, at) in points.iter().zip(want) {
        if [u64::from(p.x()), u64::from(p.y())] != *at {
            return false;
        }
    }
    points.len() == want.len()
}

// Whether each original has the chain of its row, once these segments are placed, these points are explicit, and no
// violation is left.
fn compare(
    rt: &impl Abort,
    alloc: Global,
    segments: &[[u64; 4]],
    explicit: &[[u64; 2]],
    chains: &[&[[u64; 2]]],
) {
    let mut drawing = placed(alloc, segments).expect(rt, "originals");
    for at in explicit {
        drawing.add_point(place(rt, *at)).expect(rt, "memory");
    }
    settle(rt, &mut drawing);
    let mut id: u32 = 0;
    for want in chains {
        id = id.wrapping_add(1);
        let chain = drawing.chain(id).expect(rt, "a chain");
        assert!(rt; are_at(chain, want), "chain {id}");
    }
}

#[test]
fn chains_once_no_violation_is_left(rt: HostRuntime) {
    let alloc = rt.alloc();
    // both meet in a grid point
    compare(
        &rt,
        alloc,
        &[[0, 0, 10, 4], [0, 4, 10, 0]],
        &[],
        &[&[[0, 0], [5, 2], [10, 4]], &[[0, 4], [5, 2], [10, 0]]],
    );
    // the first is led by a point next to it, and passes one that was inside it
    compare(
        &rt,
        alloc,
        &[[0, 0, 10, 4], [6, 0, 6, 9]],
        &[],
        &[
            &[[0, 0], [5, 2], [6, 2], [10, 4]],
            &[[6, 0], [6, 2], [6, 9]],
        ],
    );
    // both cross a cell at its centre
    compare(
        &rt,
        alloc,
        &[[0, 0, 2, 2], [0, 3, 3, 0]],
        &[],
        &[
            &[[0, 0], [1, 1], [2, 2]],
            &[[0, 3], [1, 2], [1, 1], [2, 1], [3, 0]],
        ],
    );
    // a piece of both is split
    compare(
        &rt,
        alloc,
        &[[0, 0, 6, 0], [0, 0, 6, 0]],
        &[[3, 0]],
        &[&[[0, 0], [3, 0], [6, 0]], &[[0, 0], [3, 0], [6, 0]]],
    );
}

// How many pieces the first step draws anew.
fn drawn_anew(rt: &impl Abort, drawing: &mut Drawing) -> usize {
    let step = drawing.first_violation().expect(rt, "a violation");
    drawing.redraw(&step).expect(rt, "memory").len()
}

// Whether the points of the drawing, and those that are explicit in the box of a segment, are these.
fn lists(
    rt: &impl Abort,
    drawing: &Drawing,
    s: &Segment,
    all: &[[u64; 2]],
    inside: &[[u64; 2]],
) -> bool {
    let points = drawing.points().expect(rt, "memory");
    let found = drawing.explicit_in(s).expect(rt, "memory");
    are_at(&points, all) && are_at(&found, inside)
}

#[test]
fn a_drawing_lists_what_it_has(rt: HostRuntime) {
    let ends = [[0, 0, 10, 4], [0, 4, 10, 0]];
    let (t, u) = (
        segment_with(&ends[0]).expect(&rt, "a segment"),
        segment_with(&ends[1]).expect(&rt, "a segment"),
    );
    let mut drawing = placed(rt.alloc(), &ends).expect(&rt, "originals");
    assert!(rt; crossing_step(&u, &t) == drawing.first_violation());
    assert!(rt; drawn_anew(&rt, &mut drawing) == 4);
    assert!(rt; drawing.pieces().expect(&rt, "memory").len() == 4);
    assert!(rt; drawing.add_point(place(&rt, [10, 4])).expect(&rt, "memory"));
    let all = [[0, 0], [0, 4], [5, 2], [10, 0], [10, 4]];
    assert!(rt; lists(&rt, &drawing, &u, &all, &[[10, 4]]));
}

#[test]
fn a_list_that_may_be_a_chain_is_taken(rt: HostRuntime) {
    let chain = [place(&rt, [0, 0]), place(&rt, [3, 1]), place(&rt, [9, 3])];
    let mut drawing = Drawing::new(rt.alloc());
    drawing.place_chain(7, &chain).expect(&rt, "a chain");
    assert!(rt; drawing.chain(7) == Some(chain.as_slice()));
}
