//! Classes of the plane by their borders. An expected number names the class of a side as it is seen there: 0 for the outer one,
//! and any others for the rest.
ghost use Rattle.std.specs.Prelude.{AllPairs};
ghost use Rattle.grid_base.specs.Segment.{IsSegmentBefore};

use crate::paper::{listed, realm, segments};
use grid_base::Segment;
use plane_cells::{interior, outer_sides, side_classes};
use rose_values::LinesValue;
use segment_lists::are_noded;
use std::alloc::Global;
use std::process::Abort;

/// A border, and the numbers of the classes on the left and on the right of each of its segments.
type Numbered = (&'static [[u64; 4]], &'static [[u64; 2]]);

// Whether the sides of the border have one number exactly where they are expected to, and 0 too.
fn numbered_as(rt: &impl Abort, alloc: Global, border: &[Segment], expected: &[[u64; 2]]) -> bool {
    assert!(rt; are_noded(border), "no realm");
    let found = side_classes(alloc, border).expect(rt, "memory");
    let mut sides = Vec::new(alloc);
    sides.push((0, 0)).expect(rt, "memory");
    for (numbers, seen) in found.iter().zip(expected) {
        sides.push((numbers.left, seen[0])).expect(rt, "memory");
        sides.push((numbers.right, seen[1])).expect(rt, "memory");
    }
    border.len() == expected.len() && are_numbered(&sides)
}

// Whether the first numbers of two pairs are equal exactly where the second are.
fn are_numbered(sides: &[(u64, u64)]) -> bool {
    for a in sides {
        for b in sides {
            if (a.0 == b.0) != (a.1 == b.1) {
                return false;
            }
        }
    }
    true
}

// An island and its ring are two classes, and so are squares that touch in a vertex; open lines leave one class.
static NUMBERED: [Numbered; 4] = [
    (
        &[
            [0, 0, 0, 9],
            [0, 0, 9, 0],
            [0, 9, 9, 9],
            [3, 3, 3, 6],
            [3, 3, 6, 3],
            [3, 6, 6, 6],
            [6, 3, 6, 6],
            [9, 0, 9, 9],
        ],
        &[
            [0, 1],
            [1, 0],
            [0, 1],
            [1, 2],
            [2, 1],
            [1, 2],
            [2, 1],
            [1, 0],
        ],
    ),
    (
        &[
            [0, 0, 0, 2],
            [0, 0, 2, 0],
            [0, 2, 2, 2],
            [2, 0, 2, 2],
            [2, 2, 2, 4],
            [2, 2, 4, 2],
            [2, 4, 4, 4],
            [4, 2, 4, 4],
        ],
        &[
            [0, 1],
            [1, 0],
            [0, 1],
            [1, 0],
            [0, 2],
            [2, 0],
            [0, 2],
            [2, 0],
        ],
    ),
    (
        &[[0, 0, 3, 5], [3, 5, 8, 1], [3, 5, 3, 9]],
        &[[0, 0], [0, 0], [0, 0]],
    ),
    (&[], &[]),
];

#[test]
fn sides_have_their_classes(rt: HostRuntime) {
    let alloc = rt.alloc();
    for (table, expected) in NUMBERED.iter() {
        let border = segments(&rt, alloc, table);
        assert!(rt; numbered_as(&rt, alloc, &border, expected), "{table:?}");
    }
}

// Whether the sides of the segments of the list are outer as expected.
fn outer_as(
    rt: &impl Abort,
    alloc: Global,
    border: &[Segment],
    list: &[Segment],
    expected: &[[bool; 2]],
) -> bool {
    let mut together = Vec::new(alloc);
    together.extend_from_slice(border).expect(rt, "memory");
    together.extend_from_slice(list).expect(rt, "memory");
    assert!(rt; are_noded(&together), "no realm");
    let found = outer_sides(alloc, border, list).expect(rt, "memory");
    for (sides, outer) in found.iter().zip(expected) {
        if [sides.left, sides.right] != *outer {
            return false;
        }
    }
    list.len() == expected.len()
}

static SQUARE: [[u64; 4]; 4] = [[0, 0, 0, 9], [0, 0, 9, 0], [0, 9, 9, 9], [9, 0, 9, 9]];

// Segments within, on and outside a square, in order.
static LIST: [[u64; 4]; 5] = [
    [0, 0, 0, 9],
    [0, 0, 3, 4],
    [2, 5, 2, 7],
    [9, 0, 9, 9],
    [9, 9, 12, 4],
];

static OUTER: [[bool; 2]; 5] = [
    [true, false],
    [false, false],
    [false, false],
    [false, true],
    [true, true],
];

#[test]
fn segments_within_on_and_outside_a_square(rt: HostRuntime) {
    let border = segments(&rt, rt.alloc(), &SQUARE);
    let list = segments(&rt, rt.alloc(), &LIST);
    assert!(rt; outer_as(&rt, rt.alloc(), &border, &list, &OUTER));
}

// The same square in another order, with a side twice, and its numbers.
static UNSORTED: Numbered = (
    &[
        [9, 0, 9, 9],
        [0, 0, 0, 9],
        [0, 9, 9, 9],
        [9, 0, 9, 9],
        [0, 0, 9, 0],
    ],
    &[[1, 0], [0, 1], [0, 1], [1, 0], [1, 0]],
);

static ASKED: [[u64; 4]; 4] = [[9, 9, 12, 4], [2, 5, 2, 7], [9, 9, 12, 4], [0, 0, 0, 9]];

static ANSWERS: [[bool; 2]; 4] = [[true, true], [false, false], [true, true], [true, false]];

#[test]
fn lists_in_any_order_are_answered_in_theirs(rt: HostRuntime) {
    let alloc = rt.alloc();
    let border = listed(&rt, alloc, UNSORTED.0);
    assert!(rt; numbered_as(&rt, alloc, &border, UNSORTED.1));
    let list = listed(&rt, alloc, &ASKED);
    assert!(rt; outer_as(&rt, alloc, &border, &list, &ANSWERS));
}

// Whether the interior of the lines has just this border.
fn shuts_in(rt: &impl Abort, alloc: Global, lines: &[[u64; 4]], border: &[[u64; 4]]) -> bool {
    let lines = LinesValue::new(realm(rt, alloc, lines));
    let found = interior(alloc, &lines).expect(rt, "memory");
    found.segments() == segments(rt, alloc, border).as_slice()
}

static LINES: [[u64; 4]; 9] = [
    [0, 0, 0, 9],
    [0, 0, 9, 0],
    [0, 9, 9, 9],
    [9, 0, 9, 9],
    [9, 9, 12, 4],
    [3, 3, 3, 6],
    [3, 3, 6, 3],
    [3, 6, 6, 3],
    [0, 9, 3, 6],
];

#[test]
fn the_interior_of_a_ring_has_what_it_shuts_in(rt: HostRuntime) {
    assert!(rt; shuts_in(&rt, rt.alloc(), &LINES, &SQUARE));
    assert!(rt; shuts_in(&rt, rt.alloc(), &[[0, 0, 5, 5]], &[]));
}
