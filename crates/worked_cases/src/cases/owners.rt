//! Who owns which piece, counted on paper.
use crate::paper::{drawn, place};
use component_registry::Registry;
use std::alloc::Global;
use std::process::Abort;

// The bottom of a square, and its right side.
const BOTTOM: [u64; 4] = [0, 0, 4, 0];

const RIGHT: [u64; 4] = [4, 0, 4, 4];

// A piece is put for an id that doesn't own it yet.
fn add(rt: &impl Abort, registry: &mut Registry, ends: [u64; 4], id: u32) -> usize {
    let piece = drawn(rt, ends);
    assert!(rt; !registry.remove(&piece, id), "an owner already");
    registry.add(piece, id).expect(rt, "memory")
}

/// Pieces, ascending, and the owners of each.
type Pieces = &'static [([u64; 4], &'static [u32])];

/// Points, ascending, and how often each is used.
type Uses = &'static [[u64; 3]];

// The registry holds these pieces with these owners, and nothing else.
fn assert_pieces(rt: &impl Abort, alloc: Global, registry: &Registry, pieces: Pieces) {
    let mut list = Vec::new(alloc);
    for (ends, owners) in pieces {
        let piece = drawn(rt, *ends);
        let key = registry.key(&piece).expect(rt, "a piece");
        assert!(rt; registry.piece(key) == Some(piece), "{ends:?}");
        assert!(rt; registry.owners(key) == *owners, "{ends:?}");
        list.push(piece).expect(rt, "memory");
    }
    let found = registry.pieces().expect(rt, "memory");
    assert!(rt; found.as_slice() == list.as_slice(), "{pieces:?}");
}

// These points are used so often, and no others.
fn assert_uses(rt: &impl Abort, alloc: Global, registry: &Registry, uses: Uses) {
    let mut points = Vec::new(alloc);
    for [x, y, count] in uses {
        let p = place(rt, [*x, *y]);
        assert!(rt; registry.vertex_uses(&p) == *count, "{x} {y}");
        points.push(p).expect(rt, "memory");
    }
    let found = registry.vertices().expect(rt, "memory");
    assert!(rt; found.as_slice() == points.as_slice(), "{uses:?}");
}

static BOTH: [([u64; 4], &[u32]); 2] = [(BOTTOM, &[3, 7]), (RIGHT, &[3])];

// The owner that the bottom is taken from, whether it was one, and what is left.
static TAKEN: [(u32, bool, Pieces, Uses); 3] = [
    (
        9,
        false,
        &[(BOTTOM, &[3, 7]), (RIGHT, &[3])],
        &[[0, 0, 2], [4, 0, 3], [4, 4, 1]],
    ),
    (
        7,
        true,
        &[(BOTTOM, &[3]), (RIGHT, &[3])],
        &[[0, 0, 1], [4, 0, 2], [4, 4, 1]],
    ),
    (3, true, &[(RIGHT, &[3])], &[[4, 0, 1], [4, 4, 1]]),
];

#[test]
fn a_shared_piece_goes_with_its_last_owner(rt: HostRuntime) {
    let mut registry = Registry::new(rt.alloc());
    let key = add(&rt, &mut registry, BOTTOM, 7);
    add(&rt, &mut registry, RIGHT, 3);
    assert!(rt; add(&rt, &mut registry, BOTTOM, 3) == key);
    assert_pieces(&rt, rt.alloc(), &registry, &BOTH);
    for (id, found, pieces, uses) in TAKEN.iter() {
        assert!(rt; registry.remove(&drawn(&rt, BOTTOM), *id) == *found, "{id}");
        assert_pieces(&rt, rt.alloc(), &registry, pieces);
        assert_uses(&rt, rt.alloc(), &registry, uses);
    }
    assert!(rt; registry.piece(key).is_none());
}

static IDS: [u32; 6] = [6, 2, 9, 4, 1, 8];

static MANY: [([u64; 4], &[u32]); 1] = [(BOTTOM, &[1, 2, 4, 6, 8, 9])];

#[test]
fn a_piece_may_have_many_owners(rt: HostRuntime) {
    let mut registry = Registry::new(rt.alloc());
    for id in IDS.iter() {
        add(&rt, &mut registry, BOTTOM, *id);
    }
    assert_pieces(&rt, rt.alloc(), &registry, &MANY);
    assert_uses(&rt, rt.alloc(), &registry, &[[0, 0, 6], [4, 0, 6]]);
}
