//! Short lists of segments, drawn on squared paper.
use grid_base::Segment;
use segment_lists::{are_noded, ascending_segments, segments_with};
use std::alloc::Global;
use std::process::Abort;

// Whether the segments with these ends are those of a realm.
fn noded(rt: &impl Abort, alloc: Global, table: &[[u64; 4]]) -> bool {
    let found = segments_with(alloc, table).expect(rt, "memory");
    are_noded(&found.expect(rt, "segments"))
}

static PAIRS: [([[u64; 4]; 2], bool); 8] = [
    // two ways from one point
    ([[2, 2, 6, 2], [2, 2, 4, 5]], true),
    // one goes on where the other ends
    ([[0, 0, 4, 2], [4, 2, 8, 4]], true),
    // apart, on one line
    ([[0, 0, 4, 2], [6, 3, 8, 4]], true),
    // listed twice
    ([[1, 1, 3, 7], [1, 1, 3, 7]], true),
    // a crossing off the grid
    ([[0, 0, 10, 4], [6, 0, 6, 9]], false),
    // the second ends inside the first
    ([[0, 0, 10, 4], [5, 2, 5, 9]], false),
    // and the first inside the second
    ([[5, 2, 5, 9], [0, 0, 10, 4]], false),
    // a part in common
    ([[0, 0, 6, 0], [4, 0, 9, 0]], false),
];

#[test]
fn segments_of_a_realm_meet_in_ends_alone(rt: HostRuntime) {
    for (table, expected) in PAIRS.iter() {
        assert!(rt; noded(&rt, rt.alloc(), table) == *expected, "at {table:?}");
    }
    assert!(rt; noded(&rt, rt.alloc(), &[]));
}

static UNSORTED: [[u64; 4]; 3] = [[4, 1, 0, 0], [0, 0, 2, 5], [0, 0, 4, 1]];

static SORTED: [[u64; 4]; 2] = [[0, 0, 2, 5], [0, 0, 4, 1]];

// Whether the segments have these ends, the lesser first.
fn have_ends(list: &[Segment], table: &[[u64; 4]]) -> bool {
    for (s, ends) in list.iter().zip(table) {
        let (a, b) = (s.a(), s.b());
        if [
            u64::from(a.x()),
            u64::from(a.y()),
            u64::from(b.x()),
            u64::from(b.y()),
        ] != *ends
        {
            return false;
        }
    }
    list.len() == table.len()
}

#[test]
fn four_numbers_are_two_ends(rt: HostRuntime) {
    let found = segments_with(rt.alloc(), &UNSORTED).expect(&rt, "memory");
    let list = ascending_segments(found.expect(&rt, "segments"));
    assert!(rt; have_ends(&list, &SORTED), "{list:?}");
}

// Equal ends, and one off the grid.
static NO_ENDS: [[[u64; 4]; 2]; 2] = [
    [[0, 0, 1, 1], [3, 3, 3, 3]],
    [[0, 0, 1, 1], [0, 0, 1_073_741_824, 1]],
];

#[test]
fn some_numbers_are_no_ends(rt: HostRuntime) {
    for table in NO_ENDS.iter() {
        let found = segments_with(rt.alloc(), table).expect(&rt, "memory");
        assert!(rt; found.is_none(), "at {table:?}");
    }
}
