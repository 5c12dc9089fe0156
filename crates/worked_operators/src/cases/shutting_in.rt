//! What is made of one value: its vertices, its contour, and what its lines shut in, as a square with a dead end does.
use crate::cases::combining::is_made;
use crate::paper::{Row, joined, segments_in, value};
use rose_operators::{operate, operate_alone};
use rose_values::Op;
use segment_lists::are_noded;

const LINES: Row = Row::L(&[[0, 0, 0, 4], [0, 0, 4, 0], [0, 4, 4, 4], [4, 0, 4, 4]]);

const SQUARE: Row = Row::R(&[[0, 0, 0, 4], [0, 0, 4, 0], [0, 4, 4, 4], [4, 0, 4, 4]]);

const WITH_A_DEAD_END: Row = Row::L(&[
    [0, 0, 0, 4],
    [0, 0, 4, 0],
    [0, 4, 4, 4],
    [4, 0, 4, 4],
    [4, 4, 6, 6],
]);

// An operator, its value, and what it makes of it; none where it doesn't take the kind.
static CASES: [(Op, Row, Option<Row>); 5] = [
    (
        Op::Vertices,
        SQUARE,
        Some(Row::P(&[[0, 0], [0, 4], [4, 0], [4, 4]])),
    ),
    (Op::Contour, SQUARE, Some(LINES)),
    (Op::Contour, LINES, None),
    (Op::Interior, WITH_A_DEAD_END, Some(SQUARE)),
    (
        Op::Vertices,
        WITH_A_DEAD_END,
        Some(Row::P(&[[0, 0], [0, 4], [4, 0], [4, 4], [6, 6]])),
    ),
];

#[test]
fn one_value_is_enough(rt: HostRuntime) {
    let alloc = rt.alloc();
    for (op, row, wanted) in CASES.iter() {
        let of = value(&rt, alloc, row);
        assert!(rt; are_noded(&joined(&rt, alloc, segments_in(&of), &[])));
        let together = operate(&rt, alloc, *op, &of, None);
        assert!(rt; is_made(&rt, alloc, &together, wanted), "{op:?} {row:?}");
        let alone = operate_alone(alloc, *op, &of, None);
        assert!(rt; is_made(&rt, alloc, &alone, wanted), "{op:?} {row:?} alone");
    }
}
