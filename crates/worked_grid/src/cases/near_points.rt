//! Worked cases. The expected values are those of another program, which tries the points of a
//! column one by one.
use grid_base::{Point, Segment};
use segment_envelope::{column_pair, in_envelope, near};
use std::process::Abort;

// The point with these coordinates.
fn point(x: u32, y: u32) -> Option<Point> {
    Point::new(u64::from(x), u64::from(y)).ok()
}

// The segment between two points.
fn segment([k, l, m, n]: [u32; 4]) -> Option<Segment> {
    Segment::new(point(k, l)?, point(m, n)?)
}

// Whether the least and the greatest near point are these. A row has the ends of the segment, the
// column, and the two rows.
fn has_pair([k, l, m, n, column, least, greatest]: [u32; 7]) -> Option<bool> {
    Some(column_pair(&segment([k, l, m, n])?, column) == Some((least, greatest)))
}

fn all_have(rt: &impl Abort, rows: &[[u32; 7]]) {
    for row in rows {
        assert!(rt; has_pair(*row) == Some(true), "{row:?}");
    }
}

// Whether the column is outside. A row has the ends of the segment, and the column.
fn is_outside([k, l, m, n, column]: [u32; 5]) -> Option<bool> {
    Some(column_pair(&segment([k, l, m, n])?, column).is_none())
}

fn all_are_outside(rt: &impl Abort, rows: &[[u32; 5]]) {
    for row in rows {
        assert!(rt; is_outside(*row) == Some(true), "{row:?}");
    }
}

#[test]
fn a_column_has_the_points_next_to_the_segment(rt: HostRuntime) {
    all_have(
        &rt,
        &[
            // flat rising, between two rows and on one
            [0, 0, 10, 4, 6, 2, 3],
            [0, 0, 10, 4, 5, 2, 2],
            // flat falling
            [0, 4, 10, 0, 3, 2, 3],
            // steep rising, between two columns and on one
            [2, 1, 5, 11, 4, 2, 3],
            [0, 0, 2, 6, 3, 1, 1],
            // steep falling, between its ends and at its upper and its lower one
            [2, 11, 5, 1, 4, 4, 5],
            [2, 11, 5, 1, 11, 2, 2],
            [2, 11, 5, 1, 1, 5, 5],
            // diagonal, rising and falling
            [3, 2, 9, 8, 5, 4, 4],
            [3, 8, 9, 2, 5, 6, 6],
            // level and vertical
            [1, 7, 9, 7, 4, 7, 7],
            [7, 1, 7, 9, 4, 7, 7],
            // the first column and the last
            [0, 0, 10, 4, 0, 0, 0],
            [0, 0, 10, 4, 10, 4, 4],
            // across the whole grid
            [0, 0, 268435455, 1, 134217728, 0, 1],
            // along the rim of the grid: all but a diagonal, and all but vertical
            [0, 268435455, 268435455, 1, 1, 268435454, 268435455],
            [
                268435454, 0, 268435455, 268435455, 268435454, 268435454, 268435455,
            ],
            // the same up to the last column and row of the grid
            [0, 0, 1073741823, 1, 536870912, 0, 1],
            [0, 1073741823, 1073741823, 1, 1, 1073741822, 1073741823],
            [
                1073741822, 0, 1073741823, 1073741823, 1073741822, 1073741822, 1073741823,
            ],
            [
                0, 1073741823, 1073741823, 1073741822, 536870911, 1073741822, 1073741823,
            ],
            [
                0, 0, 1073741823, 1073741822, 536870912, 536870911, 536870912,
            ],
            [
                0, 0, 1073741823, 1073741822, 1073741823, 1073741822, 1073741822,
            ],
        ],
    );
    // before the first column, after the last, and above the last row
    all_are_outside(&rt, &[[4, 2, 9, 3, 3], [4, 2, 9, 3, 10], [2, 11, 5, 1, 12]]);
}

// Whether the point is near, and whether it is in the envelope. A row has the ends of the segment, and
// the point.
fn lies([k, l, m, n, x, y]: [u32; 6]) -> Option<(bool, bool)> {
    let s = segment([k, l, m, n])?;
    let p = point(x, y)?;
    Some((near(&s, &p), in_envelope(&s, &p)))
}

fn all_lie(rt: &impl Abort, is_near: bool, is_within: bool, rows: &[[u32; 6]]) {
    for row in rows {
        assert!(rt; lies(*row) == Some((is_near, is_within)), "{row:?}");
    }
}

#[test]
fn the_limits_are_outside(rt: HostRuntime) {
    // on it, at an end, and close to it; and one of 2^30 - 2, 1 below the greater run
    all_lie(
        &rt,
        true,
        true,
        &[
            [0, 0, 10, 4, 5, 2],
            [0, 0, 10, 4, 10, 4],
            [0, 0, 10, 4, 6, 2],
            [0, 0, 1073741823, 1073741822, 1073741822, 1073741822],
        ],
    );
    all_lie(
        &rt,
        false,
        true,
        &[
            // a side number of 3, which is the greater run
            [0, 0, 3, 1, 0, 1],
            // one of 6, and runs of 4 and 3
            [0, 0, 4, 3, 2, 0],
            // one of 2^28 - 1, which is the greater run
            [0, 268435455, 268435455, 0, 268435455, 1],
            // and ones of 2^30 - 1, at the rim
            [0, 1073741823, 1073741823, 0, 1073741823, 1],
            [0, 0, 1073741823, 1073741823, 1073741823, 1073741822],
            [0, 0, 1073741823, 1073741822, 1073741823, 1073741821],
        ],
    );
    // on its line, and not in its box; and side numbers of 4 and of 2^31 - 2, which are the sums of the runs
    all_lie(
        &rt,
        false,
        false,
        &[
            [0, 0, 10, 4, 15, 6],
            [0, 0, 2, 2, 2, 0],
            [0, 0, 1073741823, 1073741823, 1073741821, 1073741823],
        ],
    );
}
