//! Worked cases. The expected hooks are those of another program, which looks at every grid point of the
//! triangle. What is close comes from a scan of all columns or rows by the definition, with fractions, and
//! for the long originals from another search and from paper.
use crate::paper::point;
use grid_base::{Point, in_box};
use hook_chain::{HookError, close, hook, one_hook};
use segment_lists::segment_with;
use std::alloc::Global;
use std::process::Abort;

// Whether the points have these coordinates, two for each.
fn are_at(points: &[Point], coordinates: &[u64]) -> bool {
    let (pairs, rest) = coordinates.as_chunks::<2>();
    rest.is_empty()
        && points.len() == pairs.len()
        && points
            .iter()
            .zip(pairs)
            .all(|(p, at)| [u64::from(p.x()), u64::from(p.y())] == *at)
}

// Whether the hook of the segment from (k, l) to (m, n) at (x, y) has the points of the path; where there are
// none, whether (x, y) isn't near.
fn is_hook(alloc: Global, row: &[u64]) -> Option<bool> {
    let [k, l, m, n, x, y, path @ ..] = row else {
        return None;
    };
    let t = segment_with(&[*k, *l, *m, *n])?;
    match hook(alloc, &t, point(*x, *y)?) {
        Ok(chain) => Some(are_at(chain.points(), path)),
        Err(error) => Some(error == HookError::NotNear && path.is_empty()),
    }
}

fn compare(rt: &impl Abort, alloc: Global, rows: &[&[u64]]) {
    for row in rows {
        assert!(rt; is_hook(alloc, row) == Some(true), "{row:?}");
    }
}

#[test]
fn hooks_of_flat_pieces_lead_round_grid_points(rt: HostRuntime) {
    compare(
        &rt,
        rt.alloc(),
        &[
            // rising, the point on the left
            &[0, 0, 10, 4, 6, 2, 0, 0, 5, 2, 6, 2, 10, 4],
            &[3, 0, 18, 4, 12, 3, 3, 0, 10, 2, 12, 3, 14, 3, 18, 4],
            &[11, 2, 23, 11, 16, 6, 11, 2, 15, 5, 16, 6, 19, 8, 23, 11],
            &[
                11, 14, 21, 18, 19, 18, 11, 14, 16, 16, 18, 17, 19, 18, 21, 18,
            ],
            // rising, the point on the right
            &[5, 16, 15, 22, 6, 16, 5, 16, 6, 16, 7, 17, 10, 19, 15, 22],
            &[13, 2, 22, 5, 17, 3, 13, 2, 16, 3, 17, 3, 19, 4, 22, 5],
            &[7, 15, 17, 21, 13, 18, 7, 15, 12, 18, 13, 18, 14, 19, 17, 21],
            // falling, the point on the left
            &[
                4, 13, 21, 8, 17, 10, 4, 13, 11, 11, 15, 10, 17, 10, 18, 9, 21, 8,
            ],
            &[1, 14, 22, 9, 7, 13, 1, 14, 6, 13, 7, 13, 10, 12, 22, 9],
            &[0, 13, 17, 7, 10, 10, 0, 13, 9, 10, 10, 10, 12, 9, 17, 7],
            // falling, the point on the right
            &[7, 12, 23, 7, 11, 10, 7, 12, 10, 11, 11, 10, 13, 10, 23, 7],
            &[6, 22, 19, 16, 11, 19, 6, 22, 10, 20, 11, 19, 12, 19, 19, 16],
            &[
                9, 22, 21, 15, 18, 16, 9, 22, 14, 19, 17, 17, 18, 16, 19, 16, 21, 15,
            ],
        ],
    );
}

#[test]
fn hooks_of_steep_pieces_lead_round_grid_points(rt: HostRuntime) {
    compare(
        &rt,
        rt.alloc(),
        &[
            // rising, the point on the left
            &[0, 4, 5, 19, 1, 9, 0, 4, 1, 7, 1, 9, 2, 10, 5, 19],
            &[
                10, 6, 22, 23, 13, 11, 10, 6, 12, 9, 13, 11, 14, 12, 17, 16, 22, 23,
            ],
            &[0, 2, 7, 16, 2, 7, 0, 2, 2, 6, 2, 7, 3, 8, 7, 16],
            // rising, the point on the right
            &[12, 1, 18, 18, 15, 8, 12, 1, 14, 6, 15, 8, 15, 9, 18, 18],
            &[9, 1, 19, 20, 13, 7, 9, 1, 12, 6, 13, 7, 13, 8, 19, 20],
            &[4, 4, 16, 21, 7, 7, 4, 4, 7, 7, 7, 8, 9, 11, 16, 21],
            // falling, the point on the left
            &[
                14, 21, 23, 1, 22, 5, 14, 21, 19, 10, 21, 6, 22, 5, 22, 4, 23, 1,
            ],
            &[10, 17, 14, 0, 13, 7, 10, 17, 12, 9, 13, 7, 13, 5, 14, 0],
            &[3, 21, 7, 14, 6, 17, 3, 21, 5, 18, 6, 17, 6, 16, 7, 14],
            // falling, the point on the right
            &[1, 16, 6, 1, 2, 11, 1, 16, 2, 13, 2, 11, 3, 10, 6, 1],
            &[4, 13, 9, 0, 8, 1, 4, 13, 7, 5, 8, 2, 8, 1, 9, 0],
            &[6, 21, 13, 2, 10, 9, 6, 21, 10, 10, 10, 9, 11, 7, 13, 2],
        ],
    );
}

#[test]
fn hooks_in_the_least_and_the_largest_cases(rt: HostRuntime) {
    compare(
        &rt,
        rt.alloc(),
        &[
            // across the whole grid with no grid point between, and far with many
            &[
                0, 0, 1073741823, 1, 536870912, 1, 0, 0, 536870912, 1, 1073741823, 1,
            ],
            &[
                3, 268435455, 268435454, 7, 100000007, 168435452, 3, 268435455, 89478487,
                178956972, 100000007, 168435452, 178956971, 89478489, 268435454, 7,
            ],
            // an end, and the other
            &[0, 0, 10, 4, 0, 0, 0, 0, 10, 4],
            &[0, 0, 10, 4, 10, 4, 0, 0, 10, 4],
            // inside, and inside a vertical piece
            &[0, 0, 10, 4, 5, 2, 0, 0, 5, 2, 10, 4],
            &[3, 2, 3, 9, 3, 5, 3, 2, 3, 5, 3, 9],
            // a point that isn't near
            &[0, 0, 3, 1, 0, 1],
        ],
    );
    one_hook();
}

// Whether the piece is close to the original, in whose box it is. A row has the ends of the original, and
// those of the piece.
fn is_close([k, l, m, n, x, y, u, v]: [u64; 8]) -> Option<bool> {
    let o = segment_with(&[k, l, m, n])?;
    let p = segment_with(&[x, y, u, v])?;
    if in_box(&o, &p.a()) && in_box(&o, &p.b()) {
        Some(close(&o, &p))
    } else {
        None
    }
}

fn all_are(rt: &impl Abort, want: bool, rows: &[[u64; 8]]) {
    for row in rows {
        assert!(rt; is_close(*row) == Some(want), "{row:?}");
    }
}

#[test]
fn pieces_with_no_grid_point_between_are_close(rt: HostRuntime) {
    all_are(
        &rt,
        true,
        &[
            // (5, 2) is on the original
            [0, 0, 10, 4, 6, 2, 10, 4],
            [0, 0, 10, 4, 0, 0, 10, 4],
            [0, 0, 10, 4, 5, 2, 10, 4],
            // (0, 0) is on the original
            [0, 0, 5, 1, 1, 1, 4, 1],
            // flat and rising
            [0, 1, 9, 4, 7, 3, 7, 4],
            [0, 1, 9, 4, 1, 2, 5, 2],
            [0, 1, 9, 4, 6, 3, 9, 4],
            // flat and falling
            [0, 6, 10, 1, 3, 4, 3, 5],
            [0, 6, 10, 1, 6, 3, 10, 1],
            [0, 6, 10, 1, 2, 5, 8, 2],
            // level
            [0, 3, 7, 3, 1, 3, 4, 3],
            [0, 3, 7, 3, 2, 3, 6, 3],
            [0, 3, 7, 3, 1, 3, 5, 3],
            // a diagonal that rises
            [1, 0, 6, 5, 1, 0, 4, 3],
            [1, 0, 6, 5, 3, 2, 5, 4],
            [1, 0, 6, 5, 2, 1, 6, 5],
            // and one that falls
            [0, 6, 6, 0, 1, 5, 6, 0],
            [0, 6, 6, 0, 2, 4, 4, 2],
            [0, 6, 6, 0, 4, 2, 6, 0],
            // steep and rising
            [1, 0, 4, 10, 3, 7, 3, 8],
            [1, 0, 4, 10, 1, 1, 4, 10],
            [1, 0, 4, 10, 1, 0, 3, 6],
            // steep and falling
            [2, 9, 5, 0, 3, 4, 3, 7],
            [2, 9, 5, 0, 3, 6, 4, 3],
            [2, 9, 5, 0, 4, 3, 5, 0],
            // vertical
            [4, 0, 4, 8, 4, 4, 4, 8],
            [4, 0, 4, 8, 4, 2, 4, 7],
            [4, 0, 4, 8, 4, 0, 4, 8],
        ],
    );
}

#[test]
fn pieces_with_a_grid_point_between_are_not(rt: HostRuntime) {
    all_are(
        &rt,
        false,
        &[
            // (5, 2) is on the original
            [0, 0, 10, 4, 0, 0, 6, 2],
            // (0, 0) is on the original
            [0, 0, 5, 1, 0, 1, 4, 1],
            // flat and rising
            [0, 1, 9, 4, 6, 2, 6, 4],
            [0, 1, 9, 4, 1, 2, 9, 4],
            [0, 1, 9, 4, 0, 2, 8, 4],
            [0, 1, 9, 4, 2, 1, 7, 4],
            // flat and falling
            [0, 6, 10, 1, 6, 2, 6, 4],
            [0, 6, 10, 1, 1, 6, 10, 2],
            [0, 6, 10, 1, 0, 6, 8, 1],
            [0, 6, 10, 1, 1, 6, 8, 1],
            // a diagonal that rises
            [1, 0, 6, 5, 3, 2, 3, 3],
            [1, 0, 6, 5, 1, 0, 6, 4],
            [1, 0, 6, 5, 1, 0, 5, 3],
            [1, 0, 6, 5, 2, 2, 4, 4],
            // and one that falls
            [0, 6, 6, 0, 4, 1, 4, 3],
            [0, 6, 6, 0, 1, 6, 6, 0],
            [0, 6, 6, 0, 2, 5, 6, 0],
            [0, 6, 6, 0, 3, 3, 5, 0],
            // steep and rising
            [1, 0, 4, 10, 2, 0, 2, 6],
            [1, 0, 4, 10, 2, 0, 4, 8],
            [1, 0, 4, 10, 1, 0, 3, 9],
            [1, 0, 4, 10, 2, 3, 3, 10],
            // steep and falling
            [2, 9, 5, 0, 3, 3, 3, 7],
            [2, 9, 5, 0, 2, 9, 4, 0],
            [2, 9, 5, 0, 2, 9, 5, 2],
            [2, 9, 5, 0, 3, 4, 4, 6],
        ],
    );
}

#[test]
fn long_pieces_are_close_just_where_no_grid_point_is_between(rt: HostRuntime) {
    all_are(
        &rt,
        true,
        &[
            // as long as the grid
            [0, 0, 1073741823, 1073741823, 0, 0, 1073741823, 1073741823],
            [0, 0, 1073741823, 1, 0, 0, 1073741822, 0],
            [0, 0, 1073741823, 1, 1, 1, 1073741823, 1],
            [0, 0, 1073741823, 1, 5, 0, 5, 1],
            [0, 1073741823, 1073741822, 0, 0, 1073741823, 1073741822, 0],
            // long, on slopes
            [
                6253200, 212162136, 238336075, 40472753, 6253200, 212162136, 117097888, 130161876,
            ],
            [
                166943424, 1127810, 245996916, 252945646, 166943424, 1127810, 206470170, 127036728,
            ],
            [
                19625843, 103269901, 268346244, 249447333, 19625843, 103269901, 129430950,
                167804328,
            ],
        ],
    );
    all_are(
        &rt,
        false,
        &[
            // as long as the grid
            [0, 0, 1073741823, 1073741823, 0, 0, 1073741823, 1073741822],
            [0, 0, 1073741823, 1, 0, 0, 1073741823, 0],
            [0, 0, 1073741823, 1, 0, 0, 0, 1],
            // long, on slopes
            [
                6253200, 212162136, 238336075, 40472753, 123236127, 125620953, 123236145, 125620940,
            ],
            [
                166943424, 1127810, 245996916, 252945646, 206717249, 127823776, 206717251,
                127823780,
            ],
            [
                19625843, 103269901, 268346244, 249447333, 144920905, 176908052, 144920909,
                176908055,
            ],
        ],
    );
}
