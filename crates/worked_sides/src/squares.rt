//! A hundred nested squares: (i, i) and (400 - i, 400 - i) are corners of square i. Beside a side of square i lie
//! the inside of i + 1 squares and that of i.
use grid_base::{Point, Segment, Sides};
use rose_overlay::ascending_segments;
use rose_values::RegionsValue;
use segment_lists::are_noded;
use std::alloc::Global;

const SIDE: u64 = 400;

const NUMBER: u64 = 100;

// The ends of the four sides of square `i`.
fn square(i: u64) -> [[u64; 4]; 4] {
    let far = SIDE.saturating_sub(i);
    [
        [i, i, far, i],
        [i, far, far, far],
        [i, i, i, far],
        [far, i, far, far],
    ]
}

fn segment(ends: &[u64; 4]) -> Option<Segment> {
    let [x, y, u, v] = *ends;
    Segment::new(Point::new(x, y).ok()?, Point::new(u, v).ok()?)
}

fn push_square(list: &mut Vec<Segment>, i: u64) -> Option<()> {
    for ends in &square(i) {
        list.push(segment(ends)?).ok()?;
    }
    Some(())
}

/// The sides of all squares, so many times over.
pub(crate) fn all_sides_of_squares(alloc: Global, times: u64) -> Option<Vec<Segment>> {
    let mut list = Vec::new(alloc);
    for k in 0..NUMBER.saturating_mul(times) {
        push_square(&mut list, k % NUMBER)?;
    }
    Some(list)
}

/// The region that they bound.
pub(crate) fn region(alloc: Global) -> Option<RegionsValue> {
    let list = ascending_segments(all_sides_of_squares(alloc, 1)?);
    if !are_noded(&list) {
        return None;
    }
    RegionsValue::from_segments(list).ok()
}

/// What lies beside a side of a square, as its picture says.
pub(crate) fn wanted(s: &Segment) -> Sides {
    let (a, b) = (s.a(), s.b());
    let inner = a.x().min(a.y()) % 2 == 0;
    let lower_or_right = if a.y() == b.y() {
        a.y() < 200
    } else {
        a.x() > 200
    };
    Sides {
        left: inner == lower_or_right,
        right: inner != lower_or_right,
    }
}
