//! The box of the pieces that are looked at together: those that the last step drew, at the end of the list, as long
//! as they lie by one another. One search of the index serves them all.
ghost use Rattle.std.specs.Prelude.{◌↔◌, IsTrue};
ghost use Rattle.grid_base.specs.Point.{GridPoint, InBox};
ghost use Rattle.realm_insert.specs.Clashes.{IsWithin};

use grid_base::{Point, Segment, in_box};

// A segment whose box holds the last piece, and of those before it, so many in all, as many as fill half of it.
pub(crate) fn box_of_last(list: &[Segment], last: &Segment, many: usize) -> Segment
    ensures { IsWithin result last.now }
{
    let mut near = *last;
    let mut filled: u64 = 0;
    let count = list.len().min(many);
    for i in 0..count {
        let piece = &list[list.len() - 1 - i];
        let wider = joined(&near, piece);
        filled = filled.saturating_add(size_of(piece));
        if size_of(&wider) / 2 > filled {
            return near;
        }
        near = wider;
    }
    near
}

// Whether `s` lies in the box of `near`.
pub(crate) fn lies_within(near: &Segment, s: &Segment) -> bool
    ensures { IsTrue result ↔ IsWithin near.now s.now }
{
    in_box(near, &s.a()) && in_box(near, &s.b())
}

// A segment whose box holds the boxes of both.
fn joined(s: &Segment, t: &Segment) -> Segment
    ensures { (p : GridPoint) → InBox s.now.a s.now.b p → InBox result.a result.b p }
{
    let (a, b, c, d) = (s.a(), s.b(), t.a(), t.b());
    let left = a.x().min(b.x()).min(c.x()).min(d.x());
    let low = a.y().min(b.y()).min(c.y()).min(d.y());
    let right = a.x().max(b.x()).max(c.x()).max(d.x());
    let high = a.y().max(b.y()).max(c.y()).max(d.y());
    match Segment::new(Point::at(left, low), Point::at(right, high)) {
        Some(near) => near,
        None => *s,
    }
}

// How many grid points the box of `s` has.
fn size_of(s: &Segment) -> u64 {
    let (a, b) = (s.a(), s.b());
    let across = u64::from(a.x().abs_diff(b.x())) + 1;
    let up = u64::from(a.y().abs_diff(b.y())) + 1;
    across.saturating_mul(up)
}
