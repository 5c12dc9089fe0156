//! Which pieces are close to an original. A steep original is a flat one with columns and rows
//! exchanged.
ghost use Rattle.std.specs.Prelude.{◌≡◌, ◌+◌, ◌*◌, ◌<◌, ◌≤◌, ◌↔◌, ◌≤ℤ◌, IsTrue, max, unsigned_abs};
ghost use Rattle.grid_base.specs.Grid.{grid_side, side_bound};
ghost use Rattle.grid_base.specs.Point.{InBox, IsBefore};
ghost use Rattle.grid_base.specs.Segment.{segment_of, exchanged_point};
ghost use Rattle.grid_base.specs.Sides.{Left, Right, side, side_number};
ghost use Rattle.hook_chain.specs.Close.{Close, IsCloseUp};
ghost use Rattle.hook_chain.specs.Climbs.{IsRaised};

mod climbing;

use crate::fraction::Fraction;
use climbing::all_climb;
use grid_base::{GRID_SIDE, Point, Segment, cross_of};

/// Whether the piece `p` is close to the original `o`: in no column, or in no row where `o` is
/// steep, a grid point lies from `o` to `p`. A grid point on `o` counts and one on `p` doesn't: `o`
/// itself is close, and a piece that passes strictly over or under a grid point of `o` isn't. A
/// vertical piece of a flat original is close where it is 1 high and `o` passes strictly between
/// its ends.
pub fn close(o: &Segment, p: &Segment) -> bool
    requires in_box { InBox o.now.a o.now.b p.now.a × InBox o.now.a o.now.b p.now.b }
    ensures { IsTrue result ↔ Close o.now p.now }
{
    if o.is_flat() {
        is_close_up(o, p)
    } else {
        is_close_up(&exchange(o), &exchange(p))
    }
}

// The segment with its columns and rows exchanged, its lesser end first again.
fn exchange(s: &Segment) -> Segment
    ensures { result ≡ segment_of (exchanged_point s.now.a) (exchanged_point s.now.b) }
{
    match Segment::new(exchange_point(s.a()), exchange_point(s.b())) {
        Some(exchanged) => exchanged,
        None => unreachable!(),
    }
}

fn exchange_point(p: Point) -> Point
    ensures { result ≡ exchanged_point p }
{
    Point::at(p.y(), p.x())
}

// Whether `p`, which lies in the columns of `o`, is close to it by columns.
fn is_close_up(o: &Segment, p: &Segment) -> bool
    requires wide { o.now.a.x < o.now.b.x }
    requires within { (o.now.a.x ≤ p.now.a.x) × (p.now.b.x ≤ o.now.b.x) }
    ensures { IsTrue result ↔ IsCloseUp o.now p.now }
{
    if p.a().x() < p.b().x() {
        slanted_is_close(o, p)
    } else {
        upright_is_close(o, p)
    }
}

// The same for a vertical `p`: it is close where it is 1 high and `o` passes strictly between its
// ends.
fn upright_is_close(o: &Segment, p: &Segment) -> bool
    requires wide { o.now.a.x < o.now.b.x }
    requires within { (o.now.a.x ≤ p.now.a.x) × (p.now.b.x ≤ o.now.b.x) }
    requires upright { p.now.b.x ≤ p.now.a.x }
    ensures { IsTrue result ↔ IsCloseUp o.now p.now }
{
    is_one_high(p) && passes_between(o, p)
}

// Whether `s` ends one row above its beginning.
fn is_one_high(s: &Segment) -> bool
    ensures one_high { IsTrue result ↔ (s.now.b.y ≡ s.now.a.y + 1) }
    ensures ordered { IsBefore s.now.a s.now.b }
{
    s.b().y() == s.a().y() + 1
}

// Whether `o` passes strictly over the lesser end of `p` and strictly under the greater.
fn passes_between(o: &Segment, p: &Segment) -> bool
    ensures { IsTrue result
        ↔ ((side o.now.a o.now.b p.now.a ≡ Right) × (side o.now.a o.now.b p.now.b ≡ Left)) }
{
    cross_of(o, &p.a()) < 0 && cross_of(o, &p.b()) > 0
}

// The same for a `p` that isn't vertical. Where it rises against `o`, the grid points that could
// lie between are over it, and seen from its lesser end, or under it, and seen from its greater end:
// both are ways steeper than `p`. Where it falls against `o`, they are ways less steep. With each
// column raised by a whole grid's height above the one before, both segments rise.
fn slanted_is_close(o: &Segment, p: &Segment) -> bool
    requires wide { o.now.a.x < o.now.b.x }
    requires within { (o.now.a.x ≤ p.now.a.x) × (p.now.b.x ≤ o.now.b.x) }
    requires slanted { p.now.a.x < p.now.b.x }
    ensures { IsTrue result ↔ IsCloseUp o.now p.now }
{
    let line = raised(o);
    let piece = raised(p);
    let margin = margin_of(o, p);
    if margin >= line.q {
        return false;
    }
    if rises_against(o, p) {
        all_climb(line, margin, piece)
    } else {
        all_climb(flipped(line), margin, flipped(piece))
    }
}

// The greater of the sizes of the side numbers of the ends of `p`.
fn margin_of(o: &Segment, p: &Segment) -> u64
    ensures margin { result
        ≡ max (unsigned_abs (side_number o.now p.now.a)) (unsigned_abs (side_number o.now p.now.b)) }
    ensures below { result < side_bound }
{
    let lesser = cross_of(o, &p.a()).unsigned_abs();
    let greater = cross_of(o, &p.b()).unsigned_abs();
    lesser.max(greater) as u64
}

// Whether the greater end of `p` isn't farther to the right of `o` than the lesser.
fn rises_against(o: &Segment, p: &Segment) -> bool
    ensures { IsTrue result ↔ (side_number o.now p.now.a ≤ℤ side_number o.now p.now.b) }
{
    cross_of(o, &p.a()) <= cross_of(o, &p.b())
}

// How `s` rises, where each column is raised above the one before by as many rows as the grid has.
fn raised(s: &Segment) -> Fraction
    requires slanted { s.now.a.x < s.now.b.x }
    ensures raised { IsRaised grid_side s.now result.q result.p }
    ensures some { (0 < result.p) × (0 < result.q) }
    ensures steep { result.q ≤ result.p }
    ensures below { (result.p < side_bound) × (result.q < grid_side) }
{
    let dx = u64::from(s.b().x()) - u64::from(s.a().x());
    let dy = u64::from(s.b().y()) + u64::from(GRID_SIDE) * dx - u64::from(s.a().y());
    Fraction { p: dy, q: dx }
}

fn flipped(slope: Fraction) -> Fraction
    ensures p { result.p ≡ slope.q }
    ensures q { result.q ≡ slope.p }
{
    Fraction {
        p: slope.q,
        q: slope.p,
    }
}
