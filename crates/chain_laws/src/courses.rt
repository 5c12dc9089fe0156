//! Which lists of points may be the chain of an original. Whether each link is close to it, or one of
//! the two of a corner, is decided from the end: what holds from a point on rests on what holds from
//! the next point on, and from the one behind that.
ghost use Rattle.std.specs.Prelude.{◌≡◌, ◌≢◌, ◌<◌, ◌+◌, ◌↔◌, IsTrue, IsNone, IfSome, MatchOption};
ghost use Rattle.std.specs.Prelude.{length, drop};
ghost use Rattle.grid_base.specs.Point.{InBox};
ghost use Rattle.grid_base.specs.Segment.{GridSegment};
ghost use Rattle.hook_chain.specs.Chains.{AllLinks};
ghost use Rattle.hook_chain.specs.Close.{Close};
ghost use Rattle.hook_chain.specs.ValidChain.{IsMonotone, IsCorner, IsCloseChain, ValidChain};
ghost use Rattle.hook_chain.specs.StandingChains.{IsSomeChain};
ghost use Rattle.chain_laws.specs.Courses.{IsCourse, IsCloseAt, IsCornerAt, IsFromEndToEnd};

use grid_base::{Point, Segment};
use hook_chain::close;

/// The original whose chain these points may be: the one from the first point to the last; none where they are no chain.
pub fn original_of(points: &[Point]) -> Option<Segment>
    ensures none { IsNone result ↔ (IsSomeChain points.now → ⊥) }
    ensures some { IfSome result (λ o. ValidChain o points.now) }
{
    let original = course_of(points)?;
    if is_close_chain(&original, points) {
        Some(original)
    } else {
        None
    }
}

// The segment from the first point to the last, where no coordinate turns back on the way.
fn course_of(points: &[Point]) -> Option<Segment>
    ensures { MatchOption result
        ((o : GridSegment) → IsCourse o points.now → ⊥) (λ o. IsCourse o points.now) }
{
    let original = from_end_to_end(points)?;
    if is_monotone(&original, points) {
        Some(original)
    } else {
        None
    }
}

// The segment from the first point to the last, where the first is before the last.
fn from_end_to_end(points: &[Point]) -> Option<Segment>
    ensures { MatchOption result
        ((o : GridSegment) → IsFromEndToEnd points.now o → ⊥) (IsFromEndToEnd points.now) }
{
    let first = *points.first()?;
    let last = *points.last()?;
    if first.comes_before(&last) {
        Segment::new(first, last)
    } else {
        None
    }
}

// Whether no coordinate turns back on the way of `o`.
fn is_monotone(o: &Segment, points: &[Point]) -> bool
    ensures { IsTrue result ↔ AllLinks (IsMonotone o.now.a o.now.b) points.now }
{
    for i in 1..points.len() {
        if !may_follow(o, &points[i - 1], &points[i]) {
            return false;
        }
    }
    true
}

// Whether `w` may follow `v` on the way of `o`.
fn may_follow(o: &Segment, v: &Point, w: &Point) -> bool
    ensures { IsTrue result ↔ IsMonotone o.now.a o.now.b v.now w.now }
{
    let (a, b) = (o.a().y(), o.b().y());
    let up = b < a || v.y() <= w.y();
    let down = a < b || w.y() <= v.y();
    v != w && v.x() <= w.x() && up && down
}

// Whether each link is close to `o`, or one of the two of a corner.
fn is_close_chain(o: &Segment, points: &[Point]) -> bool
    requires course { IsCourse o.now points.now }
    ensures { IsTrue result ↔ IsCloseChain o.now points.now }
{
    let mut here = true;
    let mut next = true;
    let mut place = points.len().saturating_sub(1);
    while place > 0 {
        place -= 1;
        let from = closes_from(o, points, place, here, next);
        next = here;
        here = from;
    }
    here
}

// Whether the links from this place on are so, given whether those from the next place on are, and
// those from the one behind that.
fn closes_from(o: &Segment, points: &[Point], place: usize, here: bool, next: bool) -> bool
    requires course { IsCourse o.now points.now }
    requires within { place + 1 < length points.now }
    requires here { IsTrue here ↔ IsCloseChain o.now (drop (place + 1) points.now) }
    requires next { IsTrue next ↔ IsCloseChain o.now (drop (place + 2) points.now) }
    ensures { IsTrue result ↔ IsCloseChain o.now (drop place points.now) }
{
    begins_with_link(o, points, place, here) || begins_with_corner(o, points, place, next)
}

// Whether they begin with a close link, given whether those behind it are so.
fn begins_with_link(o: &Segment, points: &[Point], place: usize, here: bool) -> bool
    requires course { IsCourse o.now points.now }
    requires within { place + 1 < length points.now }
    ensures { IsTrue result ↔ (IsTrue here × IsCloseAt o.now points.now place) }
{
    here && has_close_link(o, points, place)
}

// Whether they begin with a corner, given whether those behind it are so.
fn begins_with_corner(o: &Segment, points: &[Point], place: usize, next: bool) -> bool
    requires course { IsCourse o.now points.now }
    requires within { place + 1 < length points.now }
    ensures { IsTrue result ↔ (IsTrue next × IsCornerAt o.now points.now place) }
{
    next && has_corner(o, points, place)
}

// Whether the link from this place is close to `o`.
fn has_close_link(o: &Segment, points: &[Point], place: usize) -> bool
    requires course { IsCourse o.now points.now }
    requires within { place + 1 < length points.now }
    ensures { IsTrue result ↔ IsCloseAt o.now points.now place }
{
    is_close(o, &points[place], &points[place + 1])
}

// Whether a corner of `o` begins at this place.
fn has_corner(o: &Segment, points: &[Point], place: usize) -> bool
    requires course { IsCourse o.now points.now }
    requires within { place + 1 < length points.now }
    ensures { IsTrue result ↔ IsCornerAt o.now points.now place }
{
    place + 2 < points.len() && is_corner(o, &points[place], &points[place + 1], &points[place + 2])
}

// Whether the three points go round the lower left corner of a cell whose diagonal is close to `o`.
fn is_corner(o: &Segment, u: &Point, v: &Point, w: &Point) -> bool
    requires in_box { InBox o.now.a o.now.b u.now × InBox o.now.a o.now.b w.now }
    ensures { IsTrue result ↔ IsCorner o.now u.now v.now w.now }
{
    goes_down(u, v) && goes_right(v, w) && is_close(o, u, w)
}

// Whether `v` is one below `u`.
fn goes_down(u: &Point, v: &Point) -> bool
    ensures { IsTrue result ↔ ((v.now.x ≡ u.now.x) × (u.now.y ≡ v.now.y + 1)) }
{
    v.x() == u.x() && u.y() == v.y() + 1
}

// Whether `w` is one to the right of `v`.
fn goes_right(v: &Point, w: &Point) -> bool
    ensures { IsTrue result ↔ ((w.now.x ≡ v.now.x + 1) × (w.now.y ≡ v.now.y)) }
{
    w.x() == v.x() + 1 && w.y() == v.y()
}

// Whether the way from `v` to `w` is close to `o`.
fn is_close(o: &Segment, v: &Point, w: &Point) -> bool
    requires in_box { InBox o.now.a o.now.b v.now × InBox o.now.a o.now.b w.now }
    requires apart { v.now ≢ w.now }
    ensures { IsTrue result ↔ Close o.now (record { a = v.now; b = w.now }) }
{
    match Segment::new(*v, *w) {
        Some(piece) => close(o, &piece),
        None => unreachable!(),
    }
}
