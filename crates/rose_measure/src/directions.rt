//! Parts along a direction. A box round points on a slanting line is much wider than the line, so boxes alone
//! don't show how far two such lines are apart; a direction from one to the other does.
ghost use Rattle.std.specs.Prelude.{◌≡◌, ◌+◌, ◌*◌, ◌<◌, ◌≤◌, All, IsTrue};
ghost use Rattle.grid_base.specs.Grid.{grid_side, product_bound, side_bound};
ghost use Rattle.grid_base.specs.Point.{GridPoint};
ghost use Rattle.rose_measure.specs.Numbers.{squared_distance};
ghost use Rattle.rose_measure.specs.Extremes.{at_ends, boxed, itself, IsInBounds, IsSeen};
ghost use Rattle.rose_measure.specs.Directions.{along, counted};

use crate::apart::least_apart;
use crate::parts::{Bounds, Part};
use grid_base::{GRID_SIDE, Point};

// A direction: so many columns and rows, and whether it goes to the left and down.
#[derive(Clone, Copy)]
struct Direction {
    steps: Point,
    left: bool,
    down: bool,
}

// Whether the two parts lie no nearer than what was found, as seen along the way from one box to the other.
// It isn't looked at where the boxes are much nearer.
pub(crate) fn lies_apart<'a>(first: &Part<'a, Point>, second: &Part<'a, Point>, found: u64) -> bool
    ensures { IsTrue result → (p q : GridPoint)
        → IsSeen (boxed (at_ends itself first.now.list.now) first.now.bounds.low first.now.bounds.high) p
        → IsSeen (boxed (at_ends itself second.now.list.now) second.now.bounds.low second.now.bounds.high) q
        → found ≤ squared_distance p q }
{
    if least_apart(&first.bounds, &second.bounds) < found / 4 {
        return false;
    }
    let way = way_between(&first.bounds, &second.bounds);
    let behind = span_along(first, &way).last;
    let ahead = span_along(second, &way).first;
    is_gap(&way.steps, ahead.saturating_sub(behind), found)
}

// Whether so much along a direction that goes so many columns and rows is at least the distance.
fn is_gap(steps: &Point, gap: u64, found: u64) -> bool
    requires { gap < side_bound }
    ensures { IsTrue result → (0 < steps.now.x * steps.now.x + steps.now.y * steps.now.y)
        × (found * (steps.now.x * steps.now.x + steps.now.y * steps.now.y) ≤ gap * gap) }
{
    let length = length_squared(steps);
    length > 0 && u128::from(found) * u128::from(length) <= u128::from(gap) * u128::from(gap)
}

// The square of how long the steps are.
fn length_squared(steps: &Point) -> u64
    ensures square { result ≡ steps.now.x * steps.now.x + steps.now.y * steps.now.y }
    ensures below { result < side_bound }
{
    times(steps.x(), steps.x()) + times(steps.y(), steps.y())
}

// The direction from the middle of one box to the middle of the other.
fn way_between(first: &Bounds, second: &Bounds) -> Direction {
    let (p, q) = (first.middle(), second.middle());
    Direction {
        steps: Point::at(q.x().abs_diff(p.x()), q.y().abs_diff(p.y())),
        left: q.x() < p.x(),
        down: q.y() < p.y(),
    }
}

// Where points along a direction begin, and where they end.
#[derive(Clone, Copy)]
struct Span {
    first: u64,
    last: u64,
}

// Where the points of the part begin along the direction, and where they end; all is behind its beginning
// where none counts.
fn span_along(part: &Part<'_, Point>, way: &Direction) -> Span
    ensures has { All (λ p. IsInBounds part.now.bounds.low part.now.bounds.high p
        → (result.first ≤ along way.now.steps way.now.left way.now.down p)
        × (along way.now.steps way.now.left way.now.down p ≤ result.last)) part.now.list.now }
    ensures below { (result.first < side_bound) × (result.last < side_bound) }
{
    let mut span = Span {
        first: FARTHEST,
        last: 0,
    };
    for p in part.list {
        span = stretched(&span, way, &part.bounds, p);
    }
    span
}

// The span with the place of the point along the direction, if it is in the box.
fn stretched(span: &Span, way: &Direction, bounds: &Bounds, p: &Point) -> Span
    requires { (span.now.first < side_bound) × (span.now.last < side_bound) }
    ensures has { IsInBounds bounds.now.low bounds.now.high p.now
        → (result.first ≤ along way.now.steps way.now.left way.now.down p.now)
        × (along way.now.steps way.now.left way.now.down p.now ≤ result.last) }
    ensures keeps { (result.first ≤ span.now.first) × (span.now.last ≤ result.last) }
    ensures below { (result.first < side_bound) × (result.last < side_bound) }
{
    if !bounds.has(p) {
        return *span;
    }
    let place = place_along(way, p);
    Span {
        first: span.first.min(place),
        last: span.last.max(place),
    }
}

// No point is farther along a direction.
const FARTHEST: u64 = 2 * (GRID_SIDE as u64) * (GRID_SIDE as u64) - 1;

// How far along the direction the point is.
fn place_along(way: &Direction, p: &Point) -> u64
    ensures along { result ≡ along way.now.steps way.now.left way.now.down p.now }
    ensures below { result < side_bound }
{
    times(way.steps.x(), count(way.left, p.x())) + times(way.steps.y(), count(way.down, p.y()))
}

// A column or row, from the other side of the grid where it is counted back.
fn count(back: bool, v: u32) -> u32
    requires { v < grid_side }
    ensures counted { result ≡ counted back v }
    ensures below { result < grid_side }
{
    if back {
        return GRID_SIDE - 1 - v;
    }
    v
}

// The product of two numbers of columns or rows.
fn times(m: u32, n: u32) -> u64
    requires { (m < grid_side) × (n < grid_side) }
    ensures product { result ≡ m * n }
    ensures below { result < product_bound }
{
    u64::from(m) * u64::from(n)
}
