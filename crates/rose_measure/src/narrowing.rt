//! Parts that are narrowed. Where two parts reach farther than what was found, often few of their points do. How
//! far two points are apart shows from a third, between them: the square of that, and the square of how far the
//! sum of the two is from twice the third, are twice the squares of how far both are from it. So the points of
//! round arcs that face one another are told apart, however the boxes round them slant. Those from which no
//! point of the other part lies farther are left out.
ghost use Rattle.std.specs.Prelude.{◌≡◌, ◌⊎◌, ℕ, ◌+◌, ◌*◌, ◌<◌, ◌≤◌, ◌↔◌, All, IsTrue, length};
ghost use Rattle.grid_base.specs.Grid.{grid_side, product_bound, side_bound};
ghost use Rattle.grid_base.specs.Point.{GridPoint, gap};
ghost use Rattle.rose_measure.specs.Numbers.{squared_distance};
ghost use Rattle.rose_measure.specs.Extremes.{at_ends, boxed, IsInBounds, IsNarrowed, IsSeen, IsTrimmed};
ghost use Rattle.rose_measure.specs.Sights.{IsInSight, IsNear, sum_of, twice};
ghost use Rattle.rose_measure.specs.declared.parts.End.TheVariants.{Lesser, Greater};

use crate::apart::squared;
use crate::parts::{Bounds, End, Part, Placed, halfway};
use grid_base::Point;

// The first part, its box narrowed to those of its points from which some point of the second part may lie
// farther than what was found, and its list to the elements from the first that has such an end to the last.
pub(crate) fn narrowed<'a, T: Placed>(
    first: &Part<'a, T>,
    second: &Part<'a, T>,
    found: u64,
) -> Part<'a, T>
    ensures shorter { length result.list.now ≤ length first.now.list.now }
    ensures cut { result.cut ≡ first.now.cut }
    ensures narrowed { IsNarrowed
        (boxed (at_ends T.place_at first.now.list.now) first.now.bounds.low first.now.bounds.high)
        (boxed (at_ends T.place_at second.now.list.now) second.now.bounds.low second.now.bounds.high)
        (boxed (at_ends T.place_at result.list.now) result.bounds.low result.bounds.high) found }
{
    let sight = sight_of(&first.bounds, second);
    let bounds = around_far(first, &sight, found);
    let list = trimmed(first.list, &bounds);
    Part {
        list,
        bounds,
        cut: first.cut,
    }
}

// The list without those before the first element that has an end in the box, and those behind the last.
fn trimmed<'a, T: Placed>(list: &'a [T], bounds: &Bounds) -> &'a [T]
    ensures shorter { length result.now ≤ length list.now }
    ensures trimmed { IsTrimmed bounds.now.low bounds.now.high
        (at_ends T.place_at list.now) (at_ends T.place_at result.now) }
{
    to_last(from_first(list, bounds), bounds)
}

// The list from the first element on that has an end in the box.
fn from_first<'a, T: Placed>(list: &'a [T], bounds: &Bounds) -> &'a [T]
    ensures shorter { length result.now ≤ length list.now }
    ensures trimmed { IsTrimmed bounds.now.low bounds.now.high
        (at_ends T.place_at list.now) (at_ends T.place_at result.now) }
{
    let mut rest = list;
    while let Some((item, behind)) = rest.split_first() {
        if has_end(bounds, item) {
            return rest;
        }
        rest = behind;
    }
    rest
}

// The list up to the last element that has an end in the box.
fn to_last<'a, T: Placed>(list: &'a [T], bounds: &Bounds) -> &'a [T]
    ensures shorter { length result.now ≤ length list.now }
    ensures trimmed { IsTrimmed bounds.now.low bounds.now.high
        (at_ends T.place_at list.now) (at_ends T.place_at result.now) }
{
    let mut rest = list;
    while let Some((item, before)) = rest.split_last() {
        if has_end(bounds, item) {
            return rest;
        }
        rest = before;
    }
    rest
}

// Whether an end of the element is in the box.
fn has_end<T: Placed>(bounds: &Bounds, item: &T) -> bool
    ensures { IsTrue result ↔ IsInBounds bounds.now.low bounds.now.high (T.place_at Lesser item.now)
        ⊎ IsInBounds bounds.now.low bounds.now.high (T.place_at Greater item.now) }
{
    bounds.has(&item.place(End::Lesser)) || bounds.has(&item.place(End::Greater))
}

// The least box round those points of the part from which something in sight may lie farther than what was
// found.
fn around_far<T: Placed>(part: &Part<'_, T>, sight: &Sight, found: u64) -> Bounds
    requires { sight.now.far < side_bound }
    ensures { All (λ p. IsInBounds part.now.bounds.low part.now.bounds.high p
        → IsInBounds result.low result.high p ⊎ IsNear sight.now found p)
        (at_ends T.place_at part.now.list.now) }
{
    let mut bounds = Bounds::nowhere();
    for item in part.list {
        let lesser = item.place(End::Lesser);
        let greater = item.place(End::Greater);
        let some = grown_to_far(&bounds, &part.bounds, &lesser, sight, found);
        bounds = grown_to_far(&some, &part.bounds, &greater, sight, found);
    }
    bounds
}

// The least box that has the box, and the point, if it is in the window and something in sight may lie
// farther from it than what was found.
fn grown_to_far(bounds: &Bounds, window: &Bounds, p: &Point, sight: &Sight, found: u64) -> Bounds
    requires { sight.now.far < side_bound }
    ensures has { IsInBounds window.now.low window.now.high p.now
        → IsInBounds result.low result.high p.now ⊎ IsNear sight.now found p.now }
    ensures keeps { (q : GridPoint) → IsInBounds bounds.now.low bounds.now.high q
        → IsInBounds result.low result.high q }
{
    if !window.has(p) || is_near(sight, p, found) {
        return *bounds;
    }
    bounds.with(p)
}

// How a part is seen from a point between: how far from it the points of the part lie at most, squared, and the
// box that has them.
#[derive(Clone, Copy)]
pub(crate) struct Sight {
    pub(crate) middle: Point,
    pub(crate) far: u64,
    pub(crate) bounds: Bounds,
}

// How the part is seen from the point halfway between the box and its own.
fn sight_of<T: Placed>(bounds: &Bounds, part: &Part<'_, T>) -> Sight
    ensures has { (q : GridPoint) → IsSeen (boxed (at_ends T.place_at part.now.list.now)
        part.now.bounds.low part.now.bounds.high) q → IsInSight result q }
    ensures below { result.far < side_bound }
{
    let middle = halfway(&bounds.middle(), &part.bounds.middle());
    let far = reach_of(part, &middle);
    Sight {
        middle,
        far,
        bounds: part.bounds,
    }
}

// How far from the point those of the part lie at most, squared.
fn reach_of<T: Placed>(part: &Part<'_, T>, p: &Point) -> u64
    ensures most { All (λ q. IsInBounds part.now.bounds.low part.now.bounds.high q
        → squared_distance q p.now ≤ result) (at_ends T.place_at part.now.list.now) }
    ensures below { result < side_bound }
{
    let mut reach = 0;
    for item in part.list {
        let lesser = item.place(End::Lesser);
        let greater = item.place(End::Greater);
        let some = stretched(reach, &part.bounds, &lesser, p);
        reach = stretched(some, &part.bounds, &greater, p);
    }
    reach
}

// The reach, or the squared distance of two points where that is greater and the first is in the window.
fn stretched(reach: u64, window: &Bounds, q: &Point, p: &Point) -> u64
    requires { reach < side_bound }
    ensures has { IsInBounds window.now.low window.now.high q.now → squared_distance q.now p.now ≤ result }
    ensures keeps { reach ≤ result }
    ensures below { result < side_bound }
{
    if !window.has(q) {
        return reach;
    }
    reach.max(squared(q, p))
}

// Whether nothing in sight lies farther from the point than what was found, by how far both lie from the
// middle, and how far off opposite they are.
fn is_near(sight: &Sight, p: &Point, found: u64) -> bool
    requires { sight.now.far < side_bound }
    ensures { IsTrue result → IsNear sight.now found p.now }
{
    let reach = 2 * (squared(p, &sight.middle) + sight.far);
    reach.saturating_sub(off_opposite(sight, p)) <= found
}

// The least squared distance from the sum of the point and one in sight to twice the middle, which is 0 where
// they may lie opposite one another.
fn off_opposite(sight: &Sight, p: &Point) -> u64
    ensures { (q : GridPoint) → IsInBounds sight.now.bounds.low sight.now.bounds.high q
        → result ≤ squared_distance (sum_of p.now q) (twice sight.now.middle) }
{
    let (low, high) = (sight.bounds.low, sight.bounds.high);
    let across = off_twice(p.x(), low.x(), high.x(), sight.middle.x());
    let up = off_twice(p.y(), low.y(), high.y(), sight.middle.y());
    square_of(across) + square_of(up)
}

// How far the sums of a number and those from low to high are from twice the middle at least.
fn off_twice(v: u32, low: u32, high: u32, middle: u32) -> u32
    requires { (v < grid_side) × (low < grid_side) × (high < grid_side) × (middle < grid_side) }
    ensures least { (n : ℕ) → low ≤ n → n ≤ high → result ≤ gap (v + n) (2 * middle) }
    ensures below { result < 2 * grid_side }
{
    let twice = 2 * middle;
    (v + low)
        .saturating_sub(twice)
        .max(twice.saturating_sub(v + high))
}

// The square of a number of columns or rows, or of a sum of two.
fn square_of(n: u32) -> u64
    requires { n < 2 * grid_side }
    ensures square { result ≡ n * n }
    ensures below { result < 4 * product_bound }
{
    u64::from(n) * u64::from(n)
}
