//! How near and how far two points can lie, and how near and how far all points of two boxes.
ghost use Rattle.std.specs.Prelude.{◌≡◌, ℕ, ◌+◌, ◌*◌, ◌<◌, ◌≤◌};
ghost use Rattle.grid_base.specs.Grid.{grid_side, product_bound, side_bound};
ghost use Rattle.grid_base.specs.Point.{GridPoint, gap};
ghost use Rattle.rose_measure.specs.Numbers.{squared_distance};
ghost use Rattle.rose_measure.specs.Extremes.{IsInBounds};

use crate::parts::Bounds;
use grid_base::Point;

// The squared distance of two points.
pub(crate) fn squared(p: &Point, q: &Point) -> u64
    ensures distance { result ≡ squared_distance p.now q.now }
    ensures below { result < side_bound }
{
    squared_gap(p.x(), q.x()) + squared_gap(p.y(), q.y())
}

// The square of how far apart two columns or rows are.
fn squared_gap(v: u32, w: u32) -> u64
    requires { (v < grid_side) × (w < grid_side) }
    ensures square { result ≡ gap v w * gap v w }
    ensures below { result < product_bound }
{
    square(v.abs_diff(w))
}

// The square of a number of columns or rows.
fn square(n: u32) -> u64
    requires { n < grid_side }
    ensures square { result ≡ n * n }
    ensures below { result < product_bound }
{
    let apart = u64::from(n);
    apart * apart
}

// A squared distance that no two points of the boxes are below.
pub(crate) fn least_apart(b: &Bounds, c: &Bounds) -> u64
    ensures { (p q : GridPoint) → IsInBounds b.now.low b.now.high p → IsInBounds c.now.low c.now.high q
        → result ≤ squared_distance p q }
{
    let across = space(b.low.x(), b.high.x(), c.low.x(), c.high.x());
    let up = space(b.low.y(), b.high.y(), c.low.y(), c.high.y());
    square(across) + square(up)
}

// A squared distance that no two points of the boxes are above.
pub(crate) fn most_apart(b: &Bounds, c: &Bounds) -> u64
    ensures { (p q : GridPoint) → IsInBounds b.now.low b.now.high p → IsInBounds c.now.low c.now.high q
        → squared_distance p q ≤ result }
{
    let across = reach(b.low.x(), b.high.x(), c.low.x(), c.high.x());
    let up = reach(b.low.y(), b.high.y(), c.low.y(), c.high.y());
    square(across) + square(up)
}

// How far apart numbers from a to b and from c to d are at least.
fn space(a: u32, b: u32, c: u32, d: u32) -> u32
    requires { (a < grid_side) × (c < grid_side) }
    ensures least { (m n : ℕ) → a ≤ m → m ≤ b → c ≤ n → n ≤ d → result ≤ gap m n }
    ensures below { result < grid_side }
{
    a.saturating_sub(d).max(c.saturating_sub(b))
}

// How far apart numbers from a to b and from c to d are at most.
fn reach(a: u32, b: u32, c: u32, d: u32) -> u32
    requires { (b < grid_side) × (d < grid_side) }
    ensures most { (m n : ℕ) → a ≤ m → m ≤ b → c ≤ n → n ≤ d → gap m n ≤ result }
    ensures below { result < grid_side }
{
    b.saturating_sub(c).max(d.saturating_sub(a))
}
