//! How the columns and rows of a walk lie on the grid. One walk serves all hooks: each of their parts
//! leads, in columns and rows of its own, to the right and up, and less steeply than a diagonal.
ghost use Rattle.std.specs.Prelude.{◌≡◌, ◌⊎◌, ◌<◌, ◌+◌, ◌-◌, ◌*◌, not, nat_lt, if◌then◌else◌};
ghost use Rattle.grid_base.specs.Grid.{grid_side};
ghost use Rattle.grid_base.specs.Point.{point_at, OnGrid};
ghost use Rattle.grid_base.specs.Sides.{On, side_of};
ghost use Rattle.hook_chain.specs.Placing.{course, cross, passed, passing, raised, rising, placed, seen};
ghost use Rattle.hook_chain.specs.Placing.{side_for, are_diagonals, IsChartOf, turned};

use grid_base::{Point, Segment, cross_of};

/// The directions in which a walk's columns and rows are counted.
#[derive(Clone, Copy)]
pub(crate) struct Chart {
    /// Its columns are rows of the grid.
    pub steep: bool,
    /// Its columns are counted down.
    pub back: bool,
    /// Its rows are counted down.
    pub under: bool,
    /// Its rows are diagonals of the grid.
    pub sheared: bool,
}

/// A place of a walk: how many columns and rows it is from the start.
#[derive(Clone, Copy)]
pub(crate) struct Offset {
    pub across: u64,
    pub up: u64,
}

/// The chart of a walk along `t` with its rows on the side of `x`.
pub(crate) fn chart_of(t: &Segment, x: &Point) -> Chart
    ensures { IsChartOf t.now x.now result }
{
    let (a, b) = (t.a(), t.b());
    let steep = !t.is_flat();
    let back = steep && b.y() < a.y();
    let under = rows_go_down(cross_of(t, x), steep, back);
    let sheared = are_sheared(under, coordinate(!steep, a), coordinate(!steep, b));
    Chart {
        steep,
        back,
        under,
        sheared,
    }
}

/// The chart of the way back.
pub(crate) fn back_along(chart: &Chart) -> Chart
    ensures { result ≡ turned chart.now }
{
    Chart {
        back: !chart.back,
        sheared: !chart.sheared,
        ..*chart
    }
}

/// The place of a walk from `start` that is at `p`.
pub(crate) fn seen_at(chart: &Chart, start: Point, p: Point) -> Offset
    ensures seen { point_at result.across result.up ≡ seen chart.now start p }
    ensures across_below { result.across < 2 * grid_side }
    ensures up_below { result.up < 2 * grid_side }
    ensures start_on_grid { OnGrid start }
    ensures point_on_grid { OnGrid p }
{
    let across = passing_of(
        chart.back,
        coordinate(chart.steep, start),
        coordinate(chart.steep, p),
    );
    let up = rising_of(
        chart.under,
        chart.sheared,
        coordinate(!chart.steep, start),
        across,
        coordinate(!chart.steep, p),
    );
    Offset { across, up }
}

/// The point at a place of a walk from `start`.
pub(crate) fn point_of(chart: &Chart, start: Point, at: Offset) -> Point
    requires across_below { at.across < 2 * grid_side }
    requires up_below { at.up < 2 * grid_side }
    requires on_grid { OnGrid (placed chart.now start (point_at at.across at.up)) }
    ensures { result ≡ placed chart.now start (point_at at.across at.up) }
{
    let along = passed_by(chart.back, coordinate(chart.steep, start), at.across);
    let beside = raised_to(
        chart.under,
        chart.sheared,
        coordinate(!chart.steep, start),
        at.across,
        at.up,
    );
    if chart.steep {
        Point::at(beside as u32, along as u32)
    } else {
        Point::at(along as u32, beside as u32)
    }
}

// Whether a walk along a piece counts its rows down, so that they are on the side that the side number
// stands for.
fn rows_go_down(side: i128, steep: bool, back: bool) -> bool
    ensures { (side_of side ≡ On) ⊎ (side_of side ≡ side_for steep back result) }
{
    let right = side < 0;
    if steep == back { right } else { !right }
}

// Whether a walk's rows are to be diagonals, so that its line rises.
fn are_sheared(under: bool, start: u64, end: u64) -> bool
    ensures { result ≡ are_diagonals under start end }
{
    if under { start < end } else { end < start }
}

// The coordinate of `p` along which a walk goes, and with `!steep` the other one.
fn coordinate(steep: bool, p: Point) -> u64
    ensures course { result ≡ course steep p }
    ensures on_grid { result < grid_side }
{
    if steep {
        u64::from(p.y())
    } else {
        u64::from(p.x())
    }
}

// How far from `start` a walk passes `n`.
fn passing_of(back: bool, start: u64, n: u64) -> u64
    requires start_on_grid { start < grid_side }
    requires n_on_grid { n < grid_side }
    ensures passing { result ≡ passing back start n }
    ensures below { result < grid_side }
{
    if back {
        start.saturating_sub(n)
    } else {
        n.saturating_sub(start)
    }
}

// The row of a walk for the grid's `n`.
fn rising_of(under: bool, sheared: bool, start: u64, across: u64, n: u64) -> u64
    requires start_on_grid { start < grid_side }
    requires across_below { across < grid_side }
    requires n_on_grid { n < grid_side }
    ensures rising { result ≡ rising under sheared start across n }
    ensures below { result < 2 * grid_side }
{
    let moved = if sheared { across } else { 0 };
    if under {
        (start + moved).saturating_sub(n)
    } else {
        (n + moved).saturating_sub(start)
    }
}

// The number that is `across` behind `start`, or before it.
fn passed_by(back: bool, start: u64, across: u64) -> u64
    requires start_on_grid { start < grid_side }
    requires across_below { across < 2 * grid_side }
    ensures { result ≡ passed back start across }
{
    if back {
        start.saturating_sub(across)
    } else {
        start + across
    }
}

// The grid's row for the place of a walk.
fn raised_to(under: bool, sheared: bool, start: u64, across: u64, up: u64) -> u64
    requires start_on_grid { start < grid_side }
    requires across_below { across < 2 * grid_side }
    requires up_below { up < 2 * grid_side }
    ensures { result ≡ raised under sheared start across up }
{
    let moved = if sheared { across } else { 0 };
    if under {
        (start + moved).saturating_sub(up)
    } else {
        (start + up).saturating_sub(moved)
    }
}
