//! The walk of one part of a hook. From where it is it turns to the least slope that isn't below the
//! line's, among those that lead to grid points before the last column, and goes on by as many whole steps
//! of it as there is room for. Each turn more than halves what is left.
ghost use Rattle.std.specs.Prelude.{◌≡◌, ◌+◌, ◌-◌, ◌*◌, ◌/◌, ◌<◌, ◌≤◌, IfOk};
ghost use Rattle.grid_base.specs.Grid.{grid_side};
ghost use Rattle.hook_chain.specs.Placing.{IsSeen, IsWalkedTo};

use crate::charts::{Chart, Offset, point_of, seen_at};
use crate::fraction::{Fraction, least_above};
use grid_base::{NoMemory, Point};
use std::alloc::Global;

/// The part of a hook that leads from `start` to `x` beside the line to `end`.
pub(crate) fn part(
    alloc: Global,
    chart: &Chart,
    start: Point,
    end: Point,
    x: Point,
) -> Result<Vec<Point>, NoMemory>
    requires charted { IsSeen chart.now start end x }
    ensures { IfOk result (λ list. IsWalkedTo chart.now start end x list.items) }
{
    let line = seen_at(chart, start, end);
    let goal = seen_at(chart, start, x);
    let mut list = Vec::new(alloc);
    list.push(start)?;
    let mut at = Offset { across: 0, up: 0 };
    while at.across < goal.across {
        let slope = least_above(line.up, line.across, goal.across - at.across);
        at = forward(at, goal, slope);
        list.push(point_of(chart, start, at))?;
    }
    Ok(list)
}

// The place as many whole steps of `slope` from `at` as there is room for before the column of `goal`.
fn forward(at: Offset, goal: Offset, slope: Fraction) -> Offset
    requires before { at.across < goal.across }
    requires goal_below { (goal.across < 2 * grid_side) × (goal.up < 2 * grid_side) }
    requires fits { (0 < slope.q) × (slope.q ≤ goal.across - at.across) }
    requires room { at.up + (goal.across - at.across) / slope.q * slope.p ≤ goal.up }
    ensures across { result.across ≡ at.across + (goal.across - at.across) / slope.q * slope.q }
    ensures up { result.up ≡ at.up + (goal.across - at.across) / slope.q * slope.p }
{
    let times = (goal.across - at.across) / slope.q;
    Offset {
        across: at.across + times * slope.q,
        up: at.up + times * slope.p,
    }
}
