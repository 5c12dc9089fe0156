//! The place where two segments cross, in whole numbers: the mean of the ends of the one, each
//! weighted by the distance of the other end from the line of the other segment. Each step of the
//! arithmetic is a function with the bound of its answer, so that 128 bits hold all.
ghost use Rattle.std.specs.Prelude.{◌≡◌, ◌+◌, ◌-◌, ◌*◌, ◌<◌, ◌≤◌, unsigned_abs};
ghost use Rattle.grid_base.specs.Grid.{grid_side, side_bound};
ghost use Rattle.grid_base.specs.Sides.{side_number};
ghost use Rattle.grid_base.specs.Crossing.{Cross};
ghost use Rattle.grid_base.specs.MeetPoint.{crossing_of};
ghost use Rattle.grid_rational.specs.Extent.{IsWithinGrid};
ghost use Rattle.grid_rational.specs.Fraction.{IsFraction};

use crate::fraction::Crossing;
use grid_base::{Point, Segment, cross_of};
use std::marker::Model;

/// The point (x / w, y / w), which is not beyond the rims of the grid. Contracts see the rational
/// point.
#[derive(Clone, Copy)]
pub(crate) struct RationalPlace {
    x: u128,
    y: u128,
    w: u128,
}

impl Model for RationalPlace {
    ghost use Rattle.grid_base.specs.Places.{RationalPoint};
    ghost use Rattle.grid_rational.specs.Extent.{IsWithinGrid};

    ghost Value = { RationalPoint };

    ghost view = { λ q. record { x = q.x; y = q.y; w = q.w } };

    ghost invariant = { λ q. IsWithinGrid (record { x = q.x; y = q.y; w = q.w }) };

    ghost inverse = { λ q. record { x = q.x; y = q.y; w = q.w } };
}

impl RationalPlace {
    /// The numerator of the column.
    pub fn x(&self) -> u128
        ensures x { result ≡ self.now.x }
        ensures within { IsWithinGrid self.now }
    {
        self.x
    }

    /// The numerator of the row.
    pub fn y(&self) -> u128
        ensures y { result ≡ self.now.y }
        ensures within { IsWithinGrid self.now }
    {
        self.y
    }

    /// The denominator of both.
    pub fn w(&self) -> u128
        ensures w { result ≡ self.now.w }
        ensures within { IsWithinGrid self.now }
    {
        self.w
    }
}

/// The place where `s` and `t` cross.
pub(crate) fn place_of(s: &Segment, t: &Segment) -> RationalPlace
    requires cross { Cross s.now t.now }
    ensures { result ≡ crossing_of s.now t.now }
{
    let (a, b) = (t.a(), t.b());
    let m = weight(s, &a);
    let n = weight(s, &b);
    let x = weighted(n, a.x(), m, b.x());
    let y = weighted(n, a.y(), m, b.y());
    RationalPlace { x, y, w: n + m }
}

/// The place as a fraction.
pub(crate) fn fraction_of(place: &RationalPlace) -> Crossing
    ensures { IsFraction result place.now }
{
    Crossing {
        x: place.x as i128,
        y: place.y as i128,
        w: place.w as i128,
    }
}

// How far `p` lies from the line of `s`, as twice the area of its triangle with the ends of `s`.
fn weight(s: &Segment, p: &Point) -> u128
    ensures weight { result ≡ unsigned_abs (side_number s.now p.now) }
    ensures below { result < side_bound }
{
    cross_of(s, p).unsigned_abs()
}

// The coordinate `a` with the weight `n` and the coordinate `b` with the weight `m`.
fn weighted(n: u128, a: u32, m: u128, b: u32) -> u128
    requires n_below { n < side_bound }
    requires a_on_grid { a < grid_side }
    requires m_below { m < side_bound }
    requires b_on_grid { b < grid_side }
    ensures mean { result ≡ n * a + m * b }
    ensures on_grid { result ≤ (grid_side - 1) * (n + m) }
{
    let first = product(n, a);
    let second = product(m, b);
    first + second
}

fn product(n: u128, a: u32) -> u128
    requires n_below { n < side_bound }
    requires a_on_grid { a < grid_side }
    ensures product { result ≡ n * a }
    ensures on_grid { result ≤ (grid_side - 1) * n }
{
    n * u128::from(a)
}
