//! Grid points next to a place. Each step of the arithmetic is a function with the bound of its
//! answer.
ghost use Rattle.std.specs.Prelude.{◌≡◌, ◌+◌, ◌-◌, ◌*◌, ◌/◌, ◌%◌, ◌<◌, ◌≤◌, ◌==◌, ◌↔◌, IsTrue};
ghost use Rattle.grid_base.specs.Grid.{grid_side, side_bound};
ghost use Rattle.grid_base.specs.Point.{point_at, IsBefore};
ghost use Rattle.grid_base.specs.Segment.{is_diagonal};
ghost use Rattle.grid_base.specs.MeetPoint.{nearest, rounded, is_centre, corner_on, IsCell};
ghost use Rattle.grid_rational.specs.Meeting.{IsRising};

use crate::place::RationalPlace;
use grid_base::{Point, Segment};

/// The grid point that is nearest to `place`: each coordinate is rounded, and a half is rounded up.
pub(crate) fn nearest_point(place: &RationalPlace) -> Point
    ensures { result ≡ rounded place.now }
{
    let x = nearest_whole(place.x(), place.w());
    let y = nearest_whole(place.y(), place.w());
    Point::at(x, y)
}

/// Whether `place` is the centre of a cell of the grid.
pub(crate) fn at_centre(place: &RationalPlace) -> bool
    ensures { result ≡ is_centre place.now }
{
    is_halfway(place.x(), place.w()) && is_halfway(place.y(), place.w())
}

/// The lower left corner of the cell whose centre is `place`.
pub(crate) fn cell_of(place: &RationalPlace) -> Point
    requires centre { IsTrue (is_centre place.now) }
    ensures { IsCell place.now result }
{
    let x = whole_part(place.x(), place.w());
    let y = whole_part(place.y(), place.w());
    Point::at(x, y)
}

/// Of the corners of the cell whose centre is `place`, the one on the diagonal `d` with the greater
/// x.
pub(crate) fn right_corner(d: &Segment, place: &RationalPlace) -> Point
    requires centre { IsTrue (is_centre place.now) }
    ensures { result ≡ corner_on d.now place.now }
{
    let x = next_whole(place.x(), place.w());
    let y = if rises(d) {
        next_whole(place.y(), place.w())
    } else {
        whole_part(place.y(), place.w())
    };
    Point::at(x, y)
}

/// Whether `s` is diagonal: as wide as it is high.
pub(crate) fn diagonal(s: &Segment) -> bool
    ensures diagonal { result ≡ is_diagonal s.now }
    ensures ordered { IsBefore s.now.a s.now.b }
{
    s.a().x().abs_diff(s.b().x()) == s.a().y().abs_diff(s.b().y())
}

/// Whether `s` rises from its lesser end to its greater.
pub(crate) fn rises(s: &Segment) -> bool
    ensures { IsTrue result ↔ IsRising s.now }
{
    s.a().y() < s.b().y()
}

// n / w, where a half is rounded up.
fn nearest_whole(n: u128, w: u128) -> u32
    requires real { 0 < w }
    requires below { w < 2 * side_bound }
    requires on_grid { n ≤ (grid_side - 1) * w }
    ensures nearest { result ≡ nearest n w }
    ensures on_grid { result < grid_side }
{
    ((2 * n + w) / (2 * w)) as u32
}

// n / w without its fraction.
fn whole_part(n: u128, w: u128) -> u32
    requires real { 0 < w }
    requires on_grid { n ≤ (grid_side - 1) * w }
    ensures whole { result ≡ n / w }
    ensures on_grid { result < grid_side }
{
    (n / w) as u32
}

// The whole number above n / w, which lies halfway between two.
fn next_whole(n: u128, w: u128) -> u32
    requires real { 0 < w }
    requires on_grid { n ≤ (grid_side - 1) * w }
    requires halfway { 2 * (n % w) ≡ w }
    ensures next { result ≡ n / w + 1 }
    ensures on_grid { result < grid_side }
{
    (n / w + 1) as u32
}

// Whether n / w lies halfway between two whole numbers.
fn is_halfway(n: u128, w: u128) -> bool
    requires real { 0 < w }
    requires below { w < 2 * side_bound }
    ensures { result ≡ (2 * (n % w) == w) }
{
    2 * (n % w) == w
}
