//! Where the share of a piece stands. A piece whose box is less than 16, 64, 256 and so on wide and high has its shelf on
//! the level 0, 1, 2 and so on, in one of its columns, at its lowest row. So on each level the pieces that reach a box begin
//! less than that before it and below it. A column is eight times as wide as the pieces of its level may be, so that a search
//! for what is near a piece looks into one column of its level, or into two. Finer levels would cost more searches than they
//! spare pieces that are looked at.
ghost use Rattle.std.specs.Prelude.{◌≡◌, ◌/◌, ◌<◌, ◌≤◌, ◌↔◌, IsTrue};
ghost use Rattle.grid_base.specs.Grid.{grid_side};
ghost use Rattle.grid_base.specs.Point.{IsBefore};
ghost use Rattle.realm_audit.specs.Shelves as shelves;
ghost use Rattle.realm_audit.specs.Shelves.{extent, reach_of, width_of, top_level, AreBoundsOf, AreBoundsAt, MeetsBounds};

use crate::bounds::Bounds;
use grid_base::{GRID_BITS, Point, Segment};

/// The shelf of a share.
#[derive(Clone, Copy, PartialEq, Eq, PartialOrd, Ord)]
pub(crate) struct Shelf {
    pub(crate) level: u32,
    pub(crate) column: u32,
    pub(crate) row: u32,
}

// The greatest level, whose pieces may be as wide as the grid.
pub(crate) const TOP_LEVEL: u32 = (GRID_BITS - 3) / 2;

// What the pieces of a level are narrower and lower than.
pub(crate) fn reach(level: u32) -> u32
    requires { level ≤ top_level }
    ensures { result ≡ reach_of level }
{
    1 << (2 * level + 4)
}

// The column of a level that `x` is in.
pub(crate) fn column_of(x: u32, level: u32) -> u32
    requires { level ≤ top_level }
    ensures { result ≡ x / width_of level }
{
    x >> (2 * level + 7).min(GRID_BITS)
}

// How far the piece reaches across and up, whichever is more.
pub(crate) fn extent_of(piece: &Segment) -> u32
    ensures extent { result ≡ extent piece.now }
    ensures below { result < grid_side }
{
    let width = piece.a().x().abs_diff(piece.b().x());
    let height = piece.a().y().abs_diff(piece.b().y());
    width.max(height)
}

// The level of the piece.
fn level_of(piece: &Segment) -> u32
    ensures level { result ≡ shelves.level_of piece.now }
    ensures fits { extent piece.now < reach_of result }
    ensures below { result ≤ top_level }
{
    29u32.saturating_sub(extent_of(piece).leading_zeros()) / 2
}

// The shelf of the piece.
pub(crate) fn shelf_of(piece: &Segment) -> Shelf
    ensures shelf { result ≡ shelves.shelf_of piece.now }
    ensures fits { extent piece.now < reach_of (shelves.level_of piece.now) }
    ensures level_within { shelves.level_of piece.now ≤ top_level }
    ensures ordered { IsBefore piece.now.a piece.now.b }
{
    let level = level_of(piece);
    let (a, b) = (piece.a(), piece.b());
    Shelf {
        level,
        column: column_of(a.x(), level),
        row: a.y().min(b.y()) + 1,
    }
}

// The box of the piece.
pub(crate) fn bounds_of(piece: &Segment) -> Bounds
    ensures bounds { AreBoundsOf result piece.now }
    ensures ordered { IsBefore piece.now.a piece.now.b }
{
    let (a, b) = (piece.a(), piece.b());
    Bounds {
        left: a.x(),
        right: b.x(),
        low: a.y().min(b.y()),
        high: a.y().max(b.y()),
    }
}

// The box that has the one point.
pub(crate) fn bounds_at(p: &Point) -> Bounds
    ensures { AreBoundsAt result p.now }
{
    Bounds {
        left: p.x(),
        right: p.x(),
        low: p.y(),
        high: p.y(),
    }
}

// Whether the box of the piece and the bounds have a common point.
pub(crate) fn reaches(bounds: &Bounds, piece: &Segment) -> bool
    ensures { IsTrue result ↔ MeetsBounds bounds.now piece.now }
{
    let (a, b) = (piece.a(), piece.b());
    let across = a.x() <= bounds.right && bounds.left <= b.x();
    let up = a.y().min(b.y()) <= bounds.high && bounds.low <= a.y().max(b.y());
    across && up
}
