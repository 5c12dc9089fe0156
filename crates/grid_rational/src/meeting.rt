//! Where two segments cross, and how they meet on the grid.
ghost use Rattle.std.specs.Prelude.{◌≡◌, ◌↔◌, IsTrue, IsNone, IfSome, OnSome};
ghost use Rattle.grid_base.specs.Point.{GridPoint};
ghost use Rattle.grid_base.specs.Crossing.{Cross};
ghost use Rattle.grid_base.specs.MeetPoint.{IsCommon, MeetPoint, crossing_of, is_centre};
ghost use Rattle.grid_rational.specs.Fraction.{IsFraction};
ghost use Rattle.grid_rational.specs.Meeting.{CrossAtCorner, IsMeeting, IsCorner};

use crate::fraction::Crossing;
use crate::place::{RationalPlace, fraction_of, place_of};
use crate::rounding::{at_centre, cell_of, diagonal, nearest_point, right_corner, rises};
use grid_base::{Point, Segment, crosses};

/// How two segments meet.
#[derive(Clone, Copy, Debug, PartialEq, Eq)]
pub enum Meet {
    /// They cross, and this is their meet point.
    At(Point),
    /// They cross as the two diagonals of a cell, at its centre, so there is no meet point. `cell`
    /// is the lower left corner of the cell. `falling_first` says that the first segment is the
    /// falling one; else it is the second.
    Corner { cell: Point, falling_first: bool },
    /// They don't cross.
    Apart,
}

/// The point at which `s` and `t` cross; none where they don't, as where they only touch or
/// overlap.
pub fn crossing(s: &Segment, t: &Segment) -> Option<Crossing>
    ensures apart { IsNone result ↔ (Cross s.now t.now → ⊥) }
    ensures cross { OnSome result (Cross s.now t.now) }
    ensures place { IfSome result (λ c. IsFraction c (crossing_of s.now t.now)) }
    ensures common { OnSome result (IsCommon s.now t.now (crossing_of s.now t.now)) }
{
    if crosses(s, t) {
        let place = place_of(s, t);
        Some(fraction_of(&place))
    } else {
        None
    }
}

/// How `s` and `t` meet. Where they cross, the meet point is their crossing with each coordinate
/// rounded, halves up. At the centre of a cell it isn't rounded where a segment is diagonal: where one
/// alone is, the meet point is that one's corner of the cell with the greater x, and where both are,
/// there is none. Segments that only touch or overlap are apart.
pub fn meet_point(s: &Segment, t: &Segment) -> Meet
    ensures meeting { IsMeeting s.now t.now result }
    ensures at { (m : GridPoint) → (result ≡ Meet.At m) ↔ MeetPoint s.now t.now m }
    ensures corner { IsCorner result ↔ CrossAtCorner s.now t.now }
    ensures apart { (result ≡ Meet.Apart) ↔ (Cross s.now t.now → ⊥) }
{
    if !crosses(s, t) {
        return Meet::Apart;
    }
    let place = place_of(s, t);
    if at_centre(&place) {
        meeting_at_centre(s, t, &place)
    } else {
        Meet::At(nearest_point(&place))
    }
}

// How `s` and `t` meet at `place`, where they cross, and which is the centre of a cell.
fn meeting_at_centre(s: &Segment, t: &Segment, place: &RationalPlace) -> Meet
    requires cross { Cross s.now t.now }
    requires place { place.now ≡ crossing_of s.now t.now }
    requires centre { IsTrue (is_centre place.now) }
    ensures { IsMeeting s.now t.now result }
{
    match (diagonal(s), diagonal(t)) {
        (true, true) => Meet::Corner {
            cell: cell_of(place),
            falling_first: !rises(s),
        },
        (true, false) => Meet::At(right_corner(s, place)),
        (false, true) => Meet::At(right_corner(t, place)),
        (false, false) => Meet::At(nearest_point(place)),
    }
}
