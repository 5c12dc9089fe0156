//! Laws of crossings and meet points, for crates above: functions with nothing to do, whose
//! contracts are the laws.
ghost use Rattle.std.specs.Prelude.{◌≡◌, Bool, not};
ghost use Rattle.grid_base.specs.Point.{GridPoint};
ghost use Rattle.grid_base.specs.Segment.{GridSegment};
ghost use Rattle.grid_base.specs.Crossing.{Cross};
ghost use Rattle.grid_base.specs.Places.{RationalPoint, IsSamePoint};
ghost use Rattle.grid_base.specs.MeetPoint.{IsCommon, MeetPoint, crossing_of};
ghost use Rattle.grid_rational.specs.Meeting.{IsCornerOf};

/// Segments that cross do so in one point, whichever is named first.
pub fn crossing_is_one()
    ensures common { (s t : GridSegment) → Cross s t → IsCommon s t (crossing_of s t) }
    ensures swapped { (s t : GridSegment) → Cross s t → crossing_of t s ≡ crossing_of s t }
    ensures no_other { (s t : GridSegment) (q : RationalPoint) → Cross s t → IsCommon s t q
        → IsSamePoint q (crossing_of s t) }
{}

/// Two segments have one meet point at most, whichever is named first, and the corner of two diagonals
/// is one too.
pub fn meet_point_is_one()
    ensures swapped { (s t : GridSegment) (m : GridPoint) → MeetPoint s t m → MeetPoint t s m }
    ensures no_other { (s t : GridSegment) (m n : GridPoint) → MeetPoint s t m → MeetPoint s t n
        → m ≡ n }
    ensures corner { (s t : GridSegment) (z : GridPoint) (falling_first : Bool)
        → IsCornerOf s t z falling_first → IsCornerOf t s z (not falling_first) }
{}
