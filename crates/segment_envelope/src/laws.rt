//! Laws of the definitions, for crates above: functions with nothing to do, whose contracts are the
//! laws.
ghost use Rattle.std.specs.Prelude.{◌≡◌, ◌*◌, ◌<◌, ◌↔◌, IsTrue, IsFalse};
ghost use Rattle.grid_base.specs.Point.{GridPoint, IsBefore, gap};
ghost use Rattle.grid_base.specs.Segment.{GridSegment, is_flat};
ghost use Rattle.grid_base.specs.Places.{RationalPoint, IsPlace};
ghost use Rattle.grid_base.specs.Crossing.{IsOn};
ghost use Rattle.grid_base.specs.MeetPoint.{MeetPoint};
ghost use Rattle.segment_envelope.specs.Near.{Near};
ghost use Rattle.segment_envelope.specs.Envelope.{Env};

/// Near means less than 1 above or below the place of a flat segment in the column of the point, and
/// less than 1 beside the place of a steep one in its row.
pub fn near_is_within_one()
    ensures flat { (s : GridSegment) (p : GridPoint) (q : RationalPoint)
        → IsBefore s.a s.b → IsTrue (is_flat s) → IsPlace s q → q.x ≡ p.x * q.w
        → Near s p ↔ (gap (p.y * q.w) q.y < q.w) }
    ensures steep { (s : GridSegment) (p : GridPoint) (q : RationalPoint)
        → IsFalse (is_flat s) → IsPlace s q → q.y ≡ p.y * q.w
        → Near s p ↔ (gap (p.x * q.w) q.x < q.w) }
{}

/// The meet point of two segments is near both.
pub fn meet_point_is_near()
    ensures { (s t : GridSegment) (m : GridPoint)
        → IsBefore s.a s.b → IsBefore t.a t.b → MeetPoint s t m → Near s m × Near t m }
{}

/// Near points are in the envelope.
pub fn near_is_in_envelope()
    ensures { (s : GridSegment) (p : GridPoint) → Near s p → Env s p }
{}

/// The points on a segment are near it.
pub fn on_is_near()
    ensures { (s : GridSegment) (p : GridPoint) → IsBefore s.a s.b → IsOn s p → Near s p }
{}
