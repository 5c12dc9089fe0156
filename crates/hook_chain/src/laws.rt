//! Laws of the definitions, for crates above: functions with nothing to do, whose contracts are the laws.
ghost use Rattle.std.specs.Prelude.{◌≡◌, ◌≢◌, ◌↔◌, List, Contains};
ghost use Rattle.std.specs.List.{AllByRecursion};
ghost use Rattle.grid_base.specs.Point.{GridPoint, IsBefore};
ghost use Rattle.grid_base.specs.Segment.{GridSegment};
ghost use Rattle.grid_base.specs.Sides.{On, side};
ghost use Rattle.segment_envelope.specs.Near.{Near};
ghost use Rattle.hook_chain.specs.Close.{Close};
ghost use Rattle.hook_chain.specs.Chains.{AllLinks, RunsFrom};
ghost use Rattle.hook_chain.specs.Hook.{Hook, InTriangle, IsOnward, HoldsBetween};
ghost use Rattle.hook_chain.specs.ValidChain.{IsMonotone};

/// A piece has at most one hook at a point.
pub fn one_hook()
    ensures { (t : GridSegment) (x : GridPoint) (first second : List GridPoint) → IsBefore t.a t.b
        → Hook t x first → Hook t x second → first ≡ second }
{}

/// A piece has a hook at each point near it.
pub fn hook_exists()
    ensures { (t : GridSegment) (x : GridPoint) → IsBefore t.a t.b → Near t x
        → (chain : List GridPoint) × Hook t x chain }
{}

/// A hook leads from the lesser end of its piece by the point to the greater end.
pub fn hook_leads()
    ensures ends { (t : GridSegment) (x : GridPoint) (chain : List GridPoint)
        → Hook t x chain → RunsFrom t.a t.b chain }
    ensures by_point { (t : GridSegment) (x : GridPoint) (chain : List GridPoint)
        → Hook t x chain → Contains chain x }
{}

/// A hook at a near point is monotone in both coordinates, as its piece.
pub fn hook_is_monotone()
    ensures { (t : GridSegment) (x : GridPoint) (chain : List GridPoint) → IsBefore t.a t.b → Near t x
        → Hook t x chain → AllLinks (IsMonotone t.a t.b) chain }
{}

/// Each link of a hook is close to its piece: by columns where the piece is flat, and by rows where it
/// is steep.
pub fn hook_is_close()
    ensures { (t : GridSegment) (x : GridPoint) (chain : List GridPoint) → IsBefore t.a t.b
        → Hook t x chain → AllLinks (λ v w. Close t (record { a = v; b = w })) chain }
{}

/// Each grid point between a piece and its hook, both counted, is on the hook. And among the ways that
/// lead forward from end to end of a piece, within the triangle of a point beside it, those that hold the
/// points between are exactly those with no point between, as the hook is to be.
pub fn hook_holds_points_between()
    ensures held { (t : GridSegment) (x : GridPoint) (chain : List GridPoint) → IsBefore t.a t.b
        → Hook t x chain → AllLinks (HoldsBetween t x) chain }
    ensures none_between { (t : GridSegment) (x : GridPoint) (way : List GridPoint) → IsBefore t.a t.b
        → side t.a t.b x ≢ On → RunsFrom t.a t.b way → AllByRecursion (InTriangle t.a t.b x) way
        → AllLinks (IsOnward t) way
        → AllLinks (HoldsBetween t x) way ↔ AllLinks (λ v w. Close t (record { a = v; b = w })) way }
{}
