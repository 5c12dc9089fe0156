//! Whether the drawing has no violation. A drawing that had none has one only where a piece or a point takes part in it that
//! came since, so only those are looked at: each is compared with the pieces near it.
ghost use Rattle.std.specs.Prelude.{◌≡◌, ◌⊎◌, ◌↔◌, ℕ, IsTrue, IfOk, OnOk, All, Any, Contains, MatchBool};
ghost use Rattle.grid_base.specs.Point.{GridPoint};
ghost use Rattle.grid_base.specs.Segment.{GridSegment, IsEnd};
ghost use Rattle.grid_base.specs.Crossing.{Inside};
ghost use Rattle.realm_audit.specs.Shelves.{HasShare};
ghost use Rattle.realm_audit.specs.Kept.{Clash};
ghost use Rattle.realm_audit.specs.Clashes.{IsOwned, HasClash, IsExplicitInPiece, AreClashes};
ghost use Rattle.realm_audit.specs.Groups.{Surrounds, ClashesAmong};

use crate::bounds::Bounds;
use crate::explicit::ExplicitPoints;
use crate::groups::first_group;
use crate::shares::Shares;
use crate::shelves::bounds_at;
use grid_base::{NoMemory, Point, Segment, box_meets, crosses, in_side};

// Whether a fresh piece or a fresh point takes part in a violation.
pub(crate) fn have_clash(
    explicit: &ExplicitPoints,
    shares: &Shares,
    pieces: &[Segment],
    points: &[Point],
) -> Result<bool, NoMemory>
    ensures { IfOk result (λ yes. IsTrue yes
        ↔ (Any (HasClash explicit.now shares.now) pieces.now ⊎ Any (IsExplicitInPiece explicit.now shares.now) points.now)) }
{
    let mut rest = pieces;
    while !rest.is_empty() {
        let group = first_group(rest);
        let (close, more) = rest.split_at(group.count);
        if some_clashes(explicit, shares, &group.bounds, close)? {
            return Ok(true);
        }
        rest = more;
    }
    for p in points {
        if is_explicit_in_piece(explicit, shares, p)? {
            return Ok(true);
        }
    }
    Ok(false)
}

// Whether one of the pieces within the bounds takes part in a violation.
fn some_clashes(
    explicit: &ExplicitPoints,
    shares: &Shares,
    bounds: &Bounds,
    pieces: &[Segment],
) -> Result<bool, NoMemory>
    requires { All (Surrounds bounds.now) pieces.now }
    ensures { IfOk result (λ yes. IsTrue yes ↔ Any (HasClash explicit.now shares.now) pieces.now) }
{
    let near = shares.around(bounds)?;
    Ok(some_clashes_among(explicit, near.as_slice(), pieces))
}

// The same, where all pieces near them are at hand.
fn some_clashes_among(explicit: &ExplicitPoints, near: &[Segment], pieces: &[Segment]) -> bool
    ensures { IsTrue result ↔ Any (ClashesAmong explicit.now near.now) pieces.now }
{
    pieces.iter().any(|t| clashes_among(explicit, near, t))
}

// Whether `t` is one of those near, and an explicit point or one of them clashes with it. Most clash with nothing, so that
// is looked at first.
fn clashes_among(explicit: &ExplicitPoints, near: &[Segment], t: &Segment) -> bool
    ensures { IsTrue result ↔ ClashesAmong explicit.now near.now t.now }
{
    (explicit.first_inside(t).is_some() || some_clash(t, near)) && near.contains(t)
}

// Whether one of the list and `t` clash.
fn some_clash(t: &Segment, list: &[Segment]) -> bool
    ensures { IsTrue result ↔ Any (AreClashes t.now) list.now }
{
    list.iter().any(|u| are_clashes(t, u))
}

// Whether `t` and `u` clash, one way or the other.
fn are_clashes(t: &Segment, u: &Segment) -> bool
    ensures { IsTrue result ↔ AreClashes t.now u.now }
{
    box_meets(t, u) && (clash(t, u) || clash(u, t))
}

// Whether `u` crosses `t` or has an end inside it.
fn clash(t: &Segment, u: &Segment) -> bool
    ensures { IsTrue result ↔ Clash t.now u.now }
{
    crosses(t, u) || in_side(t, &u.a()) || in_side(t, &u.b())
}

// Whether `p` is an explicit point inside a piece.
fn is_explicit_in_piece(
    explicit: &ExplicitPoints,
    shares: &Shares,
    p: &Point,
) -> Result<bool, NoMemory>
    ensures { IfOk result (λ yes. IsTrue yes ↔ IsExplicitInPiece explicit.now shares.now p.now) }
{
    if !explicit.has(p) {
        return Ok(false);
    }
    lies_in_piece(shares, p)
}

// Whether `p` is inside a piece.
fn lies_in_piece(shares: &Shares, p: &Point) -> Result<bool, NoMemory>
    ensures { IfOk result (λ yes. IsTrue yes ↔ ((u : GridSegment) × IsOwned shares.now u × Inside p.now u)) }
{
    let near = shares.around(&bounds_at(p))?;
    Ok(lies_in_some(p, near.as_slice()))
}

// Whether `p` is inside one of the list.
fn lies_in_some(p: &Point, list: &[Segment]) -> bool
    ensures { IsTrue result ↔ Any (Inside p.now) list.now }
{
    list.iter().any(|u| in_side(u, p))
}

// Whether `p` is an end of a piece.
pub(crate) fn is_vertex(shares: &Shares, p: &Point) -> Result<bool, NoMemory>
    ensures { IfOk result (λ yes. IsTrue yes ↔ ((u : GridSegment) × IsOwned shares.now u × IsEnd p.now u)) }
{
    let near = shares.around(&bounds_at(p))?;
    Ok(is_end_of_some(p, near.as_slice()))
}

// Whether `p` is an end of one of the list.
fn is_end_of_some(p: &Point, list: &[Segment]) -> bool
    ensures { IsTrue result ↔ Any (IsEnd p.now) list.now }
{
    list.iter().any(|u| is_end(p, u))
}

// Whether `p` is an end of `u`.
fn is_end(p: &Point, u: &Segment) -> bool
    ensures { IsTrue result ↔ IsEnd p.now u.now }
{
    *p == u.a() || *p == u.b()
}
