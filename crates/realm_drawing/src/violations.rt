//! The search for a violation, which takes no memory: each piece is compared with every vertex and every piece, and with
//! explicit points near it. Pieces and vertices are found along the chains, so one that several chains have is compared as often.
ghost use Rattle.std.specs.Prelude.{◌↔◌, MatchOption, IsNone, IfSome, All, Any, Contains};
ghost use Rattle.grid_base.specs.Point.{GridPoint};
ghost use Rattle.grid_base.specs.Crossing.{Inside, Cross};
ghost use Rattle.grid_base.specs.Drawing.{IsPoint, HasViolation};
ghost use Rattle.hook_chain.specs.Mending.{MendsCrossing, IsPermitted};
ghost use Rattle.realm_drawing.specs.Found.{drawing_of, NoLink, SomeLink, NoneBetween, SomeBetween};
ghost use Rattle.realm_drawing.specs.Found.{IsViolated, MendsPiece};

use crate::explicit::ExplicitPoints;
use crate::originals::Originals;
use chain_laws::crossing_step;
use grid_base::{Point, Segment, Step, in_side};

// A step that mends a violation, and may be taken; none where there is no violation.
pub(crate) fn first_violation(explicit: &ExplicitPoints, originals: &Originals) -> Option<Step>
    ensures none { IsNone result ↔ (HasViolation (drawing_of explicit.now originals.now) → ⊥) }
    ensures permitted { IfSome result (IsPermitted (drawing_of explicit.now originals.now)) }
{
    for placed in originals.placed() {
        if let Some(step) = violation_along(explicit, originals, placed.chain.points()) {
            return Some(step);
        }
    }
    None
}

// The step for a violation of a link of the chain.
fn violation_along(
    explicit: &ExplicitPoints,
    originals: &Originals,
    chain: &[Point],
) -> Option<Step>
    ensures { MatchOption result (NoLink (IsViolated (drawing_of explicit.now originals.now)) chain.now)
        (λ step. SomeLink (λ t. MendsPiece (drawing_of explicit.now originals.now) t step) chain.now) }
{
    for i in 1..chain.len() {
        if let Some(step) = violation_between(explicit, originals, &chain[i - 1], &chain[i]) {
            return Some(step);
        }
    }
    None
}

// The step for a violation of the link between `v` and `w`.
fn violation_between(
    explicit: &ExplicitPoints,
    originals: &Originals,
    v: &Point,
    w: &Point,
) -> Option<Step>
    ensures { MatchOption result
        (NoneBetween (IsViolated (drawing_of explicit.now originals.now)) v.now w.now)
        (λ step. SomeBetween (λ t. MendsPiece (drawing_of explicit.now originals.now) t step) v.now w.now) }
{
    let t = Segment::new(*v, *w)?;
    violation_of(explicit, originals, &t)
}

// The step for a violation of `t`, if `t` is a piece: for a point inside it, or else for a piece
// that crosses it.
fn violation_of(explicit: &ExplicitPoints, originals: &Originals, t: &Segment) -> Option<Step>
    ensures { MatchOption result (IsViolated (drawing_of explicit.now originals.now) t.now → ⊥)
        (MendsPiece (drawing_of explicit.now originals.now) t.now) }
{
    match point_inside(explicit, originals, t) {
        Some(p) => Some(Step::Split { p, t: *t }),
        None => crossing_of(originals, t),
    }
}

// A point of the drawing that is inside `t`.
fn point_inside(explicit: &ExplicitPoints, originals: &Originals, t: &Segment) -> Option<Point>
    ensures { MatchOption result
        ((p : GridPoint) → IsPoint (drawing_of explicit.now originals.now) p → Inside p t.now → ⊥)
        (λ p. IsPoint (drawing_of explicit.now originals.now) p × Inside p t.now) }
{
    match explicit.first_inside(t) {
        Some(p) => Some(p),
        None => vertex_inside(originals, t),
    }
}

// A vertex of some chain that is inside `t`.
fn vertex_inside(originals: &Originals, t: &Segment) -> Option<Point>
    ensures { MatchOption result (All (λ o. All (λ p. Inside p t.now → ⊥) o.chain) originals.now)
        (λ p. Inside p t.now × Any (λ o. Contains o.chain p) originals.now) }
{
    for placed in originals.placed() {
        if let Some(p) = vertex_along(placed.chain.points(), t) {
            return Some(p);
        }
    }
    None
}

// A vertex of the chain that is inside `t`.
fn vertex_along(chain: &[Point], t: &Segment) -> Option<Point>
    ensures { MatchOption result (All (λ p. Inside p t.now → ⊥) chain.now)
        (λ p. Contains chain.now p × Inside p t.now) }
{
    chain.iter().find(|p| in_side(t, p)).copied()
}

// The step for the crossing of `t` and a piece.
fn crossing_of(originals: &Originals, t: &Segment) -> Option<Step>
    ensures { MatchOption result (All (λ o. NoLink (Cross t.now) o.chain) originals.now)
        (λ step. Any (λ o. SomeLink (λ u. MendsCrossing t.now u step) o.chain) originals.now) }
{
    for placed in originals.placed() {
        if let Some(step) = crossing_along(placed.chain.points(), t) {
            return Some(step);
        }
    }
    None
}

// The step for the crossing of `t` and a link of the chain.
fn crossing_along(chain: &[Point], t: &Segment) -> Option<Step>
    ensures { MatchOption result (NoLink (Cross t.now) chain.now)
        (λ step. SomeLink (λ u. MendsCrossing t.now u step) chain.now) }
{
    for i in 1..chain.len() {
        if let Some(step) = crossing_between(&chain[i - 1], &chain[i], t) {
            return Some(step);
        }
    }
    None
}

// The step for the crossing of `t` and the link between `v` and `w`.
fn crossing_between(v: &Point, w: &Point, t: &Segment) -> Option<Step>
    ensures { MatchOption result (NoneBetween (Cross t.now) v.now w.now)
        (λ step. SomeBetween (λ u. MendsCrossing t.now u step) v.now w.now) }
{
    let u = Segment::new(*v, *w)?;
    crossing_step(t, &u)
}
