//! Which step mends a crossing, and what a step puts in the place of its pieces.
ghost use Rattle.std.specs.Prelude.{◌≡◌, ◌≢◌, ◌⊎◌, ◌↔◌, ◌<◌, IfOk, IfSome, IsNone, IsTrue};
ghost use Rattle.grid_base.specs.Point.{GridPoint};
ghost use Rattle.grid_base.specs.Segment.{IsSegmentBefore};
ghost use Rattle.grid_base.specs.Crossing.{Cross, Inside};
ghost use Rattle.grid_base.specs.MeetPoint.{MeetPoint};
ghost use Rattle.grid_base.specs.declared.kinds.Step.TheVariants.{Split, Meet as MeetStep, Corner};
ghost use Rattle.grid_rational.specs.Meeting.{IsCornerOf};
ghost use Rattle.segment_envelope.specs.Near.{Near};
ghost use Rattle.hook_chain.specs.Hook.{Hook};
ghost use Rattle.hook_chain.specs.Redrawing.{cut_at, round_corner};
ghost use Rattle.hook_chain.specs.Mending.{IsMending, MendsCrossing};
ghost use Rattle.chain_laws.specs.Redraws.{IsRedrawingsOf};

use crate::redrawing::{Redrawing, Redrawings};
use grid_base::{Chain, NoMemory, Point, Segment, Step, in_side};
use grid_rational::{Meet, meet_point};
use hook_chain::{HookError, hook};
use std::alloc::Global;

/// The step that mends the crossing of the pieces `t` and `u`, whichever is named first; none where they don't cross.
pub fn crossing_step(t: &Segment, u: &Segment) -> Option<Step>
    ensures apart { IsNone result ↔ (Cross t.now u.now → ⊥) }
    ensures mends { IfSome result (MendsCrossing t.now u.now) }
{
    let (first, second) = in_order(t, u);
    step_in_order(first, second)
}

// The two pieces, the lesser first.
fn in_order(t: &Segment, u: &Segment) -> (Segment, Segment)
    ensures either { ((result.0 ≡ t.now) × (result.1 ≡ u.now)) ⊎ ((result.0 ≡ u.now) × (result.1 ≡ t.now)) }
    ensures ordered { result.0 ≢ result.1 → IsSegmentBefore result.0 result.1 }
{
    if t < u { (*t, *u) } else { (*u, *t) }
}

// The step that mends the crossing of two pieces, the lesser of which is named first.
fn step_in_order(first: Segment, second: Segment) -> Option<Step>
    requires { first ≢ second → IsSegmentBefore first second }
    ensures apart { IsNone result ↔ (Cross first second → ⊥) }
    ensures mends { IfSome result (MendsCrossing first second) }
{
    match meet_point(&first, &second) {
        Meet::Apart => None,
        Meet::At(x) => Some(Step::Meet {
            t: first,
            u: second,
            x,
        }),
        Meet::Corner { falling_first, .. } => Some(corner_step(first, second, falling_first)),
    }
}

// The step for two diagonals that cross at the centre of a cell, which has the rising one first.
fn corner_step(first: Segment, second: Segment, falling_first: bool) -> Step
    requires { (z : GridPoint) × IsCornerOf first second z falling_first }
    ensures { MendsCrossing first second result }
{
    if falling_first {
        Step::Corner {
            t: second,
            u: first,
        }
    } else {
        Step::Corner {
            t: first,
            u: second,
        }
    }
}

/// Whether the step's point and pieces are such as it asks for.
pub fn is_mending(step: &Step) -> bool
    ensures { IsTrue result ↔ IsMending step.now }
{
    match step {
        Step::Split { p, t } => in_side(t, p),
        Step::Meet { t, u, x } => t < u && meets_at(t, u, x),
        Step::Corner { t, u } => cross_at_corner(t, u),
    }
}

// Whether `x` is the meet point of two pieces.
fn meets_at(t: &Segment, u: &Segment, x: &Point) -> bool
    ensures { IsTrue result ↔ MeetPoint t.now u.now x.now }
{
    meet_point(t, u) == Meet::At(*x)
}

// Whether two pieces are diagonals that cross at the centre of a cell, the rising one first.
fn cross_at_corner(t: &Segment, u: &Segment) -> bool
    ensures { IsTrue result ↔ IsMending (Corner t.now u.now) }
{
    match meet_point(t, u) {
        Meet::Corner { falling_first, .. } => !falling_first,
        _ => false,
    }
}

/// What the step puts in the place of its pieces.
pub fn redrawings_of(alloc: Global, step: &Step) -> Result<Redrawings, NoMemory>
    requires { IsMending step.now }
    ensures { IfOk result (IsRedrawingsOf step.now) }
{
    match step {
        Step::Split { p, t } => split(alloc, *t, *p),
        Step::Meet { t, u, x } => met(alloc, *t, *u, *x),
        Step::Corner { t, u } => cornered(alloc, *t, *u),
    }
}

// A piece, split at a point inside it.
fn split(alloc: Global, t: Segment, p: Point) -> Result<Redrawings, NoMemory>
    requires { Inside p t }
    ensures { IfOk result (IsRedrawingsOf (Split p t)) }
{
    // to read an end shows that the lesser comes first
    let _ = t.a();
    Ok(Redrawings {
        first: hooked(alloc, t, p)?,
        second: None,
    })
}

// Two pieces, each with its hook at their meet point.
fn met(alloc: Global, t: Segment, u: Segment, x: Point) -> Result<Redrawings, NoMemory>
    requires { IsMending (MeetStep t u x) }
    ensures { IfOk result (IsRedrawingsOf (MeetStep t u x)) }
{
    // to read an end shows that the lesser comes first
    let _ = (t.a(), u.a());
    Ok(Redrawings {
        first: hooked(alloc, t, x)?,
        second: Some(hooked(alloc, u, x)?),
    })
}

// The piece with its hook at a near point.
fn hooked(alloc: Global, piece: Segment, x: Point) -> Result<Redrawing, NoMemory>
    requires near { Near piece x }
    ensures piece { IfOk result (λ r. r.piece ≡ piece) }
    ensures hook { IfOk result (λ r. Hook piece x r.path) }
{
    match hook(alloc, &piece, x) {
        Ok(path) => Ok(Redrawing { piece, path }),
        Err(HookError::NoMemory) => Err(NoMemory),
        Err(HookError::NotNear) => unreachable!(),
    }
}

// Two diagonals that cross at the centre of a cell. The rising one is cut at the lower left corner, and the falling one
// drawn round it.
fn cornered(alloc: Global, t: Segment, u: Segment) -> Result<Redrawings, NoMemory>
    requires { IsMending (Corner t u) }
    ensures { IfOk result (IsRedrawingsOf (Corner t u)) }
{
    // to read an end shows that the lesser comes first
    let _ = (t.a(), u.a());
    let Meet::Corner { cell, .. } = meet_point(&t, &u) else {
        unreachable!()
    };
    Ok(Redrawings {
        first: Redrawing {
            piece: t,
            path: cut_path(alloc, t, cell)?,
        },
        second: Some(Redrawing {
            piece: u,
            path: round_path(alloc, u, cell)?,
        }),
    })
}

// The rising diagonal, cut at `z`.
fn cut_path(alloc: Global, t: Segment, z: Point) -> Result<Chain, NoMemory>
    ensures { IfOk result (λ path. path ≡ cut_at t z) }
{
    let (a, b) = (t.a(), t.b());
    if a == z {
        Ok(Chain::new(vec![in alloc; a, b]?))
    } else {
        Ok(Chain::new(vec![in alloc; a, z, b]?))
    }
}

// The falling diagonal, drawn round `z`.
fn round_path(alloc: Global, u: Segment, z: Point) -> Result<Chain, NoMemory>
    requires within { (z.x < u.b.x) × (z.y < u.a.y) }
    ensures { IfOk result (λ path. path ≡ round_corner u z) }
{
    let (a, b) = (u.a(), u.b());
    // to read these shows that the corners are on the grid
    let _ = (b.x(), a.y());
    let first = Point::at(z.x(), z.y() + 1);
    let last = Point::at(z.x() + 1, z.y());
    let mut list = Vec::new(alloc);
    if a != first {
        list.push(a)?;
    }
    list.push(first)?;
    list.push(z)?;
    list.push(last)?;
    if b != last {
        list.push(b)?;
    }
    Ok(Chain::new(list))
}
