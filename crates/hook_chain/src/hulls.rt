//! The hook of a piece at a point: the way of a rubber band along the piece that is pulled to the point,
//! with the grid points as nails.
ghost use Rattle.std.specs.Prelude.{◌≡◌, ◌≢◌, ◌↔◌, ◌++◌, reverse, IfOk, Err};
ghost use Rattle.grid_base.specs.Sides.{On, side};
ghost use Rattle.segment_envelope.specs.Near.{Near};
ghost use Rattle.hook_chain.specs.Hook.{Hook};
ghost use Rattle.hook_chain.specs.Redrawing.{front};
ghost use Rattle.hook_chain.specs.declared.hulls.HookError.TheVariants.{NotNear, NoMemory as Exhausted};

use crate::charts::{back_along, chart_of};
use crate::walking::part;
use grid_base::{Chain, NoMemory, Point, Segment, cross_of};
use segment_envelope::near;
use std::alloc::Global;
use thiserror::Error;

/// Why there is no hook.
#[derive(Clone, Copy, Debug, PartialEq, Eq, Error)]
pub enum HookError {
    /// The point isn't near the piece.
    #[error("the point isn't near the piece")]
    NotNear,
    #[error("no memory")]
    NoMemory,
}

impl From<NoMemory> for HookError {
    ghost from_gives = { λ _ e. e ≡ Exhausted };

    fn from(_: NoMemory) -> HookError {
        HookError::NoMemory
    }
}

/// The hook of `t` at `x`, a point near it: from the lesser end of `t` by `x` to the greater end, round
/// the grid points between. Where `x` is an end of `t` it is `t` itself, and where `x` is inside `t` it has
/// the one more point `x`.
pub fn hook(alloc: Global, t: &Segment, x: Point) -> Result<Chain, HookError>
    ensures hook { IfOk result (λ chain. Hook t.now x chain) }
    ensures not_near { result ≡ Err NotNear ↔ (Near t.now x → ⊥) }
    ensures near { result ≢ Err NotNear → Near t.now x }
{
    if !near(t, &x) {
        return Err(HookError::NotNear);
    }
    let list = path(alloc, t, x)?;
    Ok(Chain::new(list))
}

// The points of the hook.
fn path(alloc: Global, t: &Segment, x: Point) -> Result<Vec<Point>, NoMemory>
    requires { Near t.now x }
    ensures { IfOk result (λ list. Hook t.now x list.items) }
{
    let (a, b) = (t.a(), t.b());
    if x == a || x == b {
        return Ok(Vec::from_slice(alloc, &[a, b])?);
    }
    if cross_of(t, &x) == 0 {
        return Ok(Vec::from_slice(alloc, &[a, x, b])?);
    }
    bent(alloc, t, x)
}

// The points of the hook at a point beside the piece.
fn bent(alloc: Global, t: &Segment, x: Point) -> Result<Vec<Point>, NoMemory>
    requires near { Near t.now x }
    requires beside { side t.now.a t.now.b x ≢ On }
    ensures { IfOk result (λ list. Hook t.now x list.items) }
{
    let (a, b) = (t.a(), t.b());
    let chart = chart_of(t, &x);
    let to = part(alloc, &chart, a, b, x)?;
    let back = back_along(&chart);
    let from = part(alloc, &back, b, a, x)?;
    join(to, from)
}

// The points of `to` without its last, and those of `from` from its last to its first.
fn join(mut to: Vec<Point>, mut from: Vec<Point>) -> Result<Vec<Point>, NoMemory>
    ensures { IfOk result (λ list. list.items ≡ front to.items ++ reverse from.items) }
{
    to.pop();
    while let Some(p) = from.pop() {
        to.push(p)?;
    }
    Ok(to)
}
