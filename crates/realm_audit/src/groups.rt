//! Pieces that lie close together, so that one search finds what is near any of them.
ghost use Rattle.std.specs.Prelude.{◌≡◌, ◌+◌, ◌<◌, ◌≤◌, IfSome, IfNone, All, length, take};
ghost use Rattle.grid_base.specs.Segment.{GridSegment};
ghost use Rattle.realm_audit.specs.Shelves.{extent};
ghost use Rattle.realm_audit.specs.Groups as boxes;
ghost use Rattle.realm_audit.specs.Groups.{Surrounds, AreWidened, ReachFurther};

use crate::bounds::Bounds;
use crate::shelves::{bounds_of, extent_of};
use grid_base::Segment;

/// The first pieces of a list, so many, and a box around them.
#[derive(Clone, Copy)]
pub(crate) struct Group {
    pub(crate) count: usize,
    pub(crate) bounds: Bounds,
    // how far each of them reaches, added up
    extents: u64,
    ghost some: { 0 < count },
}

// The most pieces of a group: each is compared with all that is near one of them.
const MOST: usize = 16;

// The first piece, and those behind it that come close to it: in a box around them that is no wider or higher than they are
// when they are laid one behind the other.
pub(crate) fn first_group(pieces: &[Segment]) -> Group
    requires { 0 < length pieces.now }
    ensures within { result.count ≤ length pieces.now }
    ensures around { All (Surrounds result.bounds) (take result.count pieces.now) }
{
    let mut group = group_of(&pieces[0]);
    while group.count < pieces.len().min(MOST) {
        match joined(&group, &pieces[group.count]) {
            Some(more) => group = more,
            None => return group,
        }
    }
    group
}

// The group of one piece.
fn group_of(t: &Segment) -> Group
    ensures one { result.count ≡ 1 }
    ensures extents { result.extents ≡ extent t.now }
    ensures around { Surrounds result.bounds t.now }
{
    Group {
        count: 1,
        bounds: bounds_of(t),
        extents: u64::from(extent_of(t)),
    }
}

// The group with one more piece, if that comes close.
fn joined(group: &Group, t: &Segment) -> Option<Group>
    requires { group.now.count < MOST }
    ensures count { IfSome result (λ more. more.count ≡ group.now.count + 1) }
    ensures around { IfSome result (λ more. Surrounds more.bounds t.now) }
    ensures stay { IfSome result (λ more. (s : GridSegment) → Surrounds group.now.bounds s → Surrounds more.bounds s) }
    ensures far { IfNone result (ReachFurther group.now.bounds t.now (group.now.extents + extent t.now)) }
{
    let bounds = widened(&group.bounds, t);
    let extents = group.extents.saturating_add(u64::from(extent_of(t)));
    if u64::from(extent_of_bounds(&bounds)) > extents {
        return None;
    }
    Some(Group {
        count: group.count + 1,
        bounds,
        extents,
    })
}

// The box around the bounds and the piece.
fn widened(bounds: &Bounds, t: &Segment) -> Bounds
    ensures least { AreWidened bounds.now t.now result }
    ensures around { Surrounds result t.now }
    ensures stay { (s : GridSegment) → Surrounds bounds.now s → Surrounds result s }
{
    let own = bounds_of(t);
    Bounds {
        left: bounds.left.min(own.left),
        right: bounds.right.max(own.right),
        low: bounds.low.min(own.low),
        high: bounds.high.max(own.high),
    }
}

// How wide the box is, or how high, whichever is more.
fn extent_of_bounds(bounds: &Bounds) -> u32
    ensures { result ≡ boxes.extent_of_bounds bounds.now }
{
    let width = bounds.right.saturating_sub(bounds.left);
    let height = bounds.high.saturating_sub(bounds.low);
    width.max(height)
}
