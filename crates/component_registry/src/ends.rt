//! How often each point is an end of a piece, each piece counted once for each of its owners.
ghost use Rattle.std.specs.Prelude.{◌≡◌, ◌≢◌, ◌+◌, ◌<◌, ◌≤◌, ◌^◌, OnOk};
ghost use Rattle.std.specs.HashMap.{spare};
ghost use Rattle.grid_base.specs.Point.{GridPoint};
ghost use Rattle.grid_base.specs.Segment.{IsEnd};
ghost use Rattle.component_registry.specs.Ends.{uses_in, HasNoZero, SameUses, SameOtherUses};
ghost use Rattle.component_registry.specs.Registry.{times_end};

use crate::hashed::Hashed;
use grid_base::{NoMemory, Point, Segment};

// A count for each point that is used.
pub(crate) type Ends = Hashed<Point, u64>;

// How often `p` is used.
pub(crate) fn uses_of(ends: &Ends, p: &Point) -> u64
    ensures { result ≡ uses_in ends.now p.now }
{
    ends.get(p).copied().unwrap_or(0)
}

// Makes room for the counts of two more points.
pub(crate) fn make_room(ends: &mut Ends) -> Result<(), NoMemory>
    ensures same { SameUses ends.old ends.new }
    ensures room { OnOk result (2 ≤ spare ends.new) }
{
    ends.reserve(2)?;
    Ok(())
}

// Counts one use more of both ends of `piece`.
pub(crate) fn count_up(ends: &mut Ends, piece: &Segment)
    requires room { 2 ≤ spare ends.old }
    requires fits { (p : GridPoint) → uses_in ends.old p + 1 < 2 ^ 64 }
    ensures more { (p : GridPoint) → uses_in ends.new p ≡ uses_in ends.old p + times_end p piece.now }
    ensures no_zero { HasNoZero ends.old → HasNoZero ends.new }
{
    let (a, b) = (piece.a(), piece.b());
    raise(ends, a);
    raise(ends, b);
}

// Counts one use fewer of both ends of `piece`.
pub(crate) fn count_down(ends: &mut Ends, piece: &Segment)
    requires used { (p : GridPoint) → IsEnd p piece.now → 0 < uses_in ends.old p }
    ensures fewer { (p : GridPoint) → uses_in ends.new p + times_end p piece.now ≡ uses_in ends.old p }
    ensures no_zero { HasNoZero ends.old → HasNoZero ends.new }
{
    let (a, b) = (piece.a(), piece.b());
    lower(ends, &a);
    lower(ends, &b);
}

// Counts one use of `p` more.
fn raise(ends: &mut Ends, p: Point)
    requires room { 0 < spare ends.old }
    requires fits { uses_in ends.old p + 1 < 2 ^ 64 }
    ensures here { uses_in ends.new p ≡ uses_in ends.old p + 1 }
    ensures others { SameOtherUses ends.old ends.new p }
    ensures no_zero { HasNoZero ends.old → HasNoZero ends.new }
    ensures room { spare ends.old ≤ spare ends.new + 1 }
{
    let Ok(entry) = ends.entry(p) else {
        unreachable!();
    };
    *entry.or_insert(0) += 1;
}

// Counts one use of `p` fewer, and forgets it with its last.
fn lower(ends: &mut Ends, p: &Point)
    requires used { 0 < uses_in ends.old p.now }
    ensures here { uses_in ends.new p.now + 1 ≡ uses_in ends.old p.now }
    ensures others { SameOtherUses ends.old ends.new p.now }
    ensures no_zero { HasNoZero ends.old → HasNoZero ends.new }
{
    if let Some(uses) = ends.get_mut(p) {
        *uses -= 1;
        if *uses == 0 {
            ends.remove(p);
        }
    }
}
