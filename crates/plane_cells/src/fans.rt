//! The segments that begin at a vertex, from below.
ghost use Rattle.std.specs.Prelude.{◌≡◌, ℕ, ◌+◌, ◌<◌, ◌≤◌, length, IfOk};
ghost use Rattle.grid_base.specs.Grid.{grid_side};
ghost use Rattle.plane_cells.specs.Steps.{In, Each, Pairs};
ghost use Rattle.plane_cells.specs.Numbered.{numbered};
ghost use Rattle.plane_cells.specs.Sheared.{AreOfRealm};
ghost use Rattle.plane_cells.specs.Scan.{AreNumbers, AreAscending, IsLeftward, IsNext, IsFan, IsInserted};

use crate::status::count_below;
use grid_base::{NoMemory, Point, Segment};
use std::alloc::Global;
use tiered_vector::TieredVector;

/// The segments that begin at `v`, from below; `next` is the first that doesn't begin before it.
pub fn fan(
    alloc: Global,
    border: &[Segment],
    next: usize,
    v: &Point,
) -> Result<TieredVector<usize>, NoMemory>
    requires realm { AreOfRealm border.now }
    requires ascending { AreAscending border.now }
    requires next { IsNext border.now v.now next }
    requires on_grid { v.now.y < grid_side }
    ensures { IfOk result (λ f. IsFan border.now v.now next f) }
{
    let mut fan = TieredVector::new(alloc);
    let mut i = next;
    while i < border.len() && border[i].a() == *v {
        insert_by_angle(border, &mut fan, i)?;
        i += 1;
    }
    Ok(fan)
}

// Puts segment `i` where it belongs among those that begin with it.
fn insert_by_angle(
    border: &[Segment],
    fan: &mut TieredVector<usize>,
    i: usize,
) -> Result<(), NoMemory>
    requires realm { AreOfRealm border.now }
    requires number { i < length border.now }
    requires numbers { AreNumbers border.now fan.old }
    requires fresh { Each (λ j. i ≡ j → ⊥) fan.old }
    requires begins { Each (λ j. (numbered border.now j).a ≡ (numbered border.now i).a) fan.old }
    requires leftward { Pairs (IsLeftward border.now) fan.old }
    ensures inserted { IfOk result (λ _. IsInserted i fan.old fan.new) }
    ensures leftward { IfOk result (λ _. Pairs (IsLeftward border.now) fan.new) }
{
    let place = count_below(border, fan, &border[i].b());
    fan.insert(place, i)?;
    Ok(())
}
