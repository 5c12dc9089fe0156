//! The originals of a drawing with their chains.
ghost use Rattle.std.specs.Prelude.{◌≡◌, ◌≤◌, ◌<◌, ◌^◌, All, IfOk, OnOk, MatchOption};
ghost use Rattle.grid_base.specs.Point.{OnGrid};
ghost use Rattle.grid_base.specs.declared.original.Original.{Original as Given};
ghost use Rattle.hook_chain.specs.Ids.{IsAscending, LacksId};
ghost use Rattle.record_codec.specs.Fitting.{IsList};
ghost use Rattle.record_codec.specs.Payload.{IsOriginal};
ghost use Rattle.state_copies.specs.Copies.{IsCopyOf, HasOriginalToo};

use grid_base::{Chain, NoMemory, Original, Point};
use realm_drawing::Drawing;
use state_check::copied_points;
use std::alloc::Global;

/// The originals with their chains, by rising id. Only the ids that the drawing has are gone through.
pub fn copied_originals(
    alloc: Global,
    drawing: &Drawing,
    next_id: u64,
) -> Result<Vec<Original>, NoMemory>
    requires ids { All (λ (o : Given). (1 ≤ o.id) × (o.id < next_id)) drawing.now.drawing.originals }
    requires least { 1 ≤ next_id }
    requires most { next_id ≤ 2 ^ 32 }
    ensures same { IfOk result (λ v. v.items ≡ drawing.now.drawing.originals) }
    ensures fits { IfOk result (λ v. IsList IsOriginal v.items) }
    ensures rising { IfOk result (λ v. IsAscending v.items) }
{
    let ids = drawing.ids()?;
    let mut list = Vec::with_capacity(alloc, ids.len())?;
    for id in &ids {
        list_original(alloc, drawing, *id, &mut list)?;
    }
    Ok(list)
}

// Adds the original with this id at the end, if there is one.
fn list_original(
    alloc: Global,
    drawing: &Drawing,
    id: u32,
    list: &mut Vec<Original>,
) -> Result<(), NoMemory>
    ensures { OnOk result (HasOriginalToo drawing.now.drawing id list.old.items list.new.items) }
{
    let found = copied_original(alloc, drawing, id)?;
    if let Some(o) = found {
        list.push(o)?;
    }
    Ok(())
}

// The original with this id.
fn copied_original(alloc: Global, drawing: &Drawing, id: u32) -> Result<Option<Original>, NoMemory>
    ensures { IfOk result (λ found. MatchOption found (LacksId drawing.now.drawing.originals id)
        (IsCopyOf drawing.now.drawing id)) }
{
    let Some(points) = drawing.chain(id) else {
        return Ok(None);
    };
    let a = points[0];
    let b = points[points.len() - 1];
    on_grid(&a);
    on_grid(&b);
    let list = copied_points(alloc, points)?;
    let chain = Chain::new(list);
    Ok(Some(Original { id, a, b, chain }))
}

// A point is on the grid.
fn on_grid(p: &Point)
    ensures { OnGrid p.now }
{
    let (_x, _y) = (p.x(), p.y());
}
