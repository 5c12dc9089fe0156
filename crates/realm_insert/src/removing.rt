//! What a change takes away: an original, or an explicit point. No violation comes of it, so no step follows.
ghost use Rattle.std.specs.Prelude.{◌≡◌, ℕ, IfOk, OnOk};
ghost use Rattle.hook_chain.specs.Changed.{without_id};
ghost use Rattle.realm_drawing.specs.Keyed.{TakesPoint};
ghost use Rattle.value_geometry.specs.Geometry.{IsOnChainOf};
ghost use Rattle.realm_insert.specs.Indexing.{ListsKeyed};
ghost use Rattle.realm_insert.specs.Kept.{IsAtRest};
ghost use Rattle.realm_insert.specs.Work.{ListsLink};

use crate::indexing::{forget_gone, note};
use grid_base::{NoMemory, Point, Segment};
use realm_drawing::{Drawing, KeyedPiece};
use realm_index::NearIndex;
use std::alloc::Global;

// Takes the original with this id out, and those of its pieces that no other original has.
pub(crate) fn remove(
    alloc: Global,
    drawing: &mut Drawing,
    index: &mut NearIndex,
    id: u32,
) -> Result<(), NoMemory>
    requires rest { IsAtRest drawing.old index.old }
    ensures removed { OnOk result (drawing.new.drawing ≡ without_id drawing.old.drawing id) }
    ensures rest { OnOk result (IsAtRest drawing.new index.new) }
{
    let noted = pieces_along(alloc, drawing, id)?;
    drawing.remove(id);
    forget_gone(drawing, index, noted.as_slice());
    // That each piece has a key is known where one is read.
    let _keyed = drawing.piece(0);
    Ok(())
}

// The pieces on the chain of the original with this id, with their keys.
fn pieces_along(alloc: Global, drawing: &Drawing, id: u32) -> Result<Vec<KeyedPiece>, NoMemory>
    ensures { IfOk result (λ list. ListsKeyed drawing.now (λ s. IsOnChainOf drawing.now.drawing s id) list.items) }
{
    let mut list = Vec::new(alloc);
    let Some(points) = drawing.chain(id) else {
        return Ok(list);
    };
    for i in 1..points.len() {
        note_link(drawing, &points[i - 1], &points[i], &mut list)?;
    }
    Ok(list)
}

// Lists the segment between two points with its key, if it is a piece.
fn note_link(
    drawing: &Drawing,
    v: &Point,
    w: &Point,
    list: &mut Vec<KeyedPiece>,
) -> Result<(), NoMemory>
    ensures { OnOk result (ListsLink drawing.now v.now w.now list.old.items list.new.items) }
{
    if let Some(s) = Segment::new(*v, *w) {
        note(drawing, &s, list)?;
    }
    Ok(())
}

// Makes `p` no longer explicit.
pub(crate) fn unmark(drawing: &mut Drawing, index: &NearIndex, p: &Point)
    requires rest { IsAtRest drawing.old index.now }
    ensures taken { TakesPoint drawing.old drawing.new p.now }
    ensures rest { IsAtRest drawing.new index.now }
{
    drawing.take_point(p);
    // That each piece has a key is known where one is read.
    let _keyed = drawing.piece(0);
}
