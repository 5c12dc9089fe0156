//! What a change places: straight originals, or explicit points. All of it is placed before the first step, and a list keeps
//! the pieces that are to be looked at.
ghost use Rattle.std.specs.Prelude.{◌≡◌, ◌+◌, ◌≤◌, ◌^◌, ◌++◌, ◌∷◌, ◌↔◌, [], not, length, IfOk, OnOk, List};
ghost use Rattle.std.specs.Prelude.{AllPairs, Contains};
ghost use Rattle.grid_base.specs.Point.{GridPoint, IsBefore};
ghost use Rattle.grid_base.specs.Segment.{GridSegment};
ghost use Rattle.hook_chain.specs.StandingChains.{AllValid};
ghost use Rattle.realm_drawing.specs.Keyed.{AreKeyed, AddsPoint};
ghost use Rattle.hook_chain.specs.Straight.{placed};
ghost use Rattle.realm_insert.specs.Changes.{placed_all};
ghost use Rattle.realm_insert.specs.Differences.{is_among, points_besides};
ghost use Rattle.realm_insert.specs.Kept.{IsIndexed};
ghost use Rattle.realm_insert.specs.State.{HasIdsBelow};
ghost use Rattle.realm_insert.specs.Work.{IsCoveredBy, AddsPoints};

use crate::indexing::put_if_missing;
use crate::searching::pieces_round;
use grid_base::{NoMemory, Point, Segment};
use realm_drawing::Drawing;
use realm_index::NearIndex;
use rose_overlay::ascending_points;
use std::alloc::Global;

// Places a straight original along each segment, the first with the id `first`.
pub(crate) fn place_all(
    drawing: &mut Drawing,
    index: &mut NearIndex,
    first: u64,
    list: &[Segment],
) -> Result<(), NoMemory>
    requires indexed { IsIndexed drawing.old index.old }
    requires keyed { AreKeyed drawing.old }
    requires valid { AllValid drawing.old.drawing }
    requires ids { HasIdsBelow first drawing.old.drawing }
    requires least { 1 ≤ first }
    requires most { first + length list.now ≤ 2 ^ 32 }
    ensures placed { OnOk result (drawing.new.drawing ≡ placed_all drawing.old.drawing first list.now) }
    ensures indexed { OnOk result (IsIndexed drawing.new index.new) }
    ensures keyed { OnOk result (AreKeyed drawing.new) }
    ensures valid { OnOk result (AllValid drawing.new.drawing) }
    ensures covered { OnOk result ((before : List GridSegment) → IsCoveredBy drawing.old.drawing before
        → IsCoveredBy drawing.new.drawing (before ++ list.now)) }
    ensures ids { OnOk result (HasIdsBelow (first + length list.now) drawing.new.drawing) }
{
    let mut id = first;
    for s in list {
        place(drawing, index, id as u32, *s)?;
        id += 1;
    }
    Ok(())
}

fn place(drawing: &mut Drawing, index: &mut NearIndex, id: u32, s: Segment) -> Result<(), NoMemory>
    requires indexed { IsIndexed drawing.old index.old }
    requires keyed { AreKeyed drawing.old }
    requires ids { HasIdsBelow id drawing.old.drawing }
    requires least { 1 ≤ id }
    ensures placed { OnOk result (drawing.new.drawing ≡ placed drawing.old.drawing id s) }
    ensures indexed { OnOk result (IsIndexed drawing.new index.new) }
    ensures keyed { OnOk result (AreKeyed drawing.new) }
    ensures valid { OnOk result (AllValid drawing.new.drawing) }
    ensures covered { OnOk result ((list : List GridSegment)
        → IsCoveredBy drawing.old.drawing list → IsCoveredBy drawing.new.drawing (list ++ s ∷ [])) }
    ensures ids { OnOk result (HasIdsBelow (id + 1) drawing.new.drawing) }
{
    drawing.place(id, s)?;
    put_if_missing(drawing, index, &s)?;
    Ok(())
}

// The points of the path that aren't explicit, ascending and each once.
pub(crate) fn points_to_mark(
    alloc: Global,
    drawing: &Drawing,
    path: &[Point],
) -> Result<Vec<Point>, NoMemory>
    ensures ascending { IfOk result (λ v. AllPairs IsBefore v.items) }
    ensures same { IfOk result (λ v. (p : GridPoint)
        → Contains v.items p ↔ Contains (points_besides path.now drawing.now.drawing.points) p) }
{
    let mut points = Vec::new(alloc);
    for p in path {
        if is_to_mark(drawing, p) {
            points.push(*p)?;
        }
    }
    Ok(ascending_points(points))
}

fn is_to_mark(drawing: &Drawing, p: &Point) -> bool
    ensures { result ≡ not (is_among drawing.now.drawing.points p.now) }
{
    !drawing.is_explicit(p)
}

// Makes the points explicit, and answers the pieces that have one inside.
pub(crate) fn mark_all(
    alloc: Global,
    drawing: &mut Drawing,
    index: &NearIndex,
    path: &[Point],
) -> Result<Vec<Segment>, NoMemory>
    requires indexed { IsIndexed drawing.old index.now }
    requires keyed { AreKeyed drawing.old }
    requires valid { AllValid drawing.old.drawing }
    requires covered { IsCoveredBy drawing.old.drawing [] }
    ensures added { OnOk result (AddsPoints path.now drawing.old drawing.new) }
    ensures indexed { OnOk result (IsIndexed drawing.new index.now) }
    ensures keyed { OnOk result (AreKeyed drawing.new) }
    ensures valid { OnOk result (AllValid drawing.new.drawing) }
    ensures covered { IfOk result (λ list. IsCoveredBy drawing.new.drawing list.items) }
{
    let mut list = Vec::new(alloc);
    for p in path {
        mark(alloc, drawing, index, *p, &mut list)?;
    }
    Ok(list)
}

fn mark(
    alloc: Global,
    drawing: &mut Drawing,
    index: &NearIndex,
    p: Point,
    list: &mut Vec<Segment>,
) -> Result<(), NoMemory>
    requires indexed { IsIndexed drawing.old index.now }
    requires keyed { AreKeyed drawing.old }
    requires valid { AllValid drawing.old.drawing }
    requires covered { IsCoveredBy drawing.old.drawing list.old.items }
    ensures added { OnOk result (AddsPoint drawing.old drawing.new p) }
    ensures indexed { OnOk result (IsIndexed drawing.new index.now) }
    ensures keyed { OnOk result (AreKeyed drawing.new) }
    ensures valid { OnOk result (AllValid drawing.new.drawing) }
    ensures covered { OnOk result (IsCoveredBy drawing.new.drawing list.new.items) }
{
    drawing.add_point(p)?;
    let round = pieces_round(alloc, drawing, index, &p)?;
    list.extend_from_slice(round.as_slice())?;
    Ok(())
}
