//! The lines of a change that was made: what its own line says is gone, the points that have come, the originals from its
//! first id on, and its steps. So neither drawing is gone through.
ghost use Rattle.std.specs.Prelude.{◌≡◌, ◌≤◌, ◌<◌, ◌^◌, ◌++◌, ◌∷◌, [], false, map, All, IfOk, OnOk, MatchOption, Contains};
ghost use Rattle.certificate_law.specs.Certificates.{segment_item};
ghost use Rattle.grid_base.specs.Point.{OnGrid, IsBefore};
ghost use Rattle.grid_base.specs.declared.original.Original.{Original};
ghost use Rattle.realm_audit.specs.Items.{IsLine, IsStep, EndsOnGrid};
ghost use Rattle.realm_audit.specs.declared.item.Item.TheVariants as items;
ghost use Rattle.hook_chain.specs.Ids.{LacksId};
ghost use Rattle.realm_insert.specs.State.{HasIdsBelow};
ghost use Rattle.store_certificate.specs.Telling.{lost_items, from_id, told_items, HasSegmentToo};

use crate::lines::Lines;
use crate::opening::opening_point;
use grid_base::{NoMemory, Point, Segment, Step};
use line_grammar::Change;
use realm_audit::Item;
use realm_drawing::Drawing;
use realm_insert::{Applied, Engine};
use record_codec::Trace;
use std::alloc::Global;

/// The lines of the change that led to the engine's state.
pub(crate) fn change_lines(
    alloc: Global,
    engine: &Engine,
    change: &Change,
    applied: &Applied,
    trace: &Trace,
) -> Result<Lines, NoMemory>
    requires ready { engine.now.spent ≡ false }
    requires lost { All IsLine (lost_items change.now) }
    requires first { 1 ≤ applied.now.first }
    requires order { applied.now.first ≤ engine.now.state.next_id }
    ensures { IfOk result (λ lines. lines ≡ told_items change.now applied.now.points.items
        (from_id applied.now.first engine.now.state.drawing.originals) trace.now) }
{
    engine.is_valid();
    let mut lines = Lines::new(alloc);
    lines.push(Item::Change)?;
    push_lost(&mut lines, change)?;
    push_points(&mut lines, applied.points.as_slice())?;
    let next_id = engine.next_id();
    push_segments(&mut lines, engine.drawing(), applied.first, next_id)?;
    push_steps(&mut lines, trace.steps())?;
    Ok(lines)
}

// What the change takes away.
fn push_lost(lines: &mut Lines, change: &Change) -> Result<(), NoMemory>
    requires fits { All IsLine (lost_items change.now) }
    ensures { OnOk result (lines.new ≡ lines.old ++ lost_items change.now) }
{
    match change {
        Change::Unpoint(p) => lines.push(Item::Unpoint(Point::at(p.x as u32, p.y as u32))),
        Change::Delete(id) => lines.push(Item::Remove(*id as u32)),
        _ => Ok(()),
    }
}

// The points that have become explicit.
fn push_points(lines: &mut Lines, points: &[Point]) -> Result<(), NoMemory>
    ensures { OnOk result (lines.new ≡ lines.old ++ map items.Point points.now) }
{
    for p in points {
        lines.push(opening_point(p))?;
    }
    Ok(())
}

// The originals from the first id on. A drawing finds one by its id alone, so the ids are gone through.
fn push_segments(
    lines: &mut Lines,
    drawing: &Drawing,
    first: u64,
    next_id: u64,
) -> Result<(), NoMemory>
    requires least { 1 ≤ first }
    requires order { first ≤ next_id }
    requires most { next_id ≤ 2 ^ 32 }
    requires below { HasIdsBelow next_id drawing.now.drawing }
    ensures { OnOk result (lines.new
        ≡ lines.old ++ map segment_item (from_id first drawing.now.drawing.originals)) }
{
    // That ids rise is known where a chain is asked for.
    let _rising = drawing.chain(0);
    for id in first..next_id {
        push_segment(lines, drawing, id as u32)?;
    }
    Ok(())
}

// The original with this id, if there is one.
fn push_segment(lines: &mut Lines, drawing: &Drawing, id: u32) -> Result<(), NoMemory>
    requires some { 1 ≤ id }
    ensures { OnOk result (HasSegmentToo drawing.now.drawing id lines.old lines.new) }
{
    match segment_line(drawing, id) {
        Some(item) => lines.push(item),
        None => Ok(()),
    }
}

// The line of the original with this id. The ends of its chain are its own.
fn segment_line(drawing: &Drawing, id: u32) -> Option<Item>
    requires some { 1 ≤ id }
    ensures { MatchOption result (LacksId drawing.now.drawing.originals id) (λ item. IsLine item
        × (o : Original) × Contains drawing.now.drawing.originals o × (o.id ≡ id) × (item ≡ segment_item o)) }
{
    let points = drawing.chain(id)?;
    let a = points[0];
    let b = points[points.len() - 1];
    on_grid(&a);
    on_grid(&b);
    Some(Item::Segment(id, a, b))
}

fn push_steps(lines: &mut Lines, trace: &[Step]) -> Result<(), NoMemory>
    ensures { OnOk result (lines.new ≡ lines.old ++ map items.Step trace.now) }
{
    for step in trace {
        step_has_text(step);
        lines.push(Item::Step(*step))?;
    }
    Ok(())
}

// That each step has a text: its points are on the grid, and its segments have the lesser end first.
fn step_has_text(step: &Step)
    ensures { IsStep step.now }
{
    match step {
        Step::Split { p, t } => {
            on_grid(p);
            ends_on_grid(t);
        }
        Step::Meet { t, u, x } => {
            ends_on_grid(t);
            ends_on_grid(u);
            on_grid(x);
        }
        Step::Corner { t, u } => {
            ends_on_grid(t);
            ends_on_grid(u);
        }
    }
}

fn ends_on_grid(s: &Segment)
    ensures ends { EndsOnGrid s.now }
    ensures ordered { IsBefore s.now.a s.now.b }
{
    on_grid(&s.a());
    on_grid(&s.b());
}

// A point is on the grid.
fn on_grid(p: &Point)
    ensures { OnGrid p.now }
{
    let (_x, _y) = (p.x(), p.y());
}
