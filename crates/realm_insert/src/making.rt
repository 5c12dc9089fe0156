//! What a change makes of the drawing and of the index of its pieces: first all that it places or takes away, and then the
//! steps.
ghost use Rattle.std.specs.Prelude.{◌≡◌, ◌+◌, ℕ, Err, IfOk, OnOk, IfSome, IsSomeAnd, length};
ghost use Rattle.grid_base.specs.Drawing.{Drawing as Drawn};
ghost use Rattle.realm_insert.specs.Changes.{IsChangedTo};
ghost use Rattle.realm_insert.specs.Kept.{IsAtRest};
ghost use Rattle.realm_insert.specs.State.{HasIdsBelow};
ghost use Rattle.realm_insert.specs.Misfits.{Misfits};
ghost use Rattle.realm_insert.specs.Work.{CanBeDrawn, IsPrepared, Redraws};
ghost use Rattle.realm_insert.specs.declared.settling.SettleError.TheVariants.{Mismatch};

use crate::asked::point_of;
use crate::figure::Figure;
use crate::placing::{mark_all, place_all};
use crate::removing::{remove, unmark};
use crate::settling::{SettleError, settle_by};
use grid_base::{NoMemory, Point, Segment, Step};
use line_grammar::Change;
use realm_drawing::Drawing;
use realm_index::NearIndex;
use record_codec::Trace;
use std::alloc::Global;

// Makes the change, which draws the figure, in the drawing, and settles it, by the given steps if there are any. The new originals have ids from
// `first` on.
pub(crate) fn redraw(
    alloc: Global,
    drawing: &mut Drawing,
    index: &mut NearIndex,
    first: u64,
    c: &Change,
    figure: &Figure,
    given: Option<&[Step]>,
) -> Result<Trace, SettleError>
    requires rest { IsAtRest drawing.old index.old }
    requires can { CanBeDrawn c.now figure.now drawing.old.drawing first }
    ensures redrawn { IfOk result (λ trace. Redraws c.now figure.now drawing.old.drawing first trace drawing.new.drawing) }
    ensures given { IfOk result (λ trace. IfSome given.entry (λ steps. trace ≡ steps.now)) }
    ensures mismatch { (number : ℕ) → result ≡ Err (Mismatch number) → IsSomeAnd given.entry (λ steps.
        (changed : Drawn) × IsChangedTo c.now figure.now drawing.old.drawing first changed × Misfits changed steps.now number) }
    ensures rest { OnOk result (IsAtRest drawing.new index.new) }
    ensures ids { OnOk result (HasIdsBelow (first + length figure.now.segments) drawing.new.drawing) }
{
    let fresh = prepare(alloc, drawing, index, first, c, figure)?;
    // That the explicit points ascend is known where one is asked for.
    let _ascending = drawing.is_explicit(&Point::at(0, 0));
    Ok(settle_by(alloc, drawing, index, fresh, given)?)
}

// Makes the change before the first step, and answers the pieces that are to be looked at.
fn prepare(
    alloc: Global,
    drawing: &mut Drawing,
    index: &mut NearIndex,
    first: u64,
    c: &Change,
    figure: &Figure,
) -> Result<Vec<Segment>, NoMemory>
    requires rest { IsAtRest drawing.old index.old }
    requires can { CanBeDrawn c.now figure.now drawing.old.drawing first }
    ensures { IfOk result (λ fresh.
        IsPrepared c.now figure.now drawing.old.drawing first drawing.new index.new fresh.items) }
{
    match c {
        Change::Unpoint(p) => {
            unmark(drawing, index, &point_of(p));
            Ok(Vec::new(alloc))
        }
        Change::Delete(id) => {
            let Ok(id) = u32::try_from(*id) else {
                unreachable!()
            };
            remove(alloc, drawing, index, id)?;
            Ok(Vec::new(alloc))
        }
        _ => {
            let mut fresh = mark_all(alloc, drawing, index, figure.points())?;
            place_all(drawing, index, first, figure.segments())?;
            fresh.extend_from_slice(figure.segments())?;
            Ok(fresh)
        }
    }
}
