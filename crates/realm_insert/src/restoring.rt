//! What an engine is made of, from what a snapshot keeps. `state_check` makes the drawing and the table; the index comes between
//! them, and with it every piece is looked at once.
ghost use Rattle.std.specs.Prelude.{◌≡◌, ◌↔◌, IsTrue, Contains, IfOk, MatchOption, MatchBool};
ghost use Rattle.grid_base.specs.Segment.{GridSegment};
ghost use Rattle.grid_base.specs.Drawing.{IsPiece, IsDrawnRealm, HasViolation};
ghost use Rattle.hook_chain.specs.StandingChains.{AllValid};
ghost use Rattle.realm_drawing.specs.Keyed.{AreKeyed};
ghost use Rattle.realm_insert.specs.Kept.{IsIndexed, IsAtRest};
ghost use Rattle.realm_insert.specs.Snapshots.{IsRestored, HasValidParts};
ghost use Rattle.realm_insert.specs.Work.{IsCoveredBy};
ghost use Rattle.state_check.specs.Drawable.{drawing_with, IsDrawable};
ghost use Rattle.state_check.specs.Numbers.{HaveFitting};
ghost use Rattle.state_check.specs.Tabled.{entries_of, AreTabled};

use crate::indexing::put_if_missing;
use crate::settling::{Round, next_step};
use chain_laws::step_mends;
use grid_base::{NoMemory, Segment, settled_is_realm};
use realm_drawing::Drawing;
use realm_index::NearIndex;
use record_codec::Snapshot;
use state_check::{drawing_of, numbers_fit, table_of};
use std::alloc::Global;
use value_table::Table;

// What an engine is made of.
#[derive(Drop)]
pub(crate) struct EngineParts {
    pub(crate) drawing: Drawing,
    pub(crate) index: NearIndex,
    pub(crate) table: Table,
}

// The parts of the state that the snapshot keeps; none where the drawing or a value isn't that of a valid state.
pub(crate) fn restored(alloc: Global, s: &Snapshot) -> Result<Option<EngineParts>, NoMemory>
    ensures { IfOk result (λ found. MatchOption found (HasValidParts s.now → ⊥)
        (λ r. IsRestored s.now r.drawing r.index r.table)) }
{
    let made = drawing_in(alloc, s)?;
    let Some(drawing) = made else {
        return Ok(None);
    };
    let settled = index_at_rest(alloc, &drawing)?;
    let Some(index) = settled else {
        return Ok(None);
    };
    let tabled = table_in(alloc, &drawing, s)?;
    let Some(table) = tabled else {
        return Ok(None);
    };
    Ok(Some(EngineParts {
        drawing,
        index,
        table,
    }))
}

// Whether the numbers of the state are within their bounds.
pub(crate) fn numbers_in(s: &Snapshot) -> bool
    ensures { IsTrue result ↔ HaveFitting s.now.changes s.now.next_id s.now.originals }
{
    numbers_fit(s.changes, s.next_id, s.originals.items())
}

fn drawing_in(alloc: Global, s: &Snapshot) -> Result<Option<Drawing>, NoMemory>
    ensures { IfOk result (λ found. MatchOption found
        (IsDrawable (drawing_with s.now.points s.now.originals) → ⊥)
        (λ d. (d.drawing ≡ drawing_with s.now.points s.now.originals) × IsDrawable d.drawing)) }
{
    drawing_of(alloc, s.points.items(), s.originals.items())
}

fn table_in(alloc: Global, drawing: &Drawing, s: &Snapshot) -> Result<Option<Table>, NoMemory>
    ensures { IfOk result (λ found. MatchOption found
        (AreTabled drawing.now.drawing (entries_of s.now.values) → ⊥)
        (λ table. (table ≡ entries_of s.now.values) × AreTabled drawing.now.drawing table)) }
{
    table_of(alloc, drawing, s.values.items())
}

// The index of the drawing; none where the drawing isn't a realm.
fn index_at_rest(alloc: Global, drawing: &Drawing) -> Result<Option<NearIndex>, NoMemory>
    requires valid { AllValid drawing.now.drawing }
    ensures { IfOk result (λ found. MatchOption found (IsDrawnRealm drawing.now.drawing → ⊥)
        (λ index. IsAtRest drawing.now index × IsDrawnRealm drawing.now.drawing)) }
{
    settled_is_realm();
    let pieces = drawing.pieces()?;
    // That each piece has a key is known where one is read.
    let _keyed = drawing.piece(0);
    let index = index_of(alloc, drawing, pieces.as_slice())?;
    let settled = is_settled(alloc, drawing, &index, pieces)?;
    if !settled {
        return Ok(None);
    }
    Ok(Some(index))
}

// Whether no violation is left of those that the pieces cover.
fn is_settled(
    alloc: Global,
    drawing: &Drawing,
    index: &NearIndex,
    mut pieces: Vec<Segment>,
) -> Result<bool, NoMemory>
    requires indexed { IsIndexed drawing.now index.now }
    requires keyed { AreKeyed drawing.now }
    requires valid { AllValid drawing.now.drawing }
    requires covered { IsCoveredBy drawing.now.drawing pieces.items }
    ensures { IfOk result (λ settled. MatchBool settled (HasViolation drawing.now.drawing → ⊥)
        (HasViolation drawing.now.drawing)) }
{
    step_mends();
    let mut round = Round::behind(pieces.len());
    let found = next_step(alloc, drawing, index, &mut pieces, &mut round)?;
    Ok(found.is_none())
}

// The index of these pieces, which are all.
fn index_of(alloc: Global, drawing: &Drawing, pieces: &[Segment]) -> Result<NearIndex, NoMemory>
    requires keyed { AreKeyed drawing.now }
    requires all { (t : GridSegment) → Contains pieces.now t ↔ IsPiece drawing.now.drawing t }
    ensures { IfOk result (IsIndexed drawing.now) }
{
    let mut index = NearIndex::new(alloc);
    for s in pieces {
        put_if_missing(drawing, &mut index, s)?;
    }
    Ok(index)
}
