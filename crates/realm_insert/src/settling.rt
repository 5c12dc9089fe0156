//! Settling: steps are taken until no violation is left. A list has the pieces that are still to be looked
//! at: each violation has one of them or an end of one. What a step draws anew joins the list; a piece that a
//! step replaced stays on it, for its ends. A trace that is given is taken in the same way, and then the list shows
//! whether a violation is left.
ghost use Rattle.std.specs.Prelude.{◌≡◌, ◌<◌, ◌≤◌, ◌-◌, ◌++◌, ℕ, length, map, Some, Err, IfOk, OnOk, MatchOption};
ghost use Rattle.std.specs.Prelude.{IfSome, IsNone, IsSomeAnd};
ghost use Rattle.std.specs.List.{slice_get};
ghost use Rattle.grid_base.specs.Drawing.{HasViolation, IsPiece};
ghost use Rattle.hook_chain.specs.Steps.{Permitted, Settles};
ghost use Rattle.hook_chain.specs.StandingChains.{AllValid};
ghost use Rattle.realm_drawing.specs.Keyed.{AreKeyed};
ghost use Rattle.hook_chain.specs.Mending.{IsPermitted};
ghost use Rattle.realm_drawing.specs.declared.errors.StepError.TheVariants.{NotPermitted};
ghost use Rattle.realm_insert.specs.Clashes.{IsWithin, HasPiecesMet, CanBeSearched};
ghost use Rattle.realm_insert.specs.Kept.{IsIndexed};
ghost use Rattle.realm_insert.specs.Misfits.{Misfits};
ghost use Rattle.realm_insert.specs.Work.{IsClean, IsCoveredBy};
ghost use Rattle.realm_insert.specs.declared.settling.SettleError.TheVariants.{Mismatch, NoMemory as NoRoom};

use crate::indexing::{forget_gone, keyed_pieces, put_in_index};
use crate::near_box::{box_of_last, lies_within};
use crate::searching::{pieces_met_along, pieces_near, split_at_ends, violation_at, violation_of};
use grid_base::{NoMemory, Segment, Step};
use realm_drawing::{Drawing, KeyedPiece, StepError};
use realm_index::NearIndex;
use record_codec::Trace;
use std::alloc::Global;

// Where the last search came to more pieces, the next piece is looked at alone: what lies along it is mostly far less than
// what lies in a box round several.
const CROWD: usize = 64;

// How long the list was before the last step drew its pieces, and to how many pieces the last search came. Both tell what is
// looked at together, and nothing else.
#[derive(Clone, Copy, Debug)]
pub(crate) struct Round {
    before: usize,
    met: usize,
}

impl Round {
    // Those behind the first `before` of the list lie by one another.
    pub(crate) fn behind(before: usize) -> Round {
        Round { before, met: 0 }
    }
}

// Why a drawing isn't settled.
#[derive(Clone, Copy, Debug, PartialEq, Eq)]
pub(crate) enum SettleError {
    // The given step with this number, from 1, isn't permitted; past the last, a violation is left.
    Mismatch { step: u64 },
    NoMemory,
}

impl From<NoMemory> for SettleError {
    ghost from_gives = { λ _ e. e ≡ NoRoom };

    fn from(_: NoMemory) -> SettleError {
        SettleError::NoMemory
    }
}

// Settles the drawing by the given steps, or where none are given by steps that are looked for; and answers the trace.
pub(crate) fn settle_by(
    alloc: Global,
    drawing: &mut Drawing,
    index: &mut NearIndex,
    fresh: Vec<Segment>,
    given: Option<&[Step]>,
) -> Result<Trace, SettleError>
    requires indexed { IsIndexed drawing.old index.old }
    requires keyed { AreKeyed drawing.old }
    requires valid { AllValid drawing.old.drawing }
    requires covered { IsCoveredBy drawing.old.drawing fresh.items }
    ensures settles { IfOk result (λ trace. Settles drawing.old.drawing trace drawing.new.drawing) }
    ensures given { IfOk result (λ trace. IfSome given.entry (λ steps. trace ≡ steps.now)) }
    ensures mismatch { (number : ℕ) → result ≡ Err (Mismatch number)
        → IsSomeAnd given.entry (λ steps. Misfits drawing.old.drawing steps.now number) }
    ensures indexed { OnOk result (IsIndexed drawing.new index.new) }
    ensures keyed { AreKeyed drawing.new }
    ensures valid { AllValid drawing.new.drawing }
{
    match given {
        None => Ok(settle(alloc, drawing, index, fresh)?),
        Some(steps) => retrace(alloc, drawing, index, fresh, steps),
    }
}

// Takes the steps in their order, sees that no violation is left, and answers them.
fn retrace(
    alloc: Global,
    drawing: &mut Drawing,
    index: &mut NearIndex,
    fresh: Vec<Segment>,
    steps: &[Step],
) -> Result<Trace, SettleError>
    requires indexed { IsIndexed drawing.old index.old }
    requires keyed { AreKeyed drawing.old }
    requires valid { AllValid drawing.old.drawing }
    requires covered { IsCoveredBy drawing.old.drawing fresh.items }
    ensures settles { IfOk result (λ trace. Settles drawing.old.drawing trace drawing.new.drawing) }
    ensures same { IfOk result (λ trace. trace ≡ steps.now) }
    ensures mismatch { (number : ℕ) → result ≡ Err (Mismatch number)
        → Misfits drawing.old.drawing steps.now number }
    ensures indexed { OnOk result (IsIndexed drawing.new index.new) }
    ensures keyed { AreKeyed drawing.new }
    ensures valid { AllValid drawing.new.drawing }
{
    let mut fresh = fresh;
    let mut trace = Trace::new(alloc);
    let mut round = Round::behind(fresh.len());
    for i in 0..steps.len() {
        let step = &steps[i];
        match take(alloc, drawing, index, step, &mut fresh) {
            Ok(()) => trace.push(*step)?,
            Err(StepError::NoMemory) => return Err(SettleError::NoMemory),
            Err(StepError::NotPermitted) => {
                return Err(SettleError::Mismatch { step: i as u64 + 1 });
            }
        }
    }
    match next_step(alloc, drawing, index, &mut fresh, &mut round)? {
        None => Ok(trace),
        Some(_) => Err(SettleError::Mismatch {
            step: steps.len() as u64 + 1,
        }),
    }
}

// Settles the drawing, and answers the trace.
fn settle(
    alloc: Global,
    drawing: &mut Drawing,
    index: &mut NearIndex,
    fresh: Vec<Segment>,
) -> Result<Trace, NoMemory>
    requires indexed { IsIndexed drawing.old index.old }
    requires keyed { AreKeyed drawing.old }
    requires valid { AllValid drawing.old.drawing }
    requires covered { IsCoveredBy drawing.old.drawing fresh.items }
    ensures settles { IfOk result (λ trace. Settles drawing.old.drawing trace drawing.new.drawing) }
    ensures indexed { OnOk result (IsIndexed drawing.new index.new) }
    ensures keyed { AreKeyed drawing.new }
    ensures valid { AllValid drawing.new.drawing }
{
    let mut fresh = fresh;
    let mut trace = Trace::new(alloc);
    let mut round = Round::behind(fresh.len());
    while let Some(step) = next_step(alloc, drawing, index, &mut fresh, &mut round)? {
        round.before = fresh.len();
        mend(alloc, drawing, index, &step, &mut fresh)?;
        trace.push(step)?;
    }
    Ok(trace)
}

// A step that may be taken, and the list without the pieces that were found clean; none where no violation is
// left. Of the pieces that were drawn last, and of the one before them, those that lie by one another are looked at
// together.
pub(crate) fn next_step(
    alloc: Global,
    drawing: &Drawing,
    index: &NearIndex,
    fresh: &mut Vec<Segment>,
    round: &mut Round,
) -> Result<Option<Step>, NoMemory>
    requires indexed { IsIndexed drawing.now index.now }
    requires keyed { AreKeyed drawing.now }
    requires valid { AllValid drawing.now.drawing }
    requires covered { IsCoveredBy drawing.now.drawing fresh.old.items }
    ensures found { IfOk result (λ found. MatchOption found (HasViolation drawing.now.drawing → ⊥)
        (IsPermitted drawing.now.drawing)) }
    ensures covered { OnOk result (IsCoveredBy drawing.now.drawing fresh.new.items) }
{
    while let Some(piece) = fresh.as_slice().last().copied() {
        let found = if drawing.key(&piece).is_some() {
            step_at_group(alloc, drawing, index, &piece, fresh, round)?
        } else {
            step_at_gone(alloc, drawing, index, &piece, fresh)?
        };
        if found.is_some() {
            return Ok(found);
        }
    }
    Ok(None)
}

// A step that mends a violation at an end of the last of the list, which is no piece any more. It comes off where it is clean.
fn step_at_gone(
    alloc: Global,
    drawing: &Drawing,
    index: &NearIndex,
    gone: &Segment,
    fresh: &mut Vec<Segment>,
) -> Result<Option<Step>, NoMemory>
    requires last { slice_get fresh.old.items (length fresh.old.items - 1) ≡ Some gone.now }
    requires indexed { IsIndexed drawing.now index.now }
    requires keyed { AreKeyed drawing.now }
    requires no_piece { IsPiece drawing.now.drawing gone.now → ⊥ }
    requires covered { IsCoveredBy drawing.now.drawing fresh.old.items }
    ensures found { IfOk result (λ found. IfSome found (IsPermitted drawing.now.drawing)) }
    ensures covered { OnOk result (IsCoveredBy drawing.now.drawing fresh.new.items) }
    ensures shorter { IfOk result (λ found.
        IsNone found → length fresh.new.items < length fresh.old.items) }
{
    let found = split_at_ends(alloc, drawing, index, gone)?;
    drop_if_clean(drawing, gone, &found, fresh);
    Ok(found)
}

// A step that mends a violation at the last piece of the list, or at one of those before it that lie by it.
fn step_at_group(
    alloc: Global,
    drawing: &Drawing,
    index: &NearIndex,
    piece: &Segment,
    fresh: &mut Vec<Segment>,
    round: &mut Round,
) -> Result<Option<Step>, NoMemory>
    requires last { slice_get fresh.old.items (length fresh.old.items - 1) ≡ Some piece.now }
    requires piece { IsPiece drawing.now.drawing piece.now }
    requires indexed { IsIndexed drawing.now index.now }
    requires keyed { AreKeyed drawing.now }
    requires valid { AllValid drawing.now.drawing }
    requires covered { IsCoveredBy drawing.now.drawing fresh.old.items }
    ensures found { IfOk result (λ found. IfSome found (IsPermitted drawing.now.drawing)) }
    ensures covered { OnOk result (IsCoveredBy drawing.now.drawing fresh.new.items) }
    ensures shorter { IfOk result (λ found.
        IsNone found → length fresh.new.items < length fresh.old.items) }
{
    let many = fresh.len().saturating_sub(round.before).saturating_add(1);
    let near = box_of_last(fresh.as_slice(), piece, many);
    if round.met > CROWD || lies_within(piece, &near) {
        step_alone(alloc, drawing, index, piece, fresh, round)
    } else {
        step_near(alloc, drawing, index, piece, &near, fresh, round)
    }
}

// The same of the last piece alone.
fn step_alone(
    alloc: Global,
    drawing: &Drawing,
    index: &NearIndex,
    piece: &Segment,
    fresh: &mut Vec<Segment>,
    round: &mut Round,
) -> Result<Option<Step>, NoMemory>
    requires last { slice_get fresh.old.items (length fresh.old.items - 1) ≡ Some piece.now }
    requires piece { IsPiece drawing.now.drawing piece.now }
    requires indexed { IsIndexed drawing.now index.now }
    requires keyed { AreKeyed drawing.now }
    requires valid { AllValid drawing.now.drawing }
    requires covered { IsCoveredBy drawing.now.drawing fresh.old.items }
    ensures found { IfOk result (λ found. IfSome found (IsPermitted drawing.now.drawing)) }
    ensures covered { OnOk result (IsCoveredBy drawing.now.drawing fresh.new.items) }
    ensures shorter { IfOk result (λ found.
        IsNone found → length fresh.new.items < length fresh.old.items) }
{
    let pieces = pieces_met_along(alloc, drawing, index, piece)?;
    round.met = pieces.len();
    let found = violation_of(alloc, drawing, pieces.as_slice(), piece)?;
    drop_if_clean(drawing, piece, &found, fresh);
    Ok(found)
}

// The same of all in the box of `near`, where the last piece lies.
fn step_near(
    alloc: Global,
    drawing: &Drawing,
    index: &NearIndex,
    piece: &Segment,
    near: &Segment,
    fresh: &mut Vec<Segment>,
    round: &mut Round,
) -> Result<Option<Step>, NoMemory>
    requires last { slice_get fresh.old.items (length fresh.old.items - 1) ≡ Some piece.now }
    requires within { IsWithin near.now piece.now }
    requires indexed { IsIndexed drawing.now index.now }
    requires keyed { AreKeyed drawing.now }
    requires valid { AllValid drawing.now.drawing }
    requires covered { IsCoveredBy drawing.now.drawing fresh.old.items }
    ensures found { IfOk result (λ found. IfSome found (IsPermitted drawing.now.drawing)) }
    ensures covered { OnOk result (IsCoveredBy drawing.now.drawing fresh.new.items) }
    ensures shorter { IfOk result (λ found.
        IsNone found → length fresh.new.items < length fresh.old.items) }
{
    let pieces = pieces_near(alloc, drawing, index, near)?;
    round.met = pieces.len();
    let found = step_at_last(alloc, drawing, pieces.as_slice(), piece, fresh)?;
    if found.is_some() {
        return Ok(found);
    }
    step_within(alloc, drawing, pieces.as_slice(), near, fresh)
}

// A step that mends a violation at one of the pieces at the end of the list that lie in the box of `near`.
fn step_within(
    alloc: Global,
    drawing: &Drawing,
    pieces: &[Segment],
    near: &Segment,
    fresh: &mut Vec<Segment>,
) -> Result<Option<Step>, NoMemory>
    requires met { HasPiecesMet drawing.now.drawing near.now pieces.now }
    requires covered { IsCoveredBy drawing.now.drawing fresh.old.items }
    ensures found { IfOk result (λ found. IfSome found (IsPermitted drawing.now.drawing)) }
    ensures covered { OnOk result (IsCoveredBy drawing.now.drawing fresh.new.items) }
    ensures shorter { length fresh.new.items ≤ length fresh.old.items }
{
    while let Some(piece) = fresh.as_slice().last().copied() {
        if !lies_within(near, &piece) {
            return Ok(None);
        }
        let found = step_at_last(alloc, drawing, pieces, &piece, fresh)?;
        if found.is_some() {
            return Ok(found);
        }
    }
    Ok(None)
}

// A step that mends a violation at the last piece of the list, which comes off where it is clean.
fn step_at_last(
    alloc: Global,
    drawing: &Drawing,
    pieces: &[Segment],
    piece: &Segment,
    fresh: &mut Vec<Segment>,
) -> Result<Option<Step>, NoMemory>
    requires last { slice_get fresh.old.items (length fresh.old.items - 1) ≡ Some piece.now }
    requires search { CanBeSearched drawing.now.drawing piece.now pieces.now }
    requires covered { IsCoveredBy drawing.now.drawing fresh.old.items }
    ensures found { IfOk result (λ found. IfSome found (IsPermitted drawing.now.drawing)) }
    ensures covered { OnOk result (IsCoveredBy drawing.now.drawing fresh.new.items) }
    ensures longer { length fresh.new.items ≤ length fresh.old.items }
    ensures shorter { IfOk result (λ found.
        IsNone found → length fresh.new.items < length fresh.old.items) }
{
    let found = violation_at(alloc, drawing, pieces, piece)?;
    drop_if_clean(drawing, piece, &found, fresh);
    Ok(found)
}

// Takes the last piece off the list where no violation was found at it.
fn drop_if_clean(drawing: &Drawing, piece: &Segment, found: &Option<Step>, fresh: &mut Vec<Segment>)
    requires last { slice_get fresh.old.items (length fresh.old.items - 1) ≡ Some piece.now }
    requires found { MatchOption found.now (IsClean drawing.now.drawing piece.now) (IsPermitted drawing.now.drawing) }
    requires covered { IsCoveredBy drawing.now.drawing fresh.old.items }
    ensures covered { IsCoveredBy drawing.now.drawing fresh.new.items }
    ensures longer { length fresh.new.items ≤ length fresh.old.items }
    ensures shorter { IsNone found.now → length fresh.new.items < length fresh.old.items }
{
    if found.is_none() {
        fresh.pop();
    }
}

// Takes a step that is permitted.
fn mend(
    alloc: Global,
    drawing: &mut Drawing,
    index: &mut NearIndex,
    step: &Step,
    fresh: &mut Vec<Segment>,
) -> Result<(), NoMemory>
    requires indexed { IsIndexed drawing.old index.old }
    requires keyed { AreKeyed drawing.old }
    requires valid { AllValid drawing.old.drawing }
    requires covered { IsCoveredBy drawing.old.drawing fresh.old.items }
    requires permitted { IsPermitted drawing.old.drawing step.now }
    ensures taken { OnOk result (Permitted drawing.old.drawing step.now drawing.new.drawing) }
    ensures indexed { OnOk result (IsIndexed drawing.new index.new) }
    ensures covered { OnOk result (IsCoveredBy drawing.new.drawing fresh.new.items) }
    ensures keyed { AreKeyed drawing.new }
    ensures valid { AllValid drawing.new.drawing }
{
    match take(alloc, drawing, index, step, fresh) {
        Ok(()) => Ok(()),
        Err(StepError::NoMemory) => Err(NoMemory),
        Err(StepError::NotPermitted) => unreachable!(),
    }
}

// Takes the step, in the index too, and adds what it draws anew to the list; unless it isn't permitted.
fn take(
    alloc: Global,
    drawing: &mut Drawing,
    index: &mut NearIndex,
    step: &Step,
    fresh: &mut Vec<Segment>,
) -> Result<(), StepError>
    requires indexed { IsIndexed drawing.old index.old }
    requires keyed { AreKeyed drawing.old }
    requires valid { AllValid drawing.old.drawing }
    requires covered { IsCoveredBy drawing.old.drawing fresh.old.items }
    ensures taken { OnOk result (Permitted drawing.old.drawing step.now drawing.new.drawing) }
    ensures not_permitted { result ≡ Err NotPermitted → IsPermitted drawing.old.drawing step.now → ⊥ }
    ensures indexed { OnOk result (IsIndexed drawing.new index.new) }
    ensures covered { OnOk result (IsCoveredBy drawing.new.drawing fresh.new.items) }
    ensures keyed { AreKeyed drawing.new }
    ensures valid { AllValid drawing.new.drawing }
{
    let replaced = keyed_pieces(alloc, drawing, step)?;
    let drawn = drawing.redraw(step)?;
    forget_gone(drawing, index, replaced.as_slice());
    put_in_index(index, drawn.as_slice())?;
    list_pieces(drawn.as_slice(), fresh)?;
    Ok(())
}

// Adds the pieces to the list.
fn list_pieces(drawn: &[KeyedPiece], fresh: &mut Vec<Segment>) -> Result<(), NoMemory>
    ensures { OnOk result (fresh.new.items ≡ fresh.old.items ++ map (λ f. f.piece) drawn.now) }
{
    for one in drawn {
        fresh.push(one.piece)?;
    }
    Ok(())
}
