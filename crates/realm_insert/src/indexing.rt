//! The index of the pieces, kept by their keys. What a change may take away is noted with its keys before it
//! is made, and is forgotten afterwards where it is gone.
ghost use Rattle.std.specs.Prelude.{◌≡◌, ◌≢◌, ◌⊎◌, [], ◌∷◌, None, All, AllPairs, IfOk, OnOk};
ghost use Rattle.std.specs.FinMap as map;
ghost use Rattle.hook_chain.specs.Mending.{IsPieceOf};
ghost use Rattle.realm_insert.specs.Indexing.{ListsWithKey, ListsKeyed, ForgetsGone, AddsEntries};
ghost use Rattle.realm_insert.specs.Indexing.{HasPiecesOnly, AddsPiece};

use grid_base::{NoMemory, Segment, Step};
use realm_drawing::{Drawing, KeyedPiece};
use realm_index::NearIndex;
use std::alloc::Global;

// The pieces of the step with their keys.
pub(crate) fn keyed_pieces(
    alloc: Global,
    drawing: &Drawing,
    step: &Step,
) -> Result<Vec<KeyedPiece>, NoMemory>
    ensures { IfOk result (λ list. ListsKeyed drawing.now (IsPieceOf step.now) list.items) }
{
    match step {
        Step::Split { t, .. } => keyed_piece(alloc, drawing, t),
        Step::Meet { t, u, .. } | Step::Corner { t, u } => both_keyed(alloc, drawing, t, u),
    }
}

fn keyed_piece(alloc: Global, drawing: &Drawing, t: &Segment) -> Result<Vec<KeyedPiece>, NoMemory>
    ensures { IfOk result (λ list. ListsKeyed drawing.now (λ s. s ≡ t.now) list.items) }
{
    let mut list = Vec::new(alloc);
    note(drawing, t, &mut list)?;
    Ok(list)
}

fn both_keyed(
    alloc: Global,
    drawing: &Drawing,
    t: &Segment,
    u: &Segment,
) -> Result<Vec<KeyedPiece>, NoMemory>
    ensures { IfOk result (λ list. ListsKeyed drawing.now (λ s. (s ≡ t.now) ⊎ (s ≡ u.now)) list.items) }
{
    let mut list = keyed_piece(alloc, drawing, t)?;
    note(drawing, u, &mut list)?;
    Ok(list)
}

// Lists `s` with its key, if it is a piece.
pub(crate) fn note(
    drawing: &Drawing,
    s: &Segment,
    list: &mut Vec<KeyedPiece>,
) -> Result<(), NoMemory>
    ensures { OnOk result (ListsWithKey drawing.now s.now list.old.items list.new.items) }
{
    if let Some(key) = drawing.key(s) {
        list.push(KeyedPiece { piece: *s, key })?;
    }
    Ok(())
}

// Takes out what is under the keys of those of the list that are no pieces any more.
pub(crate) fn forget_gone(drawing: &Drawing, index: &mut NearIndex, list: &[KeyedPiece])
    ensures { ForgetsGone drawing.now.drawing list.now index.old index.new }
{
    for noted in list {
        forget_if_gone(drawing, index, noted);
    }
}

fn forget_if_gone(drawing: &Drawing, index: &mut NearIndex, noted: &KeyedPiece)
    ensures { ForgetsGone drawing.now.drawing (noted.now ∷ []) index.old index.new }
{
    if drawing.key(&noted.piece).is_none() {
        index.remove(noted.key);
    }
}

// Puts the pieces of the list under their keys.
pub(crate) fn put_in_index(index: &mut NearIndex, list: &[KeyedPiece]) -> Result<(), NoMemory>
    requires new_keys { All (λ f. map.get index.old f.key ≡ None) list.now }
    requires once { AllPairs (λ f g. f.key ≢ g.key) list.now }
    ensures { OnOk result (AddsEntries list.now index.old index.new) }
{
    for drawn in list {
        index.insert(drawn.key, drawn.piece)?;
    }
    Ok(())
}

// Puts `s` under its key, unless it is there.
pub(crate) fn put_if_missing(
    drawing: &Drawing,
    index: &mut NearIndex,
    s: &Segment,
) -> Result<(), NoMemory>
    requires pieces { HasPiecesOnly drawing.now index.old }
    ensures { OnOk result (AddsPiece drawing.now s.now index.old index.new) }
{
    if let Some(key) = drawing.key(s) {
        if index.segment(key).is_none() {
            index.insert(key, *s)?;
        }
    }
    Ok(())
}
