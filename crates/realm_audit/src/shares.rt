//! Shares: each is a piece and the id of an original whose chain has it. They are one ordered set, by their shelves, so that
//! a search for the pieces near a box jumps over most of it.
ghost use Rattle.std.specs.Prelude.{◌≡◌, ◌⊎◌, ◌↔◌, ℕ, [], All, Contains, IsTrue, false};
ghost use Rattle.std.specs.Prelude.{MatchOption, IfOk, IfSome, OnOk};
ghost use Rattle.grid_base.specs.Point.{IsBefore};
ghost use Rattle.grid_base.specs.Segment.{GridSegment};
ghost use Rattle.realm_audit.specs.Shelves.{HasShare, IsShelved, MeetsBounds, ListsPieces};
ghost use Rattle.realm_audit.specs.Windows.{PassesBut, AddsReached, ListsUpTo, ListsOn, ListsAll};
ghost use Rattle.realm_audit.specs.Ranges.{share_cmp, ids_among};
ghost use Rattle.std.specs.Ordering.{is_gt};

use crate::bounds::Bounds;
use crate::shelves::{Shelf, reaches, shelf_of};
use crate::window::next_shelf;
use grid_base::{NoMemory, Point, Segment};
use std::alloc::Global;
use std::collections::BTreeSet;
use std::marker::Model;
use std::ops::Bound;

/// A piece and the id of an original that has it, at the shelf of the piece.
#[derive(Clone, Copy, PartialEq, Eq, PartialOrd, Ord)]
pub(crate) struct Share {
    pub(crate) shelf: Shelf,
    pub(crate) piece: Segment,
    pub(crate) id: u32,
}

/// A set of shares. Contracts see their list.
#[derive(Drop)]
pub(crate) struct Shares {
    set: BTreeSet<Share>,
    alloc: Global,
}

impl Model for Shares {
    ghost use Rattle.std.specs.Prelude.{List, All};
    ghost use Rattle.realm_audit.specs.declared.shares.Share.{Share};
    ghost use Rattle.realm_audit.specs.Shelves.{IsShelved};

    ghost Value = { List Share };

    ghost view = { λ s. s.set.keys };

    ghost invariant = { λ s. All IsShelved s.set.keys };
}

impl Shares {
    pub(crate) fn new(alloc: Global) -> Shares
        ensures { result ≡ [] }
    {
        Shares {
            set: BTreeSet::new(alloc),
            alloc,
        }
    }

    // Puts the share of `piece` and `id`.
    pub(crate) fn put(&mut self, piece: Segment, id: u32) -> Result<(), NoMemory>
        ensures { OnOk result ((s : GridSegment) (x : ℕ)
            → HasShare self.new s x ↔ (((s ≡ piece) × (x ≡ id)) ⊎ HasShare self.old s x)) }
    {
        self.set.insert(Share {
            shelf: shelf_of(&piece),
            piece,
            id,
        })?;
        Ok(())
    }

    // Takes the share of `piece` and `id` out, if it is there.
    pub(crate) fn take(&mut self, piece: &Segment, id: u32)
        ensures { (s : GridSegment) (x : ℕ)
            → HasShare self.new s x ↔ (HasShare self.old s x × ((s ≡ piece.now) × (x ≡ id) → ⊥)) }
    {
        self.set.remove(&Share {
            shelf: shelf_of(piece),
            piece: *piece,
            id,
        });
    }

    // The ids of the originals that have the piece.
    pub(crate) fn owners(&self, piece: &Segment) -> Result<Vec<u32>, NoMemory>
        ensures { IfOk result (λ v. (x : ℕ) → Contains v.items x ↔ HasShare self.now piece.now x) }
    {
        let shelf = shelf_of(piece);
        let first = Share {
            shelf,
            piece: *piece,
            id: 0,
        };
        let last = Share {
            shelf,
            piece: *piece,
            id: u32::MAX,
        };
        self.ids_between(first, last)
    }

    // The ids of the shares from the one to the other.
    fn ids_between(&self, first: Share, last: Share) -> Result<Vec<u32>, NoMemory>
        requires forward { is_gt (share_cmp first last) ≡ false }
        ensures ids { IfOk result (λ v. v.items ≡ ids_among self.now first last) }
        ensures shelved { All IsShelved self.now }
    {
        Ok(
            self.set
                .range(first..=last)
                .map(|share| share.id)
                .collect(self.alloc)?,
        )
    }

    // Whether some original has the piece.
    pub(crate) fn is_piece(&self, piece: &Segment) -> Result<bool, NoMemory>
        ensures { IfOk result (λ yes. IsTrue yes ↔ ((x : ℕ) × HasShare self.now piece.now x)) }
    {
        let owners = self.owners(piece)?;
        Ok(!owners.is_empty())
    }

    // The pieces that originals have, each once, whose boxes reach the bounds. A search goes on from share to share, and jumps
    // over all levels, columns, rows and further shares of a piece among which none reaches them.
    pub(crate) fn around(&self, bounds: &Bounds) -> Result<Vec<Segment>, NoMemory>
        ensures shared { IfOk result (λ v. ListsPieces self.now v.items) }
        ensures all { IfOk result (λ v. (s : GridSegment) (x : ℕ) → HasShare self.now s x
            → MeetsBounds bounds.now s → Contains v.items s) }
        ensures ordered { (s : GridSegment) (x : ℕ) → HasShare self.now s x → IsBefore s.a s.b }
    {
        let mut list = Vec::new(self.alloc);
        let mut at = fence(Shelf {
            level: 0,
            column: 0,
            row: 0,
        });
        while let Some(place) = self.list_from(bounds, &at, &mut list)? {
            at = place;
        }
        Ok(list)
    }

    // Adds the pieces behind the place that reach the bounds, up to where the search jumps, and says to which place.
    fn list_from(
        &self,
        bounds: &Bounds,
        at: &Share,
        list: &mut Vec<Segment>,
    ) -> Result<Option<Share>, NoMemory>
        requires { ListsUpTo self.now bounds.now at.now list.old.items }
        ensures { IfOk result (λ next. MatchOption next (ListsAll self.now bounds.now list.new.items)
            (ListsOn self.now bounds.now at.now list.new.items)) }
    {
        let mut before = None;
        for share in self.set.range((Bound::Excluded(*at), Bound::Unbounded)) {
            if let Some(place) = jump_from(bounds, before, share) {
                return Ok(Some(place));
            }
            add_reached(bounds, &share.piece, list)?;
            before = Some(share.piece);
        }
        Ok(None)
    }
}

// Adds the piece, if it reaches the bounds.
fn add_reached(bounds: &Bounds, piece: &Segment, list: &mut Vec<Segment>) -> Result<(), NoMemory>
    ensures { OnOk result (AddsReached bounds.now piece.now list.old.items list.new.items) }
{
    if reaches(bounds, piece) {
        list.push(*piece)?;
    }
    Ok(())
}

// Where a search for pieces that reach the bounds jumps from a share: over all that don't stand in the window, and over the
// further shares of the piece before.
fn jump_from(bounds: &Bounds, before: Option<Segment>, share: &Share) -> Option<Share>
    requires { IsShelved share.now }
    ensures ahead { IfSome result (λ place. is_gt (share_cmp share.now place) ≡ false) }
    ensures passed { IfSome result (PassesBut before bounds.now share.now) }
{
    if let Some(shelf) = next_shelf(bounds, &share.shelf) {
        return Some(fence(shelf));
    }
    match before {
        Some(piece) if piece == share.piece => Some(Share {
            id: u32::MAX,
            ..*share
        }),
        _ => None,
    }
}

// A place at a shelf.
fn fence(shelf: Shelf) -> Share
    ensures { result.shelf ≡ shelf }
{
    Share {
        shelf,
        piece: some_piece(),
        id: 0,
    }
}

fn some_piece() -> Segment {
    match Segment::new(Point::at(0, 0), Point::at(0, 1)) {
        Some(piece) => piece,
        None => unreachable!(),
    }
}
