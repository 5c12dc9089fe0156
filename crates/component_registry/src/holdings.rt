//! The pieces, in a map from each to what is held of it, and in a slab from each key to its piece.
//! A new piece comes into the map before the slab, whose room was made first: no step is undone.
ghost use Rattle.std.specs.Prelude.{◌≡◌, ◌≢◌, ◌↔◌, IsTrue, IfOk, OnErr, Some};
ghost use Rattle.std.specs.Prelude.{[], Contains, AllPairs};
ghost use Rattle.std.specs.Bool.{OnTrue, OnFalse};
ghost use Rattle.std.specs.FinMap as map;
ghost use Rattle.grid_base.specs.Segment.{GridSegment, IsSegmentBefore};
ghost use Rattle.component_registry.specs.Registry.{IsPiece, key_of, owners_of, Owns, IsSound};
ghost use Rattle.component_registry.specs.Registry.{AddsOwner, DropsOwner};

use crate::hashed::{Hashed, empty, keys_in_order};
use crate::holding::Holding;
use grid_base::{NoMemory, Segment};
use slab::Slab;
use std::alloc::Global;
use std::collections::hash_map::Entry;
use std::marker::Model;

// The pieces with their keys and owners.
#[derive(Drop)]
pub(crate) struct Holdings {
    pieces: Hashed<Segment, Holding>,
    keys: Slab<Segment>,
    alloc: Global,
}

impl Model for Holdings {
    ghost use Rattle.component_registry.specs.Registry.{Holdings as Seen, holdings_code};

    ghost Value = { Seen };

    ghost coded = { holdings_code };

    ghost use Rattle.component_registry.specs.Kept.{seen_of, MatchesSlab};

    ghost view = { λ h. seen_of h.pieces };

    ghost invariant = { λ h. MatchesSlab h.pieces h.keys };
}

impl Holdings {
    pub(crate) fn new(alloc: Global) -> Holdings
        ensures empty { result ≡ map.empty }
    {
        Holdings {
            pieces: empty(alloc),
            keys: Slab::new(alloc),
            alloc,
        }
    }

    // The same pieces with the same keys and owners. The slab gives out the same keys next.
    pub(crate) fn copied(&self) -> Result<Holdings, NoMemory>
        ensures same { IfOk result (λ copy. copy ≡ self.now) }
    {
        Ok(Holdings {
            pieces: self.pieces.clone()?,
            keys: self.keys.clone()?,
            alloc: self.alloc,
        })
    }

    // The key of `piece`.
    pub(crate) fn key(&self, piece: &Segment) -> Option<usize>
        ensures key { result ≡ key_of self.now piece.now }
        ensures sound { IsSound self.now }
    {
        match self.pieces.get(piece) {
            Some(holding) => Some(holding.key()),
            None => None,
        }
    }

    // The piece with this key.
    pub(crate) fn piece(&self, key: usize) -> Option<Segment>
        ensures piece { (s : GridSegment) → (result ≡ Some s) ↔ (key_of self.now s ≡ Some key) }
    {
        self.keys.get(key).copied()
    }

    // The owners of the piece with this key.
    pub(crate) fn owners(&self, key: usize) -> &[u32]
        ensures owners { (s : GridSegment) → key_of self.now s ≡ Some key
            → result.now ≡ owners_of self.now s }
        ensures empty { ((s : GridSegment) → key_of self.now s ≢ Some key) → result.now ≡ [] }
    {
        let Some(piece) = self.keys.get(key) else {
            return &[];
        };
        match self.pieces.get(piece) {
            Some(holding) => holding.owners(),
            None => &[],
        }
    }

    // All pieces, ascending.
    pub(crate) fn pieces(&self) -> Result<Vec<Segment>, NoMemory>
        ensures exact { IfOk result
            (λ v. (s : GridSegment) → Contains v.items s ↔ IsPiece self.now s) }
        ensures ascending { IfOk result (λ v. AllPairs IsSegmentBefore v.items) }
    {
        keys_in_order(self.alloc, &self.pieces)
    }

    // Makes `id` an owner of `piece`, and answers its key.
    pub(crate) fn add(&mut self, piece: Segment, id: u32) -> Result<usize, NoMemory>
        requires new_owner { ¬ Owns self.old piece id }
        ensures ok { IfOk result (AddsOwner self.old self.new piece id) }
        ensures unchanged { OnErr result (self.new ≡ self.old) }
        ensures sound { IsSound self.new }
    {
        match self.pieces.entry(piece)? {
            Entry::Occupied(entry) => {
                let holding = entry.into_mut();
                holding.add_owner(id)?;
                Ok(holding.key())
            }
            Entry::Vacant(entry) => {
                self.keys.reserve(1)?;
                entry.insert(Holding::new(self.alloc, self.keys.vacant_key(), id));
                Ok(self.keys.insert_reserved(piece))
            }
        }
    }

    // Takes `id` from the owners of `piece`, and says whether it was one.
    pub(crate) fn remove(&mut self, piece: &Segment, id: u32) -> bool
        ensures found { IsTrue result ↔ Owns self.old piece.now id }
        ensures removed { OnTrue result (DropsOwner self.old self.new piece.now id) }
        ensures unchanged { OnFalse result (self.new ≡ self.old) }
        ensures sound { IsSound self.new }
    {
        let Some(holding) = self.pieces.get_mut(piece) else {
            return false;
        };
        if !holding.drop_owner(id) {
            return false;
        }
        if holding.is_unowned() {
            let key = holding.key();
            self.pieces.remove(piece);
            self.keys.try_remove(key);
        }
        true
    }
}
