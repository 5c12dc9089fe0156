//! Registries of pieces, and how often their ends are used.
ghost use Rattle.std.specs.Prelude.{◌≡◌, ◌≢◌, ◌↔◌, ◌<◌, IsTrue, IfOk, OnErr, Some};
ghost use Rattle.std.specs.Prelude.{[], Contains, AllPairs};
ghost use Rattle.std.specs.Bool.{OnTrue, OnFalse};
ghost use Rattle.std.specs.FinMap as map;
ghost use Rattle.std.specs.List.Sorted.{IsStrictlyIncreasing};
ghost use Rattle.grid_base.specs.Point.{GridPoint, IsBefore};
ghost use Rattle.grid_base.specs.Segment.{GridSegment, IsSegmentBefore, IsEnd};
ghost use Rattle.component_registry.specs.Registry.{IsPiece, key_of, owners_of, Owns, IsSound};
ghost use Rattle.component_registry.specs.Registry.{uses_of, AddsOwner, DropsOwner};

use crate::ends;
use crate::ends::Ends;
use crate::hashed::{empty, keys_in_order};
use crate::holdings::Holdings;
use grid_base::{NoMemory, Point, Segment};
use std::alloc::Global;
use std::marker::Model;

/// Which pieces there are, under which key, and who owns each. An owner is the id of an original.
#[derive(Drop)]
pub struct Registry {
    holdings: Holdings,
    ends: Ends,
    // How often an owner was added: no point is used more often.
    added: u64,
    alloc: Global,
}

impl Model for Registry {
    ghost use Rattle.component_registry.specs.Registry.{Holdings as Seen, holdings_code};

    ghost Value = { Seen };

    ghost coded = { holdings_code };

    ghost use Rattle.component_registry.specs.Ends.{IsCounted};

    ghost view = { λ r. r.holdings };

    ghost invariant = { λ r. IsCounted r.holdings r.ends r.added };
}

impl Registry {
    /// A registry without pieces.
    pub fn new(alloc: Global) -> Registry
        ensures empty { result ≡ map.empty }
        ensures sound { IsSound result }
    {
        Registry {
            holdings: Holdings::new(alloc),
            ends: empty(alloc),
            added: 0,
            alloc,
        }
    }

    /// The same registry once more: the same pieces, under the same keys and with the same owners. Takes as
    /// much memory as this one, and time linear in it. Fails only for want of memory.
    pub fn copied(&self) -> Result<Registry, NoMemory>
        ensures same { IfOk result (λ copy. copy ≡ self.now) }
    {
        Ok(Registry {
            holdings: self.holdings.copied()?,
            ends: self.ends.clone()?,
            added: self.added,
            alloc: self.alloc,
        })
    }

    /// Makes `id` an owner of `piece`, and answers the key of the piece, which stays until the
    /// last owner drops it.
    pub fn add(&mut self, piece: Segment, id: u32) -> Result<usize, NoMemory>
        requires new_owner { ¬ Owns self.old piece id }
        ensures ok { IfOk result (AddsOwner self.old self.new piece id) }
        ensures unchanged { OnErr result (self.new ≡ self.old) }
        ensures sound { IsSound self.new }
    {
        if self.added == u64::MAX {
            return Err(NoMemory);
        }
        ends::make_room(&mut self.ends)?;
        let key = self.holdings.add(piece, id)?;
        self.added += 1;
        ends::count_up(&mut self.ends, &piece);
        Ok(key)
    }

    /// Takes `id` from the owners of `piece`, and says whether it was one. A piece goes with its
    /// last owner.
    pub fn remove(&mut self, piece: &Segment, id: u32) -> bool
        ensures found { IsTrue result ↔ Owns self.old piece.now id }
        ensures removed { OnTrue result (DropsOwner self.old self.new piece.now id) }
        ensures unchanged { OnFalse result (self.new ≡ self.old) }
        ensures sound { IsSound self.new }
    {
        if !self.holdings.remove(piece, id) {
            return false;
        }
        ends::count_down(&mut self.ends, piece);
        true
    }

    /// The key of `piece`; none where the piece has no owner.
    pub fn key(&self, piece: &Segment) -> Option<usize>
        ensures key { result ≡ key_of self.now piece.now }
        ensures sound { IsSound self.now }
    {
        self.holdings.key(piece)
    }

    /// The piece with this key; none where no piece has it.
    pub fn piece(&self, key: usize) -> Option<Segment>
        ensures piece { (s : GridSegment) → (result ≡ Some s) ↔ (key_of self.now s ≡ Some key) }
        ensures sound { IsSound self.now }
    {
        self.holdings.piece(key)
    }

    /// The owners of the piece with this key, ascending; none where no piece has it.
    pub fn owners(&self, key: usize) -> &[u32]
        ensures owners { (s : GridSegment) → key_of self.now s ≡ Some key
            → result.now ≡ owners_of self.now s }
        ensures empty { ((s : GridSegment) → key_of self.now s ≢ Some key) → result.now ≡ [] }
        ensures ascending { IsStrictlyIncreasing result.now }
        ensures sound { IsSound self.now }
    {
        self.holdings.owners(key)
    }

    /// How often `p` is an end of a piece, each piece counted once for each of its owners.
    pub fn vertex_uses(&self, p: &Point) -> u64
        ensures uses { result ≡ uses_of self.now p.now }
        ensures used { (0 < result) ↔ ((s : GridSegment) × (IsPiece self.now s × IsEnd p.now s)) }
    {
        ends::uses_of(&self.ends, p)
    }

    /// All pieces, ascending.
    pub fn pieces(&self) -> Result<Vec<Segment>, NoMemory>
        ensures exact { IfOk result
            (λ v. (s : GridSegment) → Contains v.items s ↔ IsPiece self.now s) }
        ensures ascending { IfOk result (λ v. AllPairs IsSegmentBefore v.items) }
    {
        self.holdings.pieces()
    }

    /// All points that are ends of pieces, ascending.
    pub fn vertices(&self) -> Result<Vec<Point>, NoMemory>
        ensures exact { IfOk result
            (λ v. (p : GridPoint) → Contains v.items p ↔ (0 < uses_of self.now p)) }
        ensures ascending { IfOk result (λ v. AllPairs IsBefore v.items) }
    {
        keys_in_order(self.alloc, &self.ends)
    }
}
