//! Indexes of segments by keys, in clusters by the centres of their boxes.
ghost use Rattle.std.specs.Prelude.{◌≡◌, ◌↔◌, [], None};
ghost use Rattle.std.specs.Prelude.{IsSome, IsTrue, IfOk, OnOk, OnErr};
ghost use Rattle.std.specs.Bool.{OnTrue, OnFalse};
ghost use Rattle.std.specs.FinMap as map;
ghost use Rattle.std.specs.List.Sorted.{IsNonDecreasing};
ghost use Rattle.grid_base.specs.Point.{InBox};
ghost use Rattle.grid_base.specs.Segment.{BoxesMeet};
ghost use Rattle.realm_index.specs.Index.{HasKeysWhere, HasEachKeyWhere};
ghost use Rattle.realm_index.specs.Aside.{IsAlong};
ghost use Rattle.realm_index.specs.Near.{AddsPassed};

use crate::bounds::Bounds;
use crate::centre::Centre;
use crate::cluster::Cluster;
use crate::near::Near;
use crate::slots::Slots;
use crate::tree::Entry;
use grid_base::{NoMemory, Point, Segment};
use std::alloc::Global;
use std::marker::Model;

/// Segments under keys, which the caller picks, as in an `Index`. What a search tests is what it finds and what stands with
/// it, wherever on the grid that is.
#[derive(Drop)]
pub struct NearIndex {
    root: Cluster,
    segments: Slots,
    alloc: Global,
}

impl Model for NearIndex {
    ghost use Rattle.realm_index.specs.Index.{Entries, entries_code};
    ghost use Rattle.realm_index.specs.Kept.{IsClustered};

    ghost Value = { Entries };

    ghost coded = { entries_code };

    ghost view = { λ i. i.segments };

    ghost invariant = { λ i. IsClustered i.root i.segments };
}

// The level of a square that has any two centres, and the one above it.
const TOP: u32 = 32;

const ABOVE: u32 = 33;

// Most searches find no more keys than this.
const USUAL: usize = 32;

impl NearIndex {
    /// An index without entries.
    pub fn new(alloc: Global) -> NearIndex
        ensures { result ≡ map.empty }
    {
        NearIndex {
            root: Cluster::new(alloc, TOP, Centre::of(&Bounds::default())),
            segments: Slots::new(alloc),
            alloc,
        }
    }

    /// The same index once more. Each cluster is gone through once, and the lists have no room left over.
    pub fn copied(&self) -> Result<NearIndex, NoMemory>
        ensures same { IfOk result (λ copy. copy ≡ self.now) }
    {
        Ok(NearIndex {
            root: self.root.copied(self.alloc)?,
            segments: self.segments.copied(self.alloc)?,
            alloc: self.alloc,
        })
    }

    /// Puts `s` under `key`.
    pub fn insert(&mut self, key: usize, s: Segment) -> Result<(), NoMemory>
        requires new_key { map.get self.old key ≡ None }
        ensures ok { OnOk result (self.new ≡ map.insert self.old key s) }
        ensures unchanged { OnErr result (self.new ≡ self.old) }
    {
        let bounds = Bounds::of(&s);
        let entry = Entry { key, bounds };
        let centre = Centre::of(&bounds);
        self.root.admit(&centre, ABOVE)?;
        self.root.put(entry, &centre)?;
        match self.segments.put(key, s) {
            Ok(()) => Ok(()),
            Err(NoMemory) => {
                self.root.take(&entry);
                Err(NoMemory)
            }
        }
    }

    /// Takes out the segment under `key`, and says whether there was one.
    pub fn remove(&mut self, key: usize) -> bool
        ensures found { IsTrue result ↔ IsSome (map.get self.old key) }
        ensures removed { OnTrue result (self.new ≡ map.remove self.old key) }
        ensures unchanged { OnFalse result (self.new ≡ self.old) }
    {
        match self.segments.take(key) {
            None => false,
            Some(s) => {
                let bounds = Bounds::of(&s);
                self.root.take(&Entry { key, bounds });
                true
            }
        }
    }

    /// The segment under `key`.
    pub fn segment(&self, key: usize) -> Option<Segment>
        ensures { result ≡ map.get self.now key }
    {
        self.segments.segment(key)
    }

    /// The keys of the segments whose boxes meet that of `s`, rims included, each once, in no order.
    pub fn meeting_unordered(&self, s: &Segment) -> Result<Vec<usize>, NoMemory>
        ensures keys { IfOk result (λ v. HasEachKeyWhere (BoxesMeet s.now) self.now v.items) }
    {
        keys_found(&self.root, self.alloc, &Near::at_box(&Bounds::of(s)))
    }

    /// Of these the keys of the segments whose boxes don't lie off the line of `s`: each once, in no order. So of a long segment
    /// all that lie wholly on one side in a corner of its box are left out, and a search doesn't come to them.
    pub fn along(&self, s: &Segment) -> Result<Vec<usize>, NoMemory>
        ensures keys { IfOk result (λ v. HasEachKeyWhere (IsAlong s.now) self.now v.items) }
    {
        keys_found(&self.root, self.alloc, &Near::along(s))
    }

    /// The same keys, ascending.
    pub fn meeting(&self, s: &Segment) -> Result<Vec<usize>, NoMemory>
        ensures keys { IfOk result (λ v. HasKeysWhere (BoxesMeet s.now) self.now v.items) }
    {
        keys_met(&self.root, self.alloc, &Near::at_box(&Bounds::of(s)))
    }

    /// The keys of the segments whose boxes hold `p`, rims included, ascending.
    pub fn on_point(&self, p: &Point) -> Result<Vec<usize>, NoMemory>
        ensures keys { IfOk result (λ v. HasKeysWhere (λ t. InBox t.a t.b p.now) self.now v.items) }
    {
        keys_met(&self.root, self.alloc, &Near::at_box(&Bounds::at(p)))
    }
}

// The keys of the entries whose boxes pass, ascending.
fn keys_met(root: &Cluster, alloc: Global, near: &Near) -> Result<Vec<usize>, NoMemory>
    ensures keys { IfOk result (λ v. AddsPassed near.now root.now.entries [] v.items) }
    ensures rising { IfOk result (λ v. IsNonDecreasing v.items) }
{
    let mut keys = keys_found(root, alloc, near)?;
    keys.sort_unstable();
    Ok(keys)
}

// The same keys, in no order.
fn keys_found(root: &Cluster, alloc: Global, near: &Near) -> Result<Vec<usize>, NoMemory>
    ensures { IfOk result (λ v. AddsPassed near.now root.now.entries [] v.items) }
{
    let mut keys = Vec::with_capacity(alloc, USUAL)?;
    root.find(near, &mut keys)?;
    Ok(keys)
}
