//! The originals: an ordered map by id, so that finding, adding or taking out one doesn't pass all others.
ghost use Rattle.std.specs.Prelude.{◌≡◌, ◌↔◌, ◌<◌, ◌==◌, ◌++◌, ◌∷◌, [], All, map, filter, not};
ghost use Rattle.std.specs.Prelude.{IsNone, IfSome, IfOk, OnOk, OnErr};
ghost use Rattle.std.specs.Map.Iter.{ShowsInOrder, deref};
ghost use Rattle.hook_chain.specs.Ids.{LacksId, IsChainAmong};
ghost use Rattle.realm_drawing.specs.ById.{rechained};
ghost use Rattle.realm_drawing.specs.Walks.{chains_from};

use crate::walks::Chains;
use grid_base::{Chain, NoMemory, Point, Segment};
use std::alloc::Global;
use std::collections::BTreeMap;
use std::collections::btree_map::Values;
use std::marker::Model;

// A segment as it was given, and the chain that stands for it.
#[derive(Drop)]
pub(crate) struct Placed {
    pub(crate) line: Segment,
    pub(crate) chain: Chain,
}

// Contracts see the list of the originals, by rising id.
#[derive(Drop)]
pub(crate) struct Originals {
    by_id: BTreeMap<u32, Placed>,
}

impl Model for Originals {
    ghost use Rattle.std.specs.Prelude.{List};
    ghost use Rattle.std.specs.BTreeMap.{IsOrdered};
    ghost use Rattle.std.specs.Ordering.{nat_cmp};
    ghost use Rattle.grid_base.specs.declared.original.Original.{Original};
    ghost use Rattle.realm_drawing.specs.ById.{listed};

    ghost Value = { List Original };

    ghost view = { λ o. listed o.by_id };

    ghost invariant = { λ o. IsOrdered nat_cmp o.by_id };
}

impl Originals {
    pub(crate) fn new(alloc: Global) -> Originals
        ensures { result ≡ [] }
    {
        Originals {
            by_id: BTreeMap::new(alloc),
        }
    }

    // The same originals with chains of their own. They come by rising id, so each is put last.
    pub(crate) fn copied(&self, alloc: Global) -> Result<Originals, NoMemory>
        ensures same { IfOk result (λ copy. copy ≡ self.now) }
    {
        let mut copy = Originals::new(alloc);
        for (id, placed) in self.by_id.iter() {
            let points = copied(alloc, placed.chain.points())?;
            copy.put(*id, placed.line, Chain::new(points))?;
        }
        Ok(copy)
    }

    // The chain of the original with this id.
    pub(crate) fn chain(&self, id: u32) -> Option<&[Point]>
        ensures none { IsNone result ↔ LacksId self.now id }
        ensures chain { IfSome result (λ points. IsChainAmong self.now id points.now) }
    {
        match self.by_id.get(&id) {
            Some(placed) => Some(placed.chain.points()),
            None => None,
        }
    }

    // The chains of those with this id or a greater one, by rising id.
    pub(crate) fn chains_from(&self, id: u32) -> Chains<'_>
        ensures { result ≡ chains_from id self.now }
    {
        Chains::new(self.by_id.range(id..))
    }

    // What is placed, in the order of the list.
    pub(crate) fn placed(&self) -> Values<'_, u32, Placed>
        ensures chains { map (λ p. p.chain) result ≡ map (λ o. o.chain) self.now }
        ensures runs { ShowsInOrder (deref {X = Placed}) }
    {
        self.by_id.values()
    }

    // Their ids, rising.
    pub(crate) fn ids(&self, alloc: Global) -> Result<Vec<u32>, NoMemory>
        ensures { IfOk result (λ v. v.items ≡ map (λ o. o.id) self.now) }
    {
        Ok(self.by_id.keys().copied().collect(alloc)?)
    }

    // Adds an original whose id is greater than all others.
    pub(crate) fn put(&mut self, id: u32, line: Segment, chain: Chain) -> Result<(), NoMemory>
        requires id_above { All (λ o. o.id < id) self.old }
        ensures ok { OnOk result
            (self.new ≡ self.old ++ record { id = id; a = line.a; b = line.b; chain = chain } ∷ []) }
        ensures unchanged { OnErr result (self.new ≡ self.old) }
    {
        self.by_id.insert(id, Placed { line, chain })?;
        Ok(())
    }

    // Puts `chain` in the place of the chain of the original with this id, if there is one.
    pub(crate) fn rechain(&mut self, id: u32, chain: Chain)
        ensures { self.new ≡ map (rechained id chain) self.old }
    {
        if let Some(placed) = self.by_id.get_mut(&id) {
            placed.chain = chain;
        }
    }

    // Takes out the original with this id, if there is one.
    pub(crate) fn take(&mut self, id: u32)
        ensures { self.new ≡ filter (λ o. not (o.id == id)) self.old }
    {
        self.by_id.remove(&id);
    }
}

// The same points in a list of their own, which has no room for more.
pub(crate) fn copied(alloc: Global, points: &[Point]) -> Result<Vec<Point>, NoMemory>
    ensures { IfOk result (λ v. v.items ≡ points.now) }
{
    let mut list = Vec::with_capacity(alloc, points.len())?;
    list.extend_from_slice(points)?;
    Ok(list)
}
