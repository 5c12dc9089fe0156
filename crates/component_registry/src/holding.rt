//! What is held of one piece: its key and its owners.
ghost use Rattle.std.specs.Prelude.{◌≡◌, ◌≢◌, ◌⊎◌, ◌↔◌, ◌+◌, ℕ, IsTrue, OnOk, OnErr};
ghost use Rattle.std.specs.Prelude.{◌∷◌, [], Contains, length};
ghost use Rattle.std.specs.Bool.{OnTrue, OnFalse};
ghost use Rattle.std.specs.List.Sorted.{IsStrictlyIncreasing};
ghost use Rattle.component_registry.specs.Registry.{holding_of};

use grid_base::NoMemory;
use smallvec::SmallVec;
use std::alloc::{AllocError, Global};
use std::marker::Model;

// The key of a piece, and its owners, ascending. A few of them take no memory of their own.
#[derive(Drop)]
pub(crate) struct Holding {
    key: usize,
    owners: SmallVec<u32, 4>,
}

impl Model for Holding {
    ghost use Rattle.std.specs.List.Sorted.{IsStrictlyIncreasing};
    ghost use Rattle.component_registry.specs.Registry.{Holding as Seen, holding_code};

    ghost Value = { Seen };

    ghost coded = { holding_code };

    ghost view = { λ h. record { key = h.key; owners = h.owners.items } };

    ghost invariant = { λ h. IsStrictlyIncreasing h.owners.items };
}

// A clone is the same key with the same owners.
impl Clone for Holding {
    ghost use Rattle.std.specs.Prelude.{◌≡◌};

    ghost is_clone = { λ held copy. copy ≡ held };

    fn clone(&self) -> Result<Holding, AllocError> {
        Ok(Holding {
            key: self.key,
            owners: self.owners.clone()?,
        })
    }
}

impl Holding {
    // What is held of a new piece with one owner.
    pub(crate) fn new(alloc: Global, key: usize, id: u32) -> Holding
        ensures { result ≡ holding_of key (id ∷ []) }
    {
        let mut owners = SmallVec::new(alloc);
        owners.push_reserved(id);
        Holding { key, owners }
    }

    pub(crate) fn key(&self) -> usize
        ensures { result ≡ self.now.key }
    {
        self.key
    }

    pub(crate) fn owners(&self) -> &[u32]
        ensures owners { result.now ≡ self.now.owners }
        ensures ascending { IsStrictlyIncreasing self.now.owners }
    {
        self.owners.as_slice()
    }

    // Whether there is no owner any more.
    pub(crate) fn is_unowned(&self) -> bool
        ensures { IsTrue result ↔ (self.now.owners ≡ []) }
    {
        self.owners.is_empty()
    }

    // Puts `id` in its place.
    pub(crate) fn add_owner(&mut self, id: u32) -> Result<(), NoMemory>
        requires { ¬ Contains self.old.owners id }
        ensures owners { OnOk result
            ((x : ℕ) → Contains self.new.owners x ↔ ((x ≡ id) ⊎ Contains self.old.owners x)) }
        ensures count { OnOk result (length self.new.owners ≡ length self.old.owners + 1) }
        ensures key { self.new.key ≡ self.old.key }
        ensures ascending { IsStrictlyIncreasing self.new.owners }
        ensures unchanged { OnErr result (self.new ≡ self.old) }
    {
        match self.owners.as_slice().binary_search(&id) {
            Ok(_) => unreachable!(),
            Err(place) => self.owners.insert(place, id)?,
        }
        Ok(())
    }

    // Takes `id` out, and says whether it was there.
    pub(crate) fn drop_owner(&mut self, id: u32) -> bool
        ensures found { IsTrue result ↔ Contains self.old.owners id }
        ensures owners { OnTrue result
            ((x : ℕ) → Contains self.new.owners x ↔ (Contains self.old.owners x × (x ≢ id))) }
        ensures count { OnTrue result (length self.new.owners + 1 ≡ length self.old.owners) }
        ensures key { self.new.key ≡ self.old.key }
        ensures ascending { IsStrictlyIncreasing self.new.owners }
        ensures unchanged { OnFalse result (self.new ≡ self.old) }
    {
        match self.owners.as_slice().binary_search(&id) {
            Ok(place) => {
                self.owners.remove(place);
                true
            }
            Err(_) => false,
        }
    }
}
