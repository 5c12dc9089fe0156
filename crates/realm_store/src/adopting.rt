//! A state from elsewhere, as of another store, takes the place of what the files stand for. It is tested whole before
//! anything is written, so a state that isn't valid changes nothing.
ghost use Rattle.std.specs.Prelude.{◌≡◌, ◌⊎◌, ◌↔◌, ◌≤◌, ◌<◌, ℕ, true, false, None, Err, IfOk, OnOk, OnErr, IsErrOf};
ghost use Rattle.outside_world.specs.Counts.{Rose};
ghost use Rattle.outside_world.specs.GoesOn.{GoesOn};
ghost use Rattle.realm_insert.specs.Snapshots.{state_of, IsValidState};
ghost use Rattle.realm_store.specs.Sound.{IsSound};
ghost use Rattle.realm_store.specs.Keeping.{Kept, AllRest};
ghost use Rattle.realm_store.specs.Renewing.{HasLastGeneration};
ghost use Rattle.realm_store.specs.Committing.{IsReplaced};
ghost use Rattle.realm_store.specs.Adopting.{MayReplace, Adopts};

use crate::error::AdoptError;
use crate::looking::is_sound;
use crate::renewing::{LAST_GENERATION, generation_of, prepare_state};
use crate::store::Store;
use outside_world::Outside;
use realm_insert::{Engine, SnapshotError};
use record_codec::Snapshot;
use std::alloc::Global;

impl Store {
    /// Takes over the state of the snapshot, where that is valid and has more changes than the store. It is written to the
    /// file that isn't the newest, as the next generation, so that this file is the newest then and has no record. At
    /// each moment the files stand for the state before or for this one; after `Ok` this one is stable.
    pub fn adopt<W: Outside>(&mut self, world: &mut W, s: Snapshot) -> Result<(), AdoptError>
        requires intact { W.failed world.old ≡ false }
        requires ready { self.old.spent ≡ false }
        requires alone { self.old.group ≡ None }
        requires rest { W.tells world.old → AllRest self.old.kept (W.view world.old) }
        ensures adopted { OnOk result (Adopts self.old.kept s self.new.kept) }
        ensures alone { OnOk result (self.new.group ≡ None) }
        ensures invalid { result ≡ Err AdoptError.Invalid → IsValidState (state_of s) → ⊥ }
        ensures older { (have : ℕ) → result ≡ Err (AdoptError.Older have) → IsValidState (state_of s)
            × (have ≡ self.old.kept.state.changes) × (s.changes ≤ have) }
        ensures generations { result ≡ Err AdoptError.Generations → IsValidState (state_of s)
            × (self.old.kept.state.changes < s.changes) × HasLastGeneration self.old.kept }
        ensures unchanged { (result ≡ Err AdoptError.Invalid) ⊎ (((have : ℕ) × (result ≡ Err (AdoptError.Older have)))
            ⊎ (result ≡ Err AdoptError.Generations)) → (self.new ≡ self.old) × (world.new ≡ world.old) }
        ensures begun { result ≡ Err AdoptError.Disk → MayReplace self.old.kept s }
        ensures untouched { result ≡ Err AdoptError.NoMemory → world.new ≡ world.old }
        ensures spent { (self.new.spent ≡ true)
            ↔ ((result ≡ Err AdoptError.Disk) ⊎ (result ≡ Err AdoptError.NoMemory)) }
        ensures intact { ¬ (IsErrOf result AdoptError.Disk) → W.failed world.new ≡ false }
        ensures disk_fault { IsErrOf result AdoptError.Disk
            → Rose (W.disk_faults world.old) (W.disk_faults world.new) }
        ensures rest { OnOk result (W.tells world.new → AllRest self.new.kept (W.view world.new)) }
        ensures replaced { OnOk result (W.tells world.new
            → IsReplaced (W.view world.old) (W.view world.new) self.old.kept self.new.kept) }
        ensures cut_off { IsErrOf result AdoptError.Disk → W.tells world.new
            → (after : Kept) × Adopts self.old.kept s after
            × IsReplaced (W.view world.old) (W.view world.new) self.old.kept after }
        ensures goes_on { GoesOn ⟦<W as Outside>⟧ world.old world.new }
    {
        match self.replacement(s) {
            Ok(engine) => {
                self.engine = engine;
                self.spent = true;
                let generation = generation_of(self.place) + 1;
                let pages = prepare_state(self.alloc, &self.engine, generation)?;
                self.spent = false;
                self.put_state(world, &pages)?;
                Ok(())
            }
            Err(error) => {
                self.spent = matches!(error, AdoptError::NoMemory);
                Err(error)
            }
        }
    }

    // The engine of the snapshot's state, where that may take the place of what is kept. That it is valid is tested first.
    fn replacement(&self, s: Snapshot) -> Result<Engine, AdoptError>
        requires ready { self.now.spent ≡ false }
        requires alone { self.now.group ≡ None }
        ensures ready { IfOk result (λ engine. engine.spent ≡ false) }
        ensures state { IfOk result (λ engine. engine.state ≡ state_of s) }
        ensures may { OnOk result (MayReplace self.now.kept s) }
        ensures sound { IfOk result (λ engine. IsSound engine.state) }
        ensures invalid { result ≡ Err AdoptError.Invalid → IsValidState (state_of s) → ⊥ }
        ensures older { (have : ℕ) → result ≡ Err (AdoptError.Older have) → IsValidState (state_of s)
            × (have ≡ self.now.kept.state.changes) × (s.changes ≤ have) }
        ensures generations { result ≡ Err AdoptError.Generations → IsValidState (state_of s)
            × (self.now.kept.state.changes < s.changes) × HasLastGeneration self.now.kept }
        ensures not_disk { IsErrOf result AdoptError.Disk → ⊥ }
    {
        let have = self.engine.changes();
        let engine = engine_of(self.alloc, s)?;
        if engine.changes() <= have {
            return Err(AdoptError::Older { have });
        }
        if generation_of(self.place) >= LAST_GENERATION {
            return Err(AdoptError::Generations);
        }
        is_sound(&engine);
        Ok(engine)
    }
}

// The engine of the snapshot's state, where that is valid.
fn engine_of(alloc: Global, s: Snapshot) -> Result<Engine, AdoptError>
    ensures ready { IfOk result (λ engine. engine.spent ≡ false) }
    ensures state { IfOk result (λ engine. engine.state ≡ state_of s) }
    ensures valid { OnOk result (IsValidState (state_of s)) }
    ensures invalid { OnErr result ((result ≡ Err AdoptError.NoMemory)
        ⊎ ((result ≡ Err AdoptError.Invalid) × (IsValidState (state_of s) → ⊥))) }
{
    match Engine::from_snapshot(alloc, s) {
        Ok(engine) => Ok(engine),
        Err(SnapshotError::Invalid) => Err(AdoptError::Invalid),
        Err(SnapshotError::NoMemory) => Err(AdoptError::NoMemory),
    }
}
