//! The store: the engine, the files that keep its state, and the group of changes that is open.
ghost use Rattle.std.specs.Prelude.{◌≡◌, ◌≢◌, ◌⊎◌, ◌↔◌, ◌≤◌, ◌<◌, ◌^◌, ℕ, List, [], true, false, length, None, Err, IfOk, OnOk};
ghost use Rattle.std.specs.Prelude.{OnErr, IsErrOf, IsTrue};
ghost use Rattle.outside_world.specs.Counts.{Rose};
ghost use Rattle.outside_world.specs.GoesOn.{GoesOn};
ghost use Rattle.line_grammar.specs.Spelling.{change_text};
ghost use Rattle.line_grammar.specs.Spellable.{IsSpellableChange};
ghost use Rattle.realm_insert.specs.declared.refusal.Refusal.{Refusal as Word};
ghost use Rattle.realm_files.specs.Writing.{generation_of};
ghost use Rattle.realm_store.specs.Keeping.{Kept, SpendableKept, AllRest, present, HasGroup};
ghost use Rattle.realm_store.specs.Keeping.{without_group, with_group, changes_in};
ghost use Rattle.realm_store.specs.Sound.{IsSound};
ghost use Rattle.realm_store.specs.Making.{IsRefusedFor, Commits, Ends};
ghost use Rattle.realm_store.specs.Committing.{IsWritten, IsReplaced};
ghost use Rattle.realm_store.specs.Renewing.{IsRenewed, HasLastGeneration};

use crate::error::{BeginError, CheckpointError, CommitError, EndError};
use crate::grouping::{OpenGroup, begin_group, changes_of, prepare_group};
use crate::looking::is_sound;
use crate::renewing::{LAST_GENERATION, generation_of, prepare_state};
use grid_base::{NoMemory, Reply};
use line_grammar::{Change, write_change};
use outside_world::Outside;
use realm_files::Place;
use realm_insert::Engine;
use std::alloc::Global;
use std::marker::Model;
use std::thread::Threads;

/// The state, and where its next record will stand. Between two calls the files stand for the state; for that at the begin
/// of the group, where one is open. It is let go of by one call, as its engine is.
pub struct Store {
    pub(crate) alloc: Global,
    pub(crate) engine: Engine,
    pub(crate) group: Option<OpenGroup>,
    pub(crate) place: Option<Place>,
    pub(crate) has_gate: bool,
    pub(crate) spent: bool,
}

impl Model for Store {
    ghost use Rattle.std.specs.Prelude.{◌≡◌, false};
    ghost use Rattle.realm_store.specs.Keeping.{SpendableKept};
    ghost use Rattle.realm_store.specs.Groups.{filed_state, group_seen, Holds};

    ghost Value = { SpendableKept };

    ghost view = { λ s. record {
      kept = record { state = filed_state s.engine.state s.group; place = s.place; has_gate = s.has_gate };
      group = group_seen s.engine.state s.group;
      spent = s.spent;
    } };

    ghost invariant = { λ s. s.spent ≡ false → Holds s.engine s.place s.has_gate s.group };
}

impl Drop for Store {
    fn drop(self) {
        let Store {
            alloc: _,
            engine: _engine,
            group: _group,
            place: _,
            has_gate: _,
            spent: _,
        } = self;
    }
}

impl Store {
    // A store that isn't spent, and has no group.
    pub(crate) fn of(alloc: Global, engine: Engine, place: Option<Place>, has_gate: bool) -> Store
        requires ready { engine.spent ≡ false }
        ensures kept { result.kept ≡ record { state = engine.state; place = place; has_gate = has_gate } }
        ensures ready { result.spent ≡ false }
        ensures no_group { result.group ≡ None }
    {
        Store {
            alloc,
            engine,
            group: None,
            place,
            has_gate,
            spent: false,
        }
    }

    /// The state at present, which is sound, as that at the begin of a group is.
    pub fn state(&self) -> &Engine
        requires ready { self.now.spent ≡ false }
        ensures state { result.now.state ≡ present self.now }
        ensures ready { result.now.spent ≡ false }
        ensures sound { IsSound (present self.now) }
        ensures kept_sound { IsSound self.now.kept.state }
    {
        is_sound(&self.engine);
        if let Some(group) = &self.group {
            is_sound(&group.begun);
        }
        &self.engine
    }

    /// Whether a fault or want of memory ended a change, so that the store can't be used any more.
    pub fn is_spent(&self) -> bool
        ensures { result ≡ self.now.spent }
    {
        self.spent
    }

    /// Makes a change, and answers its reply. After `Ok` the record of the change is stable, where no group is open.
    /// In a group no file is touched.
    pub fn commit<R: Threads + Sync, W: Outside>(
        &mut self,
        rt: &R,
        world: &mut W,
        c: &Change,
    ) -> Result<Reply, CommitError>
        requires intact { W.failed world.old ≡ false }
        requires ready { self.old.spent ≡ false }
        requires spellable { IsSpellableChange c.now }
        requires short { length (change_text c.now) ≤ 2 ^ 20 }
        requires rest { W.tells world.old → AllRest self.old.kept (W.view world.old) }
        ensures made { IfOk result (λ reply. Commits c.now self.old reply self.new) }
        ensures refused { (word : Word) → result ≡ Err (CommitError.Refused word)
            → IsRefusedFor c.now (present self.old) self.old.kept word × (self.new ≡ self.old) × (world.new ≡ world.old) }
        ensures grouped { HasGroup self.old → (world.new ≡ world.old) × (result ≢ Err CommitError.Disk) }
        ensures untouched { result ≡ Err CommitError.NoMemory → world.new ≡ world.old }
        ensures spent { (self.new.spent ≡ true)
            ↔ ((result ≡ Err CommitError.Disk) ⊎ (result ≡ Err CommitError.NoMemory)) }
        ensures intact { ¬ (IsErrOf result CommitError.Disk) → W.failed world.new ≡ false }
        ensures disk_fault { IsErrOf result CommitError.Disk
            → Rose (W.disk_faults world.old) (W.disk_faults world.new) }
        ensures rest { OnOk result (W.tells world.new → AllRest self.new.kept (W.view world.new)) }
        ensures written { OnOk result (W.tells world.new
            → IsWritten (W.view world.old) (W.view world.new) self.old.kept self.new.kept) }
        ensures cut_off { IsErrOf result CommitError.Disk → W.tells world.new
            → (reply : List ℕ) × (after : SpendableKept) × Commits c.now self.old reply after
            × IsWritten (W.view world.old) (W.view world.new) self.old.kept after.kept }
        ensures goes_on { GoesOn ⟦<W as Outside>⟧ world.old world.new }
    {
        match write_change(self.alloc, c) {
            Ok(line) => self.commit_line(rt, world, c, line.bytes()),
            Err(NoMemory) => {
                self.spent = true;
                Err(CommitError::NoMemory)
            }
        }
    }

    /// Makes a change of which this line is the text, as `commit` does, so that the text isn't made again.
    pub fn commit_line<R: Threads + Sync, W: Outside>(
        &mut self,
        rt: &R,
        world: &mut W,
        c: &Change,
        line: &[u8],
    ) -> Result<Reply, CommitError>
        requires intact { W.failed world.old ≡ false }
        requires ready { self.old.spent ≡ false }
        requires spellable { IsSpellableChange c.now }
        requires short { length (change_text c.now) ≤ 2 ^ 20 }
        requires rest { W.tells world.old → AllRest self.old.kept (W.view world.old) }
        requires says { line.now ≡ change_text c.now }
        ensures made { IfOk result (λ reply. Commits c.now self.old reply self.new) }
        ensures refused { (word : Word) → result ≡ Err (CommitError.Refused word)
            → IsRefusedFor c.now (present self.old) self.old.kept word × (self.new ≡ self.old) × (world.new ≡ world.old) }
        ensures grouped { HasGroup self.old → (world.new ≡ world.old) × (result ≢ Err CommitError.Disk) }
        ensures untouched { result ≡ Err CommitError.NoMemory → world.new ≡ world.old }
        ensures spent { (self.new.spent ≡ true)
            ↔ ((result ≡ Err CommitError.Disk) ⊎ (result ≡ Err CommitError.NoMemory)) }
        ensures intact { ¬ (IsErrOf result CommitError.Disk) → W.failed world.new ≡ false }
        ensures disk_fault { IsErrOf result CommitError.Disk
            → Rose (W.disk_faults world.old) (W.disk_faults world.new) }
        ensures rest { OnOk result (W.tells world.new → AllRest self.new.kept (W.view world.new)) }
        ensures written { OnOk result (W.tells world.new
            → IsWritten (W.view world.old) (W.view world.new) self.old.kept self.new.kept) }
        ensures cut_off { IsErrOf result CommitError.Disk → W.tells world.new
            → (reply : List ℕ) × (after : SpendableKept) × Commits c.now self.old reply after
            × IsWritten (W.view world.old) (W.view world.new) self.old.kept after.kept }
        ensures goes_on { GoesOn ⟦<W as Outside>⟧ world.old world.new }
    {
        if self.in_group() {
            return self.join(rt, c, line);
        }
        let ready = self.make(rt, c, line)?;
        self.write_ready(world, &ready.gate, &ready.record)?;
        Ok(ready.reply)
    }

    /// Opens a group: what its changes make of the state is written by `end_group`, as one record, or given up.
    pub fn begin(&mut self) -> Result<(), BeginError>
        requires ready { self.old.spent ≡ false }
        ensures begun { OnOk result (self.new
            ≡ with_group self.old.kept (record { state = self.old.kept.state; entries = [] })) }
        ensures open { IsErrOf result BeginError.InGroup ↔ HasGroup self.old }
        ensures unchanged { OnErr result (self.new ≡ self.old) }
    {
        if self.in_group() {
            return Err(BeginError::InGroup);
        }
        let group = begin_group(self.alloc, &self.engine, self.place, self.has_gate)?;
        self.group = Some(group);
        Ok(())
    }

    /// Ends the open group, and answers how many changes it has. After `Ok` the record of all its changes is stable;
    /// of none, nothing is written.
    pub fn end_group<W: Outside>(&mut self, world: &mut W) -> Result<u64, EndError>
        requires intact { W.failed world.old ≡ false }
        requires ready { self.old.spent ≡ false }
        requires rest { W.tells world.old → AllRest self.old.kept (W.view world.old) }
        ensures ended { IfOk result (λ count. Ends self.old count self.new) }
        ensures none { IsErrOf result EndError.NoGroup ↔ (self.old.group ≡ None) }
        ensures unchanged { IsErrOf result EndError.NoGroup → (self.new ≡ self.old) × (world.new ≡ world.old) }
        ensures nothing { IfOk result (λ count. count ≡ 0 → world.new ≡ world.old) }
        ensures untouched { IsErrOf result EndError.NoMemory → world.new ≡ world.old }
        ensures spent { (self.new.spent ≡ true)
            ↔ ((result ≡ Err EndError.Disk) ⊎ (result ≡ Err EndError.NoMemory)) }
        ensures intact { ¬ (IsErrOf result EndError.Disk) → W.failed world.new ≡ false }
        ensures disk_fault { IsErrOf result EndError.Disk
            → Rose (W.disk_faults world.old) (W.disk_faults world.new) }
        ensures rest { OnOk result (W.tells world.new → AllRest self.new.kept (W.view world.new)) }
        ensures written { OnOk result (W.tells world.new
            → IsWritten (W.view world.old) (W.view world.new) self.old.kept self.new.kept) }
        ensures cut_off { IsErrOf result EndError.Disk → W.tells world.new
            → (count : ℕ) × (after : SpendableKept) × Ends self.old count after × (0 < count)
            × IsWritten (W.view world.old) (W.view world.new) self.old.kept after.kept }
        ensures goes_on { GoesOn ⟦<W as Outside>⟧ world.old world.new }
    {
        let count = self.changes_in_group();
        is_sound(&self.engine);
        let Some(group) = self.group.take() else {
            return Err(EndError::NoGroup);
        };
        if count == 0 {
            return Ok(0);
        }
        self.spent = true;
        let OpenGroup {
            begun,
            entries,
            gate,
        } = group;
        let record = prepare_group(self.alloc, &begun, entries)?;
        self.spent = false;
        self.write_ready(world, &gate, &record)?;
        Ok(count)
    }

    /// Gives up the open group, so that the state is that at its begin, and answers whether one was open.
    pub fn abandon(&mut self) -> bool
        requires ready { self.old.spent ≡ false }
        ensures open { IsTrue result ↔ HasGroup self.old }
        ensures given_up { self.new ≡ without_group self.old.kept }
    {
        match self.group.take() {
            None => false,
            Some(group) => {
                self.engine = group.begun;
                true
            }
        }
    }

    /// Whether a group is open.
    pub fn in_group(&self) -> bool
        ensures { IsTrue result ↔ HasGroup self.now }
    {
        self.group.is_some()
    }

    /// How many changes the open group has, 0 where none is open.
    pub fn changes_in_group(&self) -> u64
        ensures { result ≡ changes_in self.now }
    {
        changes_of(&self.group)
    }

    /// Writes the state to the file that isn't the newest, as the next generation, so that this file is the newest then
    /// and has no record. At each moment the files stand for the state.
    pub fn checkpoint<W: Outside>(&mut self, world: &mut W) -> Result<(), CheckpointError>
        requires intact { W.failed world.old ≡ false }
        requires ready { self.old.spent ≡ false }
        requires alone { self.old.group ≡ None }
        requires rest { W.tells world.old → AllRest self.old.kept (W.view world.old) }
        ensures renewed { OnOk result (IsRenewed self.old.kept self.new.kept) }
        ensures alone { OnOk result (self.new.group ≡ None) }
        ensures generations { IsErrOf result CheckpointError.Generations ↔ HasLastGeneration self.old.kept }
        ensures unchanged { IsErrOf result CheckpointError.Generations
            → (self.new ≡ self.old) × (world.new ≡ world.old) }
        ensures untouched { IsErrOf result CheckpointError.NoMemory → world.new ≡ world.old }
        ensures spent { (self.new.spent ≡ true)
            ↔ ((result ≡ Err CheckpointError.Disk) ⊎ (result ≡ Err CheckpointError.NoMemory)) }
        ensures intact { ¬ (IsErrOf result CheckpointError.Disk) → W.failed world.new ≡ false }
        ensures disk_fault { IsErrOf result CheckpointError.Disk
            → Rose (W.disk_faults world.old) (W.disk_faults world.new) }
        ensures rest { OnOk result (W.tells world.new → AllRest self.new.kept (W.view world.new)) }
        ensures replaced { OnOk result (W.tells world.new
            → IsReplaced (W.view world.old) (W.view world.new) self.old.kept self.new.kept) }
        ensures cut_off { IsErrOf result CheckpointError.Disk → W.tells world.new
            → (after : Kept) × IsRenewed self.old.kept after
            × IsReplaced (W.view world.old) (W.view world.new) self.old.kept after }
        ensures goes_on { GoesOn ⟦<W as Outside>⟧ world.old world.new }
    {
        if generation_of(self.place) >= LAST_GENERATION {
            return Err(CheckpointError::Generations);
        }
        self.spent = true;
        let generation = generation_of(self.place) + 1;
        let pages = prepare_state(self.alloc, &self.engine, generation)?;
        self.spent = false;
        self.put_state(world, &pages)?;
        Ok(())
    }
}
