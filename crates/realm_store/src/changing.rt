//! What the calls of a store are made of: a change outside a group and in one, and the writing of a record and of a generation.
ghost use Rattle.std.specs.Prelude.{◌≡◌, ◌↔◌, ◌≤◌, ◌^◌, None, true, false, length, Err, IfOk, OnOk, OnErr, IsErr, IsErrOf};
ghost use Rattle.outside_world.specs.Counts.{Rose};
ghost use Rattle.outside_world.specs.GoesOn.{GoesOn};
ghost use Rattle.line_grammar.specs.Spelling.{change_text};
ghost use Rattle.line_grammar.specs.Spellable.{IsSpellableChange};
ghost use Rattle.record_codec.specs.Fitting.{IsRecord};
ghost use Rattle.realm_insert.specs.Refusals.{IsRefusedBy};
ghost use Rattle.realm_insert.specs.declared.refusal.Refusal.{Refusal as Word};
ghost use Rattle.realm_insert.specs.State.{State};
ghost use Rattle.realm_store.specs.Leading.{Leads};
ghost use Rattle.realm_store.specs.Keeping.{AllRest, with_state, present, HasGroup, without_group};
ghost use Rattle.realm_store.specs.Making.{kept_behind, HasRoom, LacksRoom, IsRefusedFor, Commits};
ghost use Rattle.realm_store.specs.NextGates.{IsGateFor};
ghost use Rattle.realm_store.specs.ReadyChanges.{IsReady};
ghost use Rattle.realm_files.specs.Writing.{next_file};
ghost use Rattle.realm_store.specs.Renewing.{HasLastGeneration, IsNext, kept_renewed};
ghost use Rattle.realm_store.specs.Committing.{Keeps, Renewed};

use crate::committing::{Ready, make_change, ready_change, refusal_or};
use crate::error::CommitError;
use crate::gates::{NextGate, place_of};
use crate::grouping::{join_group, lack_in};
use crate::renewing::{next_file, next_place};
use crate::store::Store;
use crate::writing::{put_next, ready_gate};
use grid_base::Reply;
use line_grammar::Change;
use outside_world::Outside;
use realm_files::Place;
use realm_insert::{ChangeError, Refusal};
use realm_journal::{JournalError, Prepared, append};
use realm_pages::PreparedPages;
use std::thread::Threads;

impl Store {
    /// Makes a change in the open group, where there is room for its record. Nothing is written.
    pub(crate) fn join<R: Threads + Sync>(
        &mut self,
        rt: &R,
        c: &Change,
        line: &[u8],
    ) -> Result<Reply, CommitError>
        requires ready { self.old.spent ≡ false }
        requires spellable { IsSpellableChange c.now }
        requires short { length (change_text c.now) ≤ 2 ^ 20 }
        requires says { line.now ≡ change_text c.now }
        requires in_group { HasGroup self.old }
        ensures made { IfOk result (λ reply. Commits c.now self.old reply self.new) }
        ensures kept { OnOk result (self.new.kept ≡ self.old.kept) }
        ensures refused { (word : Word) → result ≡ Err (CommitError.Refused word)
            → IsRefusedFor c.now (present self.old) self.old.kept word × (self.new ≡ self.old) }
        ensures not_disk { IsErrOf result CommitError.Disk → ⊥ }
        ensures spent { (self.new.spent ≡ true) ↔ (result ≡ Err CommitError.NoMemory) }
    {
        match lack_in(&self.group) {
            Some(lack) => Err(self.refuse(rt, c, lack)),
            None => self.add(rt, c, line),
        }
    }

    // Why a change isn't made, where there is no room for its record for this cause.
    fn refuse<R: Threads + Sync>(&mut self, rt: &R, c: &Change, lack: Refusal) -> CommitError
        requires ready { self.old.spent ≡ false }
        requires spellable { IsSpellableChange c.now }
        requires lacks { LacksRoom self.old.kept lack }
        ensures refused { (word : Word) → result ≡ CommitError.Refused word
            → IsRefusedFor c.now (present self.old) self.old.kept word × (self.new ≡ self.old) }
        ensures not_disk { result ≡ CommitError.Disk → ⊥ }
        ensures spent { (self.new.spent ≡ true) ↔ (result ≡ CommitError.NoMemory) }
    {
        match refusal_or(rt, &self.engine, c, lack) {
            ChangeError::Refused(word) => CommitError::Refused(word),
            ChangeError::NoMemory => {
                self.spent = true;
                CommitError::NoMemory
            }
        }
    }

    // Makes a change that joins the open group, which has room for it.
    fn add<R: Threads + Sync>(
        &mut self,
        rt: &R,
        c: &Change,
        line: &[u8],
    ) -> Result<Reply, CommitError>
        requires ready { self.old.spent ≡ false }
        requires spellable { IsSpellableChange c.now }
        requires short { length (change_text c.now) ≤ 2 ^ 20 }
        requires says { line.now ≡ change_text c.now }
        requires in_group { HasGroup self.old }
        requires room { HasRoom self.old.kept }
        ensures made { IfOk result (λ reply. Commits c.now self.old reply self.new) }
        ensures kept { OnOk result (self.new.kept ≡ self.old.kept) }
        ensures refused { (word : Word) → result ≡ Err (CommitError.Refused word)
            → IsRefusedBy c.now (present self.old) word × (self.new ≡ self.old) }
        ensures not_disk { IsErrOf result CommitError.Disk → ⊥ }
        ensures spent { (self.new.spent ≡ true) ↔ (result ≡ Err CommitError.NoMemory) }
    {
        self.spent = true;
        match make_change(rt, self.alloc, &mut self.engine, c, line) {
            Ok(made) => {
                join_group(&mut self.group, made.entry)?;
                self.spent = false;
                Ok(made.reply)
            }
            Err(ChangeError::Refused(word)) => {
                self.spent = false;
                Err(CommitError::Refused(word))
            }
            Err(ChangeError::NoMemory) => Err(CommitError::NoMemory),
        }
    }

    /// Makes a change outside a group, where there is room for its record, and takes all the memory that its writing needs.
    /// Nothing is written.
    pub(crate) fn make<R: Threads + Sync>(
        &mut self,
        rt: &R,
        c: &Change,
        line: &[u8],
    ) -> Result<Ready, CommitError>
        requires ready { self.old.spent ≡ false }
        requires spellable { IsSpellableChange c.now }
        requires short { length (change_text c.now) ≤ 2 ^ 20 }
        requires says { line.now ≡ change_text c.now }
        requires alone { self.old.group ≡ None }
        ensures made { IfOk result (λ ready. IsReady c.now self.old.kept self.new.kept.state ready) }
        ensures same_place { OnOk result (self.new.kept ≡ with_state self.new.kept.state self.old.kept) }
        ensures alone { OnOk result (self.new.group ≡ None) }
        ensures refused { (word : Word) → result ≡ Err (CommitError.Refused word)
            → IsRefusedFor c.now self.old.kept.state self.old.kept word × (self.new ≡ self.old) }
        ensures not_disk { IsErrOf result CommitError.Disk → ⊥ }
        ensures spent { (self.new.spent ≡ true) ↔ (result ≡ Err CommitError.NoMemory) }
    {
        self.spent = true;
        let (place, has_gate) = (self.place, self.has_gate);
        match ready_change(rt, self.alloc, &mut self.engine, place, has_gate, c, line) {
            Ok(ready) => {
                self.spent = false;
                Ok(ready)
            }
            Err(ChangeError::Refused(word)) => {
                self.spent = false;
                Err(CommitError::Refused(word))
            }
            Err(ChangeError::NoMemory) => Err(CommitError::NoMemory),
        }
    }

    /// Writes a record of what the engine has made, behind its gate, which was made ready before. No memory is taken.
    pub(crate) fn write_ready<W: Outside>(
        &mut self,
        world: &mut W,
        gate: &NextGate,
        record: &Prepared,
    ) -> Result<(), JournalError>
        requires intact { W.failed world.old ≡ false }
        requires ready { self.old.spent ≡ false }
        requires alone { self.old.group ≡ None }
        requires is_record { IsRecord «record».now }
        requires gate { (before : State) × IsGateFor gate.now (with_state before self.old.kept)
            × HasRoom (with_state before self.old.kept)
            × (W.tells world.old → AllRest (with_state before self.old.kept) (W.view world.old)) }
        ensures kept { OnOk result ((before : State) → IsGateFor gate.now (with_state before self.old.kept)
            → self.new ≡ without_group (kept_behind (with_state before self.old.kept) «record».now self.old.kept.state)) }
        ensures spent { (self.new.spent ≡ true) ↔ IsErr result }
        ensures told { W.tells world.new → (before : State) → IsGateFor gate.now (with_state before self.old.kept)
            → AllRest (with_state before self.old.kept) (W.view world.old)
            → Leads before «record».now self.old.kept.state
            → Keeps (W.view world.old) (W.view world.new) (with_state before self.old.kept)
            (kept_behind (with_state before self.old.kept) «record».now self.old.kept.state) result }
        ensures intact { OnOk result (W.failed world.new ≡ false) }
        ensures disk_fault { OnErr result (Rose (W.disk_faults world.old) (W.disk_faults world.new)) }
        ensures goes_on { GoesOn ⟦<W as Outside>⟧ world.old world.new }
    {
        self.spent = true;
        ready_gate(world, gate)?;
        let place = place_of(gate);
        let next = append(world, place.file, place.next, record)?;
        self.place = Some(Place { next, ..place });
        self.has_gate = true;
        self.spent = false;
        Ok(())
    }

    /// Writes the state of the engine, which was made ready as the next generation, to the file that isn't the newest. The files
    /// may stand for another state before. No memory is taken.
    pub(crate) fn put_state<W: Outside>(
        &mut self,
        world: &mut W,
        pages: &PreparedPages,
    ) -> Result<(), JournalError>
        requires intact { W.failed world.old ≡ false }
        requires ready { self.old.spent ≡ false }
        requires alone { self.old.group ≡ None }
        requires greater { HasLastGeneration self.old.kept → ⊥ }
        ensures kept { OnOk result (self.new ≡ without_group (kept_renewed self.old.kept pages.now.payload)) }
        ensures spent { (self.new.spent ≡ true) ↔ IsErr result }
        ensures told { W.tells world.new → IsNext self.old.kept (next_file self.old.kept.place) pages.now
            → (before : State) → AllRest (with_state before self.old.kept) (W.view world.old)
            → Renewed (W.view world.old) (W.view world.new) (with_state before self.old.kept)
            (kept_renewed self.old.kept pages.now.payload) result }
        ensures intact { OnOk result (W.failed world.new ≡ false) }
        ensures disk_fault { OnErr result (Rose (W.disk_faults world.old) (W.disk_faults world.new)) }
        ensures goes_on { GoesOn ⟦<W as Outside>⟧ world.old world.new }
    {
        self.spent = true;
        let next = put_next(world, next_file(self.place), pages)?;
        self.place = Some(next_place(self.place, next));
        self.has_gate = true;
        self.spent = false;
        Ok(())
    }
}
