//! Takes a record that another store has written: its changes are made again, and it is written as a commit writes its own.
ghost use Rattle.std.specs.Prelude.{◌≡◌, ◌≢◌, ◌⊎◌, ◌+◌, ◌↔◌, ℕ, true, false, Some, None, Ok, Err, IfOk, OnOk, IsErrOf};
ghost use Rattle.outside_world.specs.Counts.{Rose};
ghost use Rattle.outside_world.specs.GoesOn.{GoesOn};
ghost use Rattle.record_codec.specs.Fitting.{IsRecord};
ghost use Rattle.realm_insert.specs.declared.refusal.Refusal.TheVariants.{Full as FullWord, Generations as GenerationsWord};
ghost use Rattle.realm_store.specs.Keeping.{Kept, AllRest};
ghost use Rattle.realm_store.specs.Making.{HasRoom, IsFull, LacksGeneration};
ghost use Rattle.realm_store.specs.Committing.{IsWritten};
ghost use Rattle.realm_store.specs.Accepting.{Accepts, FailsAt, IsNotTaken};
ghost use Rattle.realm_store.specs.ReadyRecords.{IsReadyRecord, IsRemade};

use crate::error::AcceptError;
use crate::gates::{NextGate, gate_for, lack_of};
use crate::looking::is_sound;
use crate::replaying::replay_entries;
use crate::store::Store;
use grid_base::NoMemory;
use outside_world::Outside;
use realm_insert::Refusal;
use realm_journal::{Prepared, prepare};
use record_codec::Record;
use std::thread::Threads;

/// A record that waits to be written, and its gate.
#[derive(Drop)]
pub(crate) struct ReadyRecord {
    pub(crate) gate: NextGate,
    pub(crate) record: Prepared,
}

impl Store {
    /// Makes the changes of a record that another store has written, and writes the record behind the newest. After `Ok` it is
    /// stable. Nothing is written before all its changes are made.
    pub fn accept<R: Threads + Sync, W: Outside>(
        &mut self,
        rt: &R,
        world: &mut W,
        r: &Record,
    ) -> Result<(), AcceptError>
        requires intact { W.failed world.old ≡ false }
        requires ready { self.old.spent ≡ false }
        requires alone { self.old.group ≡ None }
        requires is_record { IsRecord r.now }
        requires rest { W.tells world.old → AllRest self.old.kept (W.view world.old) }
        ensures accepted { OnOk result (Accepts self.old.kept r.now self.new.kept) }
        ensures alone { OnOk result (self.new.group ≡ None) }
        ensures gap { (have : ℕ) → result ≡ Err (AcceptError.Gap have)
            → (have ≡ self.old.kept.state.changes) × (r.now.number ≢ have + 1) }
        ensures in_turn { ((have : ℕ) → result ≢ Err (AcceptError.Gap have))
            → r.now.number ≡ self.old.kept.state.changes + 1 }
        ensures full { result ≡ Err AcceptError.Full → IsFull self.old.kept }
        ensures generations { result ≡ Err AcceptError.Generations
            → (IsFull self.old.kept → ⊥) × LacksGeneration self.old.kept }
        ensures not_of { (number : ℕ) → result ≡ Err (AcceptError.NotOf number)
            → HasRoom self.old.kept × FailsAt self.old.kept.state r.now number × (world.new ≡ world.old) }
        ensures unchanged { IsNotTaken result → (self.new ≡ self.old) × (world.new ≡ world.old) }
        ensures untouched { result ≡ Err AcceptError.NoMemory → world.new ≡ world.old }
        ensures spent { (self.new.spent ≡ true) ↔ ((result ≡ Err AcceptError.Disk)
            ⊎ ((result ≡ Err AcceptError.NoMemory) ⊎ ((number : ℕ) × (result ≡ Err (AcceptError.NotOf number))))) }
        ensures intact { ¬ (IsErrOf result AcceptError.Disk) → W.failed world.new ≡ false }
        ensures disk_fault { IsErrOf result AcceptError.Disk
            → Rose (W.disk_faults world.old) (W.disk_faults world.new) }
        ensures rest { OnOk result (W.tells world.new → AllRest self.new.kept (W.view world.new)) }
        ensures written { OnOk result (W.tells world.new
            → IsWritten (W.view world.old) (W.view world.new) self.old.kept self.new.kept) }
        ensures cut_off { IsErrOf result AcceptError.Disk → W.tells world.new
            → (after : Kept) × Accepts self.old.kept r.now after
            × IsWritten (W.view world.old) (W.view world.new) self.old.kept after }
        ensures goes_on { GoesOn ⟦<W as Outside>⟧ world.old world.new }
    {
        let ready = self.ready_record(r)?;
        match self.replay(rt, r)? {
            None => {
                self.write_ready(world, &ready.gate, &ready.record)?;
                Ok(())
            }
            Some(number) => Err(AcceptError::NotOf { number }),
        }
    }

    // Makes a record that comes next ready to be written, where there is room for it. This takes all the memory of its writing.
    fn ready_record(&mut self, r: &Record) -> Result<ReadyRecord, AcceptError>
        requires ready { self.old.spent ≡ false }
        requires alone { self.old.group ≡ None }
        requires is_record { IsRecord r.now }
        ensures made { IfOk result (λ ready. IsReadyRecord self.old.kept r.now ready) }
        ensures unchanged { ¬ (result ≡ Err AcceptError.NoMemory) → self.new ≡ self.old }
        ensures gap { (have : ℕ) → result ≡ Err (AcceptError.Gap have)
            → (have ≡ self.old.kept.state.changes) × (r.now.number ≢ have + 1) }
        ensures in_turn { ((have : ℕ) → result ≢ Err (AcceptError.Gap have))
            → r.now.number ≡ self.old.kept.state.changes + 1 }
        ensures full { result ≡ Err AcceptError.Full → IsFull self.old.kept }
        ensures generations { result ≡ Err AcceptError.Generations
            → (IsFull self.old.kept → ⊥) × LacksGeneration self.old.kept }
        ensures not_of { (number : ℕ) → result ≡ Err (AcceptError.NotOf number) → ⊥ }
        ensures not_disk { result ≡ Err AcceptError.Disk → ⊥ }
        ensures spent { (self.new.spent ≡ true) ↔ (result ≡ Err AcceptError.NoMemory) }
    {
        let have = self.engine.changes();
        if r.number != have + 1 {
            return Err(AcceptError::Gap { have });
        }
        self.spent = true;
        let gate = gate_for(self.alloc, &self.engine, self.place, self.has_gate)?;
        if let Some(lack) = lack_of(&gate) {
            self.spent = false;
            return Err(error_of(lack));
        }
        let record = prepare(self.alloc, r)?;
        self.spent = false;
        Ok(ReadyRecord { gate, record })
    }

    // Makes the changes of a record that comes next, and answers the number of the first that leads nowhere; none where all of
    // them lead on. Else the store is spent.
    fn replay<R: Threads + Sync>(&mut self, rt: &R, r: &Record) -> Result<Option<u64>, NoMemory>
        requires ready { self.old.spent ≡ false }
        requires alone { self.old.group ≡ None }
        requires number { r.now.number ≡ self.old.kept.state.changes + 1 }
        ensures remade { result ≡ Ok None → IsRemade self.old.kept r.now self.new }
        ensures fails { (number : ℕ) → result ≡ Ok (Some number) → FailsAt self.old.kept.state r.now number }
        ensures spent { (self.new.spent ≡ false) ↔ (result ≡ Ok None) }
    {
        self.spent = true;
        match replay_entries(rt, self.alloc, &mut self.engine, r.entries.entries())? {
            None => {
                is_sound(&self.engine);
                self.spent = false;
                Ok(None)
            }
            Some(number) => Ok(Some(number)),
        }
    }
}

// Why a record isn't taken, for this lack of room.
fn error_of(lack: Refusal) -> AcceptError
    ensures full { lack ≡ FullWord → result ≡ AcceptError.Full }
    ensures generations { lack ≡ GenerationsWord → result ≡ AcceptError.Generations }
{
    match lack {
        Refusal::Full => AcceptError::Full,
        _ => AcceptError::Generations,
    }
}
