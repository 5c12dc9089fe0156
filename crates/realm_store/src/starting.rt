//! The start of a store: both files are synced, and then read. It keeps what they stand for, and with it their journal
//! where that is asked for.
ghost use Rattle.std.specs.Prelude.{◌≡◌, All, None, false, IfOk, IsErrOf};
ghost use Rattle.outside_world.specs.Counts.{Rose};
ghost use Rattle.outside_world.specs.GoesOn.{GoesOn};
ghost use Rattle.record_codec.specs.Fitting.{IsRecord};
ghost use Rattle.realm_insert.specs.Snapshots.{IsValidState, state_of};
ghost use Rattle.realm_files.specs.Rows.{LeadOn};
ghost use Rattle.realm_store.specs.Stands.{meaning};
ghost use Rattle.realm_store.specs.Keeping.{AllRest};
ghost use Rattle.realm_store.specs.Starting.{Started as HasStarted};
ghost use Rattle.realm_store.specs.Journals.{HasJournal, without_journal};

use crate::opening::{Opened, open_base, open_behind};
use crate::store::Store;
use outside_world::Outside;
use realm_journal::Records;
use realm_pages::PagesError as StartError;
use record_codec::Snapshot;
use std::alloc::Global;
use std::thread::Threads;

/// What the newest file keeps: the state of its payload, and all records behind that, in order, which are read from the
/// file's bytes as they are handed out. Where no file counts, it is the empty state and no record.
#[derive(Drop)]
pub struct Journal {
    pub base: Snapshot,
    pub records: Records,
}

/// A store that was started, and the journal of its files.
#[derive(Drop)]
pub struct Started {
    pub store: Store,
    pub journal: Journal,
}

impl Store {
    /// Syncs both files and reads what they stand for. Nothing is written.
    pub fn start<R: Threads + Sync, W: Outside>(
        rt: &R,
        alloc: Global,
        world: &mut W,
    ) -> Result<Store, StartError>
        requires intact { W.failed world.old ≡ false }
        ensures ready { IfOk result (λ store. store.spent ≡ false) }
        ensures no_group { IfOk result (λ store. store.group ≡ None) }
        ensures told { W.tells world.new → HasStarted (W.view world.old) (W.view world.new) result }
        ensures rest { IfOk result (λ store. W.tells world.new → AllRest store.kept (W.view world.new)) }
        ensures intact { ¬ (IsErrOf result StartError.Disk) → W.failed world.new ≡ false }
        ensures disk_fault { IsErrOf result StartError.Disk
            → Rose (W.disk_faults world.old) (W.disk_faults world.new) }
        ensures goes_on { GoesOn ⟦<W as Outside>⟧ world.old world.new }
    {
        let base = open_base(alloc, world)?;
        let opened = open_behind(rt, alloc, world, base)?;
        let Opened {
            store,
            records: _records,
        } = opened;
        Ok(store)
    }

    /// Starts as `start` does, and keeps the journal of the newest file. This takes the memory of one state more, and keeps
    /// the bytes of the records.
    pub fn start_with_journal<R: Threads + Sync, W: Outside>(
        rt: &R,
        alloc: Global,
        world: &mut W,
    ) -> Result<Started, StartError>
        requires intact { W.failed world.old ≡ false }
        ensures ready { IfOk result (λ started. started.store.spent ≡ false) }
        ensures no_group { IfOk result (λ started. started.store.group ≡ None) }
        ensures told { W.tells world.new
            → HasStarted (W.view world.old) (W.view world.new) (without_journal result) }
        ensures rest { IfOk result (λ started. W.tells world.new
            → AllRest started.store.kept (W.view world.new)) }
        ensures journal { IfOk result (λ started. W.tells world.new → HasJournal (W.view world.old).reads
            started.store.kept started.journal.base started.journal.records) }
        ensures with_text { IfOk result (λ started. All IsRecord started.journal.records) }
        ensures valid { IfOk result (λ started. IsValidState (state_of started.journal.base)) }
        ensures leads { IfOk result (λ started. LeadOn meaning (state_of started.journal.base)
            started.journal.records started.store.kept.state) }
        ensures intact { ¬ (IsErrOf result StartError.Disk) → W.failed world.new ≡ false }
        ensures disk_fault { IsErrOf result StartError.Disk
            → Rose (W.disk_faults world.old) (W.disk_faults world.new) }
        ensures goes_on { GoesOn ⟦<W as Outside>⟧ world.old world.new }
    {
        let base = open_base(alloc, world)?;
        let snapshot = base.engine.snapshot()?;
        let opened = open_behind(rt, alloc, world, base)?;
        let Opened { store, records } = opened;
        let journal = Journal {
            base: snapshot,
            records,
        };
        Ok(Started { store, journal })
    }
}
