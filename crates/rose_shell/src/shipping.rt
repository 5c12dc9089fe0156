//! The word `ship`: gives the frames that a follower with so many changes lacks, and takes nothing.
ghost use Rattle.std.specs.Prelude.{◌≡◌, ◌≢◌, ◌⊎◌, All, IfOk, false};
ghost use Rattle.outside_world.specs.Counts.{Rose};
ghost use Rattle.outside_world.specs.GoesOn.{GoesOn};
ghost use Rattle.record_codec.specs.Fitting.{IsRecord};
ghost use Rattle.record_codec.specs.declared.snapshot.Snapshot.{Snapshot};
ghost use Rattle.realm_insert.specs.State.{State};
ghost use Rattle.realm_insert.specs.Snapshots.{state_of};
ghost use Rattle.realm_store.specs.Stands.{StandsFor};
ghost use Rattle.realm_store.specs.Damages.{IsDamaged};
ghost use Rattle.realm_store.specs.Keeping.{present};
ghost use Rattle.realm_pages.specs.declared.damage.Damage.{Damage};
ghost use Rattle.standby_core.specs.Frames.{HasText};
ghost use Rattle.standby_core.specs.Shipping.{AreSent};
ghost use Rattle.rose_shell.specs.Faults.{TellsFault};
ghost use Rattle.rose_shell.specs.Shipping.{HasShipped};

use crate::frames::give_frames;
use crate::status::Status;
use grid_base::NoMemory;
use outside_world::Outside;
use realm_store::{Journal, Started, Store};
use standby_core::{Frame, frames_for};
use std::alloc::Global;
use std::thread::Threads;

/// Reads what the files stand for, and gives the frames for a follower that has so many changes.
pub(crate) fn ship<R: Threads + Sync, W: Outside>(
    rt: &R,
    alloc: Global,
    world: &mut W,
    changes: u64,
) -> Status
    requires intact { W.failed world.old ≡ false }
    ensures never_usage { result ≢ Status.Usage }
    ensures never_source_fault { result ≢ Status.SourceFault }
    ensures intact { ¬ (TellsFault result) → W.failed world.new ≡ false }
    ensures sink_fault { result ≡ Status.SinkFault
        → Rose (W.sink_faults world.old) (W.sink_faults world.new) }
    ensures disk_fault { result ≡ Status.DiskFault
        → Rose (W.disk_faults world.old) (W.disk_faults world.new) }
    ensures damaged { (d : Damage) → result ≡ Status.Damaged d → W.tells world.new
        → IsDamaged d (W.view world.old).reads }
    ensures told { W.tells world.new
        → HasShipped changes (W.view world.old) (W.view world.new) result }
    ensures complete { W.tells world.new
        → ¬ (Rose (W.sink_faults world.old) (W.sink_faults world.new))
        → ¬ (Rose (W.disk_faults world.old) (W.disk_faults world.new))
        → (state : State) → StandsFor (W.view world.old).reads state
        → (result ≡ Status.Done) ⊎ (result ≡ Status.NoMemory) }
    ensures goes_on { GoesOn ⟦<W as Outside>⟧ world.old world.new }
{
    match Store::start_with_journal(rt, alloc, world) {
        Ok(started) => match lacking(alloc, started, changes) {
            Ok(frames) => give_frames(alloc, world, &frames),
            Err(NoMemory) => Status::NoMemory,
        },
        Err(error) => Status::from(error),
    }
}

// The frames of what was started that a follower with so many changes lacks. The store is let go of before.
fn lacking(alloc: Global, started: Started, changes: u64) -> Result<Vec<Frame>, NoMemory>
    requires ready { started.store.spent ≡ false }
    requires records { All IsRecord started.journal.records }
    ensures sent { IfOk result (λ frames. (now : Snapshot) × (state_of now ≡ present started.store)
        × AreSent started.journal.base.changes started.journal.records now changes frames.items) }
    ensures with_text { IfOk result (λ frames. All HasText frames.items) }
{
    let Started { store, journal } = started;
    let now = store.state().snapshot()?;
    drop(store);
    let Journal { base, records } = journal;
    let list = records.into_list(alloc)?;
    frames_for(alloc, base.changes, &list, &now, changes)
}
