//! Writes to the files: the next generation to the file beside the newest, and what has to stand before a record is written.
//! That is a generation without a record, on file A where no file counts, and on the other file where the newest is of the
//! first version; or the byte of the next gate, where it is missing at the end of the newest file.
ghost use Rattle.std.specs.Prelude.{◌≡◌, IfOk, OnOk, OnErr, false};
ghost use Rattle.outside_world.specs.Counts.{Rose};
ghost use Rattle.outside_world.specs.GoesOn.{GoesOn};
ghost use Rattle.realm_insert.specs.State.{State};
ghost use Rattle.realm_pages.specs.Generations.{gate_of};
ghost use Rattle.realm_files.specs.Writing.{place_for};
ghost use Rattle.realm_store.specs.Stands.{meaning};
ghost use Rattle.realm_store.specs.Keeping.{Kept, AllRest, with_state};
ghost use Rattle.realm_store.specs.Making.{HasRoom};
ghost use Rattle.realm_store.specs.NextGates.{IsGateFor};
ghost use Rattle.realm_store.specs.Committing.{Readied, Renewed};
ghost use Rattle.realm_store.specs.Renewing.{IsNext, kept_renewed};

use crate::gates::NextGate;
use outside_world::{FileName, Outside};
use realm_journal::{JournalError, shut_gate};
use realm_pages::{PreparedPages, switch_to};

/// Puts the next generation on this file, and answers the place of its first record's gate. Its state may be another than the
/// files stand for before.
pub(crate) fn put_next<W: Outside>(
    world: &mut W,
    file: FileName,
    pages: &PreparedPages,
) -> Result<u64, JournalError>
    requires intact { W.failed world.old ≡ false }
    ensures told { W.tells world.new → (kept : Kept) → IsNext kept file pages.now
        → (before : State) → AllRest (with_state before kept) (W.view world.old)
        → Renewed (W.view world.old) (W.view world.new) (with_state before kept) (kept_renewed kept pages.now.payload) result }
    ensures place { IfOk result (λ next. next ≡ gate_of pages.now) }
    ensures intact { OnOk result (W.failed world.new ≡ false) }
    ensures disk_fault { OnErr result (Rose (W.disk_faults world.old) (W.disk_faults world.new)) }
    ensures goes_on { GoesOn ⟦<W as Outside>⟧ world.old world.new }
{
    switch_to(world, file, pages)
}

/// Sees to it that the next gate is there, closed: a generation is put before it, its byte is added, or nothing is to
/// be done.
pub(crate) fn ready_gate<W: Outside>(world: &mut W, gate: &NextGate) -> Result<(), JournalError>
    requires intact { W.failed world.old ≡ false }
    requires rest { (kept : Kept) × IsGateFor gate.now kept × HasRoom kept
        × (W.tells world.old → AllRest kept (W.view world.old)) }
    ensures told { W.tells world.new → (kept : Kept) → IsGateFor gate.now kept → AllRest kept (W.view world.old)
        → Readied (W.view world.old) (W.view world.new) kept (place_for meaning kept) result }
    ensures intact { OnOk result (W.failed world.new ≡ false) }
    ensures disk_fault { OnErr result (Rose (W.disk_faults world.old) (W.disk_faults world.new)) }
    ensures goes_on { GoesOn ⟦<W as Outside>⟧ world.old world.new }
{
    match gate {
        NextGate::Next { place, pages } => {
            put_next(world, place.file, pages)?;
            Ok(())
        }
        NextGate::Missing { place } => shut_gate(world, place.file, place.next),
        NextGate::Waiting { .. } => Ok(()),
        NextGate::Last { .. } => unreachable!(),
    }
}
