//! Shuts a gate: where it is missing or open a closed one is written, and the file is synced in any case. A gate
//! that reads as closed isn't written again: until the sync the write could leave an open one, and what stands
//! behind it was never meant to count.
ghost use Rattle.std.specs.Prelude.{◌≡◌, ◌≤◌, ◌<◌, ◌^◌, false, length, OnOk, OnErr};
ghost use Rattle.outside_world.specs.Counts.{Rose};
ghost use Rattle.outside_world.specs.GoesOn.{GoesOn};
ghost use Rattle.realm_journal.specs.Shutting.{NeedsShutting, Shut};

use crate::error::JournalError;
use crate::{CLOSED, OPEN};
use outside_world::{FileName, Outside};

/// Shuts the gate at this place of a file, or puts a closed one at its end, where the file lacks it.
pub fn shut_gate<W: Outside>(world: &mut W, file: FileName, at: u64) -> Result<(), JournalError>
    requires room { at < 2 ^ 61 }
    requires within { W.tells world.old → at ≤ length ((W.view world.old).reads file) }
    requires intact { W.failed world.old ≡ false }
    ensures told { W.tells world.new → Shut (W.view world.old) (W.view world.new) file at result }
    ensures disk_fault { OnErr result (Rose (W.disk_faults world.old) (W.disk_faults world.new)) }
    ensures intact { OnOk result (W.failed world.new ≡ false) }
    ensures goes_on { GoesOn ⟦<W as Outside>⟧ world.old world.new }
{
    let mut gate = [CLOSED];
    let read = world.read_at(file, at, &mut gate)?;
    if read == 0 || gate[0] == OPEN {
        return write_closed(world, file, at);
    }
    world.sync(file)?;
    Ok(())
}

// Writes a closed gate where it is missing or open.
fn write_closed<W: Outside>(world: &mut W, file: FileName, at: u64) -> Result<(), JournalError>
    requires room { at < 2 ^ 61 }
    requires within { W.tells world.old → at ≤ length ((W.view world.old).reads file) }
    requires needed { W.tells world.old → NeedsShutting at ((W.view world.old).reads file) }
    requires intact { W.failed world.old ≡ false }
    ensures told { W.tells world.new → Shut (W.view world.old) (W.view world.new) file at result }
    ensures disk_fault { OnErr result (Rose (W.disk_faults world.old) (W.disk_faults world.new)) }
    ensures intact { OnOk result (W.failed world.new ≡ false) }
    ensures goes_on { GoesOn ⟦<W as Outside>⟧ world.old world.new }
{
    world.write_at(file, at, &[CLOSED])?;
    Ok(world.sync(file)?)
}
