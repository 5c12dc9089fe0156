//! Makes the files last as they are.
ghost use Rattle.std.specs.Prelude.{◌≡◌, false, OnOk, OnErr};
ghost use Rattle.outside_world.specs.Counts.{Rose};
ghost use Rattle.outside_world.specs.GoesOn.{GoesOn};
ghost use Rattle.realm_files.specs.Syncing.{Synced};

use outside_world::{Failed, FileName, Outside};

/// Syncs file A and then file B, so that a crash leaves both as they are read.
pub fn sync_both<W: Outside>(world: &mut W) -> Result<(), Failed>
    requires intact { W.failed world.old ≡ false }
    ensures told { W.tells world.new → Synced (W.view world.old) (W.view world.new) result }
    ensures disk_fault { OnErr result (Rose (W.disk_faults world.old) (W.disk_faults world.new)) }
    ensures intact { OnOk result (W.failed world.new ≡ false) }
    ensures goes_on { GoesOn ⟦<W as Outside>⟧ world.old world.new }
{
    world.sync(FileName::A)?;
    world.sync(FileName::B)
}
