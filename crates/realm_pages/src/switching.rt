//! Puts a generation on a file: gate 0 is shut, so that the file doesn't count; head, pages and the closed gate
//! of the first record are written behind it and synced; then gate 0 is opened. So what counts is the file as it
//! was or the whole generation, whatever a crash leaves, and the other file isn't touched.
ghost use Rattle.std.specs.Prelude.{◌≡◌, false, OnOk, OnErr, IfOk};
ghost use Rattle.outside_world.specs.Counts.{Rose};
ghost use Rattle.outside_world.specs.GoesOn.{GoesOn};
ghost use Rattle.realm_pages.specs.Generations.{gate_of};
ghost use Rattle.realm_pages.specs.Switching.{Switched, MayTake, KeepsNewest};

use crate::error::SwitchError;
use crate::prepared::PreparedPages;
use outside_world::{FileName, Outside};
use realm_journal::{append_block, shut_gate};

/// Puts the generation on this file, and answers the place of its first record's gate, which is closed. It
/// takes no memory.
pub fn switch_to<W: Outside>(
    world: &mut W,
    file: FileName,
    p: &PreparedPages,
) -> Result<u64, SwitchError>
    requires intact { W.failed world.old ≡ false }
    ensures place { IfOk result (λ gate. gate ≡ gate_of p.now) }
    ensures told { W.tells world.new
        → Switched (W.view world.old) (W.view world.new) file p.now result }

    // Where the file could be left only with an older generation, and not as the newest, the newest stays what
    // it could be, or is the generation that is put there.
    ensures newest { W.tells world.new → MayTake (W.view world.old) file p.now
        → KeepsNewest (W.view world.old) (W.view world.new) file p.now result }

    ensures disk_fault { OnErr result (Rose (W.disk_faults world.old) (W.disk_faults world.new)) }
    ensures intact { OnOk result (W.failed world.new ≡ false) }
    ensures goes_on { GoesOn ⟦<W as Outside>⟧ world.old world.new }
{
    shut_gate(world, file, 0)?;
    append_block(world, file, 0, p.block())
}
