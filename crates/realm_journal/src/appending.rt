//! Appends: a text is written behind a closed gate with a closed gate after it, and synced; then its gate is
//! opened, and synced. One write for all would not do: a crash could leave the gate open and the text torn.
ghost use Rattle.std.specs.Prelude.{◌≡◌, ◌<◌, ◌+◌, ◌^◌, false, length, OnOk, OnErr, IfOk};
ghost use Rattle.outside_world.specs.Counts.{Rose};
ghost use Rattle.outside_world.specs.GoesOn.{GoesOn};
ghost use Rattle.record_codec.specs.Spelling.{record_text};
ghost use Rattle.realm_journal.specs.Appending.{IsShut, Appended};

use crate::block::Block;
use crate::error::JournalError;
use crate::prepared::Prepared;
use outside_world::{FileName, Outside};

/// Appends a record behind the closed gate at this place of a file, and answers the place of the next gate,
/// which is closed. It takes no memory.
pub fn append<W: Outside>(
    world: &mut W,
    file: FileName,
    at: u64,
    p: &Prepared,
) -> Result<u64, JournalError>
    requires room { at < 2 ^ 61 }
    requires gate { W.tells world.old → IsShut (W.view world.old) file at }
    requires intact { W.failed world.old ≡ false }
    ensures place { IfOk result (λ next. next ≡ at + 1 + length (record_text p.now)) }
    ensures told { W.tells world.new
        → Appended (W.view world.old) (W.view world.new) file at (record_text p.now) result }
    ensures disk_fault { OnErr result (Rose (W.disk_faults world.old) (W.disk_faults world.new)) }
    ensures intact { OnOk result (W.failed world.new ≡ false) }
    ensures goes_on { GoesOn ⟦<W as Outside>⟧ world.old world.new }
{
    append_block(world, file, at, p.block())
}

/// Appends a text of any kind in the same way.
pub fn append_block<W: Outside>(
    world: &mut W,
    file: FileName,
    at: u64,
    block: &Block,
) -> Result<u64, JournalError>
    requires room { at < 2 ^ 61 }
    requires gate { W.tells world.old → IsShut (W.view world.old) file at }
    requires intact { W.failed world.old ≡ false }
    ensures place { IfOk result (λ next. next ≡ at + 1 + length block.now) }
    ensures told { W.tells world.new
        → Appended (W.view world.old) (W.view world.new) file at block.now result }
    ensures disk_fault { OnErr result (Rose (W.disk_faults world.old) (W.disk_faults world.new)) }
    ensures intact { OnOk result (W.failed world.new ≡ false) }
    ensures goes_on { GoesOn ⟦<W as Outside>⟧ world.old world.new }
{
    let whole = block.whole();
    world.write_at(file, at + 1, &whole[1..])?;
    world.sync(file)?;
    world.write_at(file, at, &whole[..1])?;
    world.sync(file)?;
    Ok(at + whole.len() as u64 - 1)
}
