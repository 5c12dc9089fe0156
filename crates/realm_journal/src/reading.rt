//! Reads a file from a place on to its end.
ghost use Rattle.std.specs.Prelude.{◌≡◌, false, IsErrOf};
ghost use Rattle.outside_world.specs.Counts.{Rose};
ghost use Rattle.outside_world.specs.GoesOn.{GoesOn};
ghost use Rattle.realm_journal.specs.Reading.{ReadFrom};

use crate::error::ScanError;
use outside_world::{FileName, Outside};
use std::alloc::Global;

/// All bytes of a file from a place on, in one piece.
pub fn read_from<W: Outside>(
    alloc: Global,
    world: &mut W,
    file: FileName,
    at: u64,
) -> Result<Vec<u8>, ScanError>
    requires intact { W.failed world.old ≡ false }
    ensures told { W.tells world.new → ReadFrom (W.view world.old) (W.view world.new) file at result }
    ensures disk_fault { IsErrOf result ScanError.Disk
        → Rose (W.disk_faults world.old) (W.disk_faults world.new) }
    ensures intact { ¬ (IsErrOf result ScanError.Disk) → W.failed world.new ≡ false }
    ensures goes_on { GoesOn ⟦<W as Outside>⟧ world.old world.new }
{
    let size = world.size(file)?;
    let mut bytes = Vec::new(alloc);
    if at >= size {
        return Ok(bytes);
    }
    bytes.resize((size - at) as usize, 0)?;
    let read = world.read_at(file, at, &mut bytes)?;
    bytes.truncate(read);
    Ok(bytes)
}
