//! Finds the newest generation of two files. Only the heads of both are read, and the pages of the newest. Its
//! payload is read into a state here, and nowhere again.
ghost use Rattle.std.specs.Prelude.{◌≡◌, false, IsErrOf};
ghost use Rattle.outside_world.specs.Counts.{Rose};
ghost use Rattle.outside_world.specs.GoesOn.{GoesOn};
ghost use Rattle.realm_pages.specs.Finding.{FoundNewest};

use crate::damage::Damage;
use crate::error::PagesError;
use crate::found::Found;
use crate::heads::choose;
use crate::pages::read_pages;
use outside_world::Outside;
use record_codec::decode_snapshot;
use std::alloc::Global;

/// The newest file, its generation and the state of its payload; none where neither file counts. Whether the
/// state is a valid one isn't looked at.
pub fn newest<W: Outside>(alloc: Global, world: &mut W) -> Result<Option<Found>, PagesError>
    requires intact { W.failed world.old ≡ false }
    ensures told { W.tells world.new → FoundNewest (W.view world.old) (W.view world.new) result }
    ensures disk_fault { IsErrOf result PagesError.Disk
        → Rose (W.disk_faults world.old) (W.disk_faults world.new) }
    ensures intact { ¬ (IsErrOf result PagesError.Disk) → W.failed world.new ≡ false }
    ensures goes_on { GoesOn ⟦<W as Outside>⟧ world.old world.new }
{
    match choose(world)? {
        None => Ok(None),
        Some((file, head)) => {
            let payload = read_pages(alloc, world, file, &head)?;
            match decode_snapshot(alloc, &payload)? {
                None => Err(PagesError::Damaged(Damage::BadSnapshot { file })),
                Some(snapshot) => Ok(Some(Found {
                    file,
                    version: head.version,
                    generation: head.generation,
                    snapshot,
                    end: 4096 * (head.pages + 1),
                })),
            }
        }
    }
}
