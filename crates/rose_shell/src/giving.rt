//! Gives bytes whole.
ghost use Rattle.std.specs.Prelude.{◌≡◌, IfErr, false, OnOk};
ghost use Rattle.outside_world.specs.GoesOn.{GoesOn};
ghost use Rattle.rose_shell.specs.Faults.{IsCaused};
ghost use Rattle.rose_shell.specs.Giving.{GaveAll};

use crate::fault::Fault;
use outside_world::{Failed, Outside};

/// Gives all the bytes, in as many calls as it takes, or as many as the sink took before it failed.
pub(crate) fn give_all<W: Outside>(world: &mut W, bytes: &[u8]) -> Result<(), Fault>
    requires intact { W.failed world.old ≡ false }
    ensures sink { IfErr result (λ fault. fault ≡ Fault.Sink) }
    ensures intact { OnOk result (W.failed world.new ≡ false) }
    ensures caused { IfErr result (λ fault. IsCaused ⟦<W as Outside>⟧ world.old world.new fault) }
    ensures no_file { W.disk_faults world.new ≡ W.disk_faults world.old }
    ensures told { W.tells world.new
        → GaveAll (W.view world.old) (W.view world.new) bytes.now result }
    ensures goes_on { GoesOn ⟦<W as Outside>⟧ world.old world.new }
{
    let mut rest = bytes;
    while !rest.is_empty() {
        match world.give(rest) {
            Ok(given) => rest = &rest[given..],
            Err(Failed) => return Err(Fault::Sink),
        }
    }
    Ok(())
}
