//! The word `audit`: takes the input to its end, and gives the verdict on it as a certificate.
ghost use Rattle.std.specs.Prelude.{◌≡◌, ◌≢◌, ◌⊎◌, ◌≤◌, ◌<◌, length, false, IfErr, OnOk};
ghost use Rattle.outside_world.specs.Counts.{Rose};
ghost use Rattle.outside_world.specs.GoesOn.{GoesOn};
ghost use Rattle.realm_pages.specs.declared.damage.Damage.{Damage};
ghost use Rattle.rose_shell.specs.Faults.{HasCause, IsCaused, TellsFault};
ghost use Rattle.rose_shell.specs.Auditing.{HasAudited};
ghost use Rattle.rose_shell.specs.Certificates.{HasReadInput};

use crate::certificate::Certificate;
use crate::fault::Fault;
use crate::serving::next_bytes;
use crate::status::Status;
use crate::telling::give_lines;
use grid_base::Reply;
use outside_world::{Failed, Outside};
use std::alloc::Global;

/// Takes the input to its end, also behind a line that fails, and then gives the line of the verdict on its lines. No file is
/// touched.
pub(crate) fn audit_input<W: Outside>(alloc: Global, world: &mut W, budget: u64) -> Status
    requires intact { W.failed world.old ≡ false }
    ensures never_usage { result ≢ Status.Usage }
    ensures never_damaged { (d : Damage) → result ≢ Status.Damaged d }
    ensures faults { HasCause ⟦<W as Outside>⟧ world.old world.new result }
    ensures intact { ¬ (TellsFault result) → W.failed world.new ≡ false }
    ensures told { W.tells world.new → HasAudited (W.view world.old) (W.view world.new) budget result }
    ensures no_file { W.disk_faults world.new ≡ W.disk_faults world.old }
    ensures complete { W.tells world.new
        → ¬ (Rose (W.source_faults world.old) (W.source_faults world.new))
        → ¬ (Rose (W.sink_faults world.old) (W.sink_faults world.new))
        → length (W.view world.old).left ≤ budget
        → (result ≡ Status.Done) ⊎ (result ≡ Status.NoMemory) }
    ensures goes_on { GoesOn ⟦<W as Outside>⟧ world.old world.new }
{
    let mut chunk = [0u8; 65_536];
    match read_input(alloc, world, budget, &mut chunk) {
        Ok(Some(reply)) => give_lines(world, &reply),
        Ok(None) => Status::InputLimit,
        Err(fault) => Status::from(fault),
    }
}

// Takes the input to its end, with this room for the bytes of one take, and makes the reply to it. There is none where a take
// gives more though `budget` bytes have come.
fn read_input<W: Outside>(
    alloc: Global,
    world: &mut W,
    budget: u64,
    chunk: &mut [u8],
) -> Result<Option<Reply>, Fault>
    requires intact { W.failed world.old ≡ false }
    requires room { 0 < length chunk.old }
    ensures told { W.tells world.new
        → HasReadInput (W.view world.old) (W.view world.new) budget result }
    ensures ends { IfErr result (λ fault. (fault ≡ Fault.Source) ⊎ (fault ≡ Fault.NoMemory)) }
    ensures intact { OnOk result (W.failed world.new ≡ false) }
    ensures caused { IfErr result (λ fault. IsCaused ⟦<W as Outside>⟧ world.old world.new fault) }
    ensures no_file { W.disk_faults world.new ≡ W.disk_faults world.old }
    ensures goes_on { GoesOn ⟦<W as Outside>⟧ world.old world.new }
{
    let mut certificate = Certificate::new(alloc);
    let mut room = budget;
    loop {
        let n = match next_bytes(world, chunk, room) {
            Ok(n) => n,
            Err(Failed) => return Err(Fault::Source),
        };
        if n == 0 {
            let reply = certificate.reply(alloc)?;
            return Ok(Some(reply));
        }
        if room == 0 {
            return Ok(None);
        }
        room -= n as u64;
        certificate.hear(&chunk[..n])?;
    }
}
