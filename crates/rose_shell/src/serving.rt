//! The serving loop: it reads lines to the end of the input, and answers each before it reads on.
ghost use Rattle.std.specs.Prelude.{◌≡◌, ◌≢◌, ◌⊎◌, ◌≤◌, ◌<◌, length, max, Err, IfOk, IfErr, OnErr, IsErrOf, false, OnOk};
ghost use Rattle.outside_world.specs.Calls.{Took};
ghost use Rattle.outside_world.specs.Counts.{Rose};
ghost use Rattle.outside_world.specs.GoesOn.{GoesOn};
ghost use Rattle.rose_shell.specs.Desk.{AllRestBy};
ghost use Rattle.rose_shell.specs.Session.{Served};
ghost use Rattle.rose_shell.specs.Faults.{IsCaused, status_at};

use crate::desk::Desk;
use crate::fault::Fault;
use crate::feeding::feed;
use crate::hearing::answer_end;
use crate::input::Input;
use crate::means::Means;
use crate::status::Status;
use outside_world::{Failed, Outside};
use query_batch::Gate;
use std::thread::Threads;

/// Reads lines to the end of the input, and answers each, with this room for the bytes of one take. What stands
/// after the last line feed is a line too, where it isn't empty. The lines of a batch are answered once all have come,
/// or the input has ended. The run ends at the first fault, at want of memory, and where a take gives more though
/// `budget` bytes have come.
pub(crate) fn answer_input<R: Threads + Sync, G: Gate, W: Outside, D: Desk<W>>(
    means: &Means<R, G>,
    desk: &mut D,
    world: &mut W,
    budget: u64,
    chunk: &mut [u8],
) -> Result<Status, Fault>
    requires intact { W.failed world.old ≡ false }
    requires room { 0 < length chunk.old }
    requires ready { D.ready desk.old }
    requires rest { W.tells world.old → AllRestBy D.terms (W.view world.old) desk.old }
    ensures ends { IfOk result (λ status. (status ≡ Status.Done) ⊎ (status ≡ Status.InputLimit)) }
    ensures told { W.tells world.new → Served D.terms (W.view world.old) (W.view world.new)
        desk.old desk.new budget (status_at result) }
    ensures intact { OnOk result (W.failed world.new ≡ false) }
    ensures caused { IfErr result (λ fault. IsCaused ⟦<W as Outside>⟧ world.old world.new fault) }
    ensures ready { result ≢ Err Fault.NoMemory → result ≢ Err Fault.Disk → D.ready desk.new }
    ensures spent { IsErrOf result Fault.Disk → ¬ (D.ready desk.new) }
    ensures goes_on { GoesOn ⟦<W as Outside>⟧ world.old world.new }
{
    let mut input = Input::new(means.alloc);
    let mut room = budget;
    loop {
        let n = match next_bytes(world, chunk, room) {
            Ok(n) => n,
            Err(Failed) => return Err(Fault::Source),
        };
        if n == 0 {
            answer_end(means, desk, world, &mut input)?;
            return Ok(Status::Done);
        }
        if room == 0 {
            return Ok(Status::InputLimit);
        }
        room -= n as u64;
        feed(means, desk, world, &mut input, &chunk[..n])?;
    }
}

/// The next bytes of the input: at most so many, and one where the budget is spent, to see whether there
/// is more.
pub(crate) fn next_bytes<W: Outside>(
    world: &mut W,
    chunk: &mut [u8],
    room: u64,
) -> Result<usize, Failed>
    requires intact { W.failed world.old ≡ false }
    requires room { 0 < length chunk.old }
    ensures within { IfOk result (λ n. n ≤ length chunk.new) }
    ensures room { IfOk result (λ n. n ≤ max room 1) }
    ensures intact { OnOk result (W.failed world.new ≡ false) }
    ensures source_fault { OnErr result
        (Rose (W.source_faults world.old) (W.source_faults world.new)) }
    ensures no_file { W.disk_faults world.new ≡ W.disk_faults world.old }
    ensures goes_on { GoesOn ⟦<W as Outside>⟧ world.old world.new }
    ensures told { W.tells world.new
        → Took (W.view world.old) (W.view world.new) chunk.new result }
{
    let size = room.max(1).min(chunk.len() as u64) as usize;
    world.take(&mut chunk[..size])
}
