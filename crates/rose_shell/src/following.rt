//! The word `follow`: each line of the input is a frame for the store, and is answered before the next one is. A line is kept
//! whole while it comes, whatever its length, and each of its bytes is copied once.
ghost use Rattle.std.specs.Prelude.{◌≡◌, ◌≢◌, ◌⊎◌, ◌≤◌, ◌<◌, None, false, [], ◌∷◌, ◌++◌, length, OnOk, IfErr};
ghost use Rattle.outside_world.specs.Counts.{Rose};
ghost use Rattle.outside_world.specs.GoesOn.{GoesOn};
ghost use Rattle.realm_insert.specs.State.{State};
ghost use Rattle.realm_store.specs.Stands.{StandsFor};
ghost use Rattle.realm_store.specs.Keeping.{AllRest};
ghost use Rattle.realm_store.specs.Damages.{IsDamaged};
ghost use Rattle.realm_pages.specs.declared.damage.Damage.{Damage};
ghost use Rattle.rose_shell.specs.Lines.{lines_from, part_from, last_line};
ghost use Rattle.rose_shell.specs.Faults.{HasCause, TellsFault};
ghost use Rattle.rose_shell.specs.OneByOne.{ServedAlone};
ghost use Rattle.rose_shell.specs.Progress.{Did, Halted, HasReason};
ghost use Rattle.rose_shell.specs.Following.{FollowTerms, HasFollowed};

use crate::feeding::line_end;
use crate::follower::answer_frame;
use crate::giving::give_all;
use crate::serving::next_bytes;
use crate::status::Status;
use outside_world::{Failed, Outside};
use realm_store::Store;
use std::alloc::Global;
use std::thread::Threads;

/// Reads what the files stand for, and answers each line of the input from there on, to the end of the input or the first
/// fault. What stands after the last line feed is a line too, where it isn't empty. The run ends where a take gives more though
/// `budget` bytes have come.
pub(crate) fn follow<R: Threads + Sync, W: Outside>(
    rt: &R,
    alloc: Global,
    world: &mut W,
    budget: u64,
) -> Status
    requires intact { W.failed world.old ≡ false }
    ensures never_usage { result ≢ Status.Usage }
    ensures faults { HasCause ⟦<W as Outside>⟧ world.old world.new result }
    ensures intact { ¬ (TellsFault result) → W.failed world.new ≡ false }
    ensures damaged { (d : Damage) → result ≡ Status.Damaged d → W.tells world.new
        → IsDamaged d (W.view world.old).reads }
    ensures told { W.tells world.new
        → HasFollowed (W.view world.old) (W.view world.new) budget result }
    ensures complete { W.tells world.new
        → ¬ (Rose (W.source_faults world.old) (W.source_faults world.new))
        → ¬ (Rose (W.sink_faults world.old) (W.sink_faults world.new))
        → ¬ (Rose (W.disk_faults world.old) (W.disk_faults world.new))
        → length (W.view world.old).left ≤ budget
        → (state : State) → StandsFor (W.view world.old).reads state
        → (result ≡ Status.Done) ⊎ (result ≡ Status.NoMemory) }
    ensures goes_on { GoesOn ⟦<W as Outside>⟧ world.old world.new }
{
    match Store::start(rt, alloc, world) {
        Ok(started) => {
            let mut store = started;
            // The session begins with a sound state.
            let _state = store.state();
            let mut chunk = [0u8; 65_536];
            answer_lines(rt, alloc, &mut store, world, budget, &mut chunk)
        }
        Err(error) => Status::from(error),
    }
}

// Answers each line of the input from this store on, with this room for the bytes of one take.
fn answer_lines<R: Threads + Sync, W: Outside>(
    rt: &R,
    alloc: Global,
    store: &mut Store,
    world: &mut W,
    budget: u64,
    chunk: &mut [u8],
) -> Status
    requires intact { W.failed world.old ≡ false }
    requires room { 0 < length chunk.old }
    requires ready { store.old.spent ≡ false }
    requires alone { store.old.group ≡ None }
    requires rest { W.tells world.old → AllRest store.old.kept (W.view world.old) }
    ensures told { W.tells world.new
        → ServedAlone FollowTerms (W.view world.old) (W.view world.new) store.old budget result }
    ensures reason { HasReason ⟦<W as Outside>⟧ world.old world.new result }
    ensures goes_on { GoesOn ⟦<W as Outside>⟧ world.old world.new }
{
    let mut line = Vec::new(alloc);
    let mut room = budget;
    loop {
        let n = match next_bytes(world, chunk, room) {
            Ok(n) => n,
            Err(Failed) => return Status::SourceFault,
        };
        if n == 0 {
            return match answer_last(rt, alloc, store, world, &line) {
                Ok(()) => Status::Done,
                Err(status) => status,
            };
        }
        if room == 0 {
            return Status::InputLimit;
        }
        room -= n as u64;
        if let Err(status) = answer_chunk(rt, alloc, store, world, &mut line, &chunk[..n]) {
            return status;
        }
    }
}

// Answers what has come of a line at the end of the input, where it isn't empty.
fn answer_last<R: Threads + Sync, W: Outside>(
    rt: &R,
    alloc: Global,
    store: &mut Store,
    world: &mut W,
    line: &[u8],
) -> Result<(), Status>
    requires intact { W.failed world.old ≡ false }
    requires ready { store.old.spent ≡ false }
    requires alone { store.old.group ≡ None }
    requires rest { W.tells world.old → AllRest store.old.kept (W.view world.old) }
    ensures did { OnOk result (W.tells world.new
        → Did FollowTerms (W.view world.old) (W.view world.new) store.old store.new (last_line line.now)) }
    ensures halted { IfErr result (λ status. W.tells world.new
        → Halted FollowTerms (W.view world.old) (W.view world.new) store.old (last_line line.now) status) }
    ensures reason { IfErr result (λ status. HasReason ⟦<W as Outside>⟧ world.old world.new status) }
    ensures intact { OnOk result (W.failed world.new ≡ false) }
    ensures goes_on { GoesOn ⟦<W as Outside>⟧ world.old world.new }
{
    if line.is_empty() {
        return Ok(());
    }
    answer_line(rt, alloc, store, world, line)
}

// Answers each line that ends in this chunk of the input, and keeps what has come of the next.
fn answer_chunk<R: Threads + Sync, W: Outside>(
    rt: &R,
    alloc: Global,
    store: &mut Store,
    world: &mut W,
    line: &mut Vec<u8>,
    chunk: &[u8],
) -> Result<(), Status>
    requires intact { W.failed world.old ≡ false }
    requires ready { store.old.spent ≡ false }
    requires alone { store.old.group ≡ None }
    requires rest { W.tells world.old → AllRest store.old.kept (W.view world.old) }
    ensures kept { OnOk result (line.new.items ≡ part_from line.old.items chunk.now) }
    ensures did { OnOk result (W.tells world.new
        → Did FollowTerms (W.view world.old) (W.view world.new) store.old store.new
        (lines_from line.old.items chunk.now)) }
    ensures halted { IfErr result (λ status. W.tells world.new
        → Halted FollowTerms (W.view world.old) (W.view world.new) store.old
        (lines_from line.old.items chunk.now) status) }
    ensures reason { IfErr result (λ status. HasReason ⟦<W as Outside>⟧ world.old world.new status) }
    ensures intact { OnOk result (W.failed world.new ≡ false) }
    ensures ready { OnOk result (store.new.spent ≡ false) }
    ensures alone { OnOk result (store.new.group ≡ None) }
    ensures goes_on { GoesOn ⟦<W as Outside>⟧ world.old world.new }
{
    let mut rest = chunk;
    while let Some(end) = line_end(rest) {
        keep(line, &rest[..end])?;
        answer_line(rt, alloc, store, world, line)?;
        line.clear();
        rest = &rest[end + 1..];
    }
    keep(line, rest)?;
    Ok(())
}

// Answers a whole line, and gives the reply.
fn answer_line<R: Threads + Sync, W: Outside>(
    rt: &R,
    alloc: Global,
    store: &mut Store,
    world: &mut W,
    line: &[u8],
) -> Result<(), Status>
    requires intact { W.failed world.old ≡ false }
    requires ready { store.old.spent ≡ false }
    requires alone { store.old.group ≡ None }
    requires rest { W.tells world.old → AllRest store.old.kept (W.view world.old) }
    ensures did { OnOk result (W.tells world.new
        → Did FollowTerms (W.view world.old) (W.view world.new) store.old store.new (line.now ∷ [])) }
    ensures halted { IfErr result (λ status. W.tells world.new
        → Halted FollowTerms (W.view world.old) (W.view world.new) store.old (line.now ∷ []) status) }
    ensures reason { IfErr result (λ status. HasReason ⟦<W as Outside>⟧ world.old world.new status) }
    ensures intact { OnOk result (W.failed world.new ≡ false) }
    ensures ready { OnOk result (store.new.spent ≡ false) }
    ensures alone { OnOk result (store.new.group ≡ None) }
    ensures goes_on { GoesOn ⟦<W as Outside>⟧ world.old world.new }
{
    let reply = answer_frame(rt, alloc, store, world, line)?;
    match give_all(world, reply.bytes()) {
        Ok(()) => Ok(()),
        Err(fault) => Err(Status::from(fault)),
    }
}

// Keeps these bytes of the line too.
fn keep(line: &mut Vec<u8>, bytes: &[u8]) -> Result<(), Status>
    ensures kept { OnOk result (line.new.items ≡ line.old.items ++ bytes.now) }
    ensures memory { IfErr result (λ status. status ≡ Status.NoMemory) }
{
    match line.extend_from_slice(bytes) {
        Ok(()) => Ok(()),
        Err(_) => Err(Status::NoMemory),
    }
}
