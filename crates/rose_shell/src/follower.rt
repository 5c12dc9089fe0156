//! What a follower answers a line. A frame that comes next is taken over, and is stable before its reply is there to be given.
ghost use Rattle.std.specs.Prelude.{◌≡◌, ◌≢◌, ◌⊎◌, ◌<◌, ◌^◌, ◌++◌, ◌∷◌, ℕ, List, [], codes, None, Err, false};
ghost use Rattle.std.specs.Prelude.{IfOk, IfErr, OnOk, IsErrOf, MatchResult};
ghost use Rattle.std.specs.Fmt.{decimal};
ghost use Rattle.outside_world.specs.GoesOn.{GoesOn};
ghost use Rattle.record_codec.specs.Fitting.{IsRecord};
ghost use Rattle.record_codec.specs.declared.record.Record.{Record as Seen};
ghost use Rattle.standby_core.specs.declared.frame.Frame.TheVariants.{Rec, Snap};
ghost use Rattle.standby_core.specs.Frames.{IsLineOf};
ghost use Rattle.standby_core.specs.Shipping.{last_number};
ghost use Rattle.pair_law.specs.Following.{IsTaken, IsMisfit};
ghost use Rattle.realm_pages.specs.declared.damage.Damage.{Damage};
ghost use Rattle.realm_store.specs.Keeping.{SpendableKept, AllRest};
ghost use Rattle.rose_shell.specs.Faults.{HasCause};
ghost use Rattle.rose_shell.specs.Following.{FollowTerms, AnsweredBy};
ghost use Rattle.rose_shell.specs.AtFollower.{AtFollower, IsLeftAs};

use crate::status::Status;
use grid_base::{NoMemory, Reply};
use outside_world::Outside;
use realm_store::{AcceptError, AdoptError, Store};
use record_codec::{Record, Snapshot};
use standby_core::{Frame, read_frame};
use std::alloc::Global;
use std::thread::Threads;

/// Answers a line, which comes without its line feed. The reply isn't given yet. A record that leads nowhere leaves the files
/// as they were, and the store is started on them again.
pub(crate) fn answer_frame<R: Threads + Sync, W: Outside>(
    rt: &R,
    alloc: Global,
    store: &mut Store,
    world: &mut W,
    line: &[u8],
) -> Result<Reply, Status>
    requires intact { W.failed world.old ≡ false }
    requires ready { store.old.spent ≡ false }
    requires alone { store.old.group ≡ None }
    requires rest { W.tells world.old → AllRest store.old.kept (W.view world.old) }
    ensures ready { OnOk result (store.new.spent ≡ false) }
    ensures alone { OnOk result (store.new.group ≡ None) }
    ensures answer { W.tells world.new
        → IfOk result (λ reply. FollowTerms.answers store.old line.now reply store.new) }
    ensures ends { IfErr result (λ status. (status ≡ Status.DiskFault)
        ⊎ ((status ≡ Status.NoMemory) ⊎ ((d : Damage) × (status ≡ Status.Damaged d)))) }
    ensures faults { IfErr result (λ status. HasCause ⟦<W as Outside>⟧ world.old world.new status) }
    ensures intact { ¬ (IsErrOf result Status.DiskFault) → W.failed world.new ≡ false }
    ensures told { W.tells world.new
        → AnsweredBy FollowTerms (W.view world.old) (W.view world.new) store.old store.new line.now result }
    ensures goes_on { GoesOn ⟦<W as Outside>⟧ world.old world.new }
{
    // The state is sound, and stays so where the line changes nothing.
    let _state = store.state();
    treat_line(rt, alloc, store, world, line)
}

// Takes over the frame of the line, if it is one.
fn treat_line<R: Threads + Sync, W: Outside>(
    rt: &R,
    alloc: Global,
    store: &mut Store,
    world: &mut W,
    line: &[u8],
) -> Result<Reply, Status>
    requires left { IsLeftAs ⟦<W as Outside>⟧ world.old store.old }
    ensures at_follower { AtFollower ⟦<W as Outside>⟧ world.old world.new store.old store.new line.now result }
    ensures goes_on { GoesOn ⟦<W as Outside>⟧ world.old world.new }
{
    match read_frame(alloc, line) {
        Ok(Some(Frame::Rec(r))) => answer_record(rt, alloc, store, world, &r),
        Ok(Some(Frame::Snap(s))) => answer_state(alloc, store, world, s),
        Ok(None) => told(say(alloc, b"no frame\n")),
        Err(NoMemory) => Err(Status::NoMemory),
    }
}

// Accepts the record of a frame. The acknowledgement is made before, so that no memory is wanted once it is written.
fn answer_record<R: Threads + Sync, W: Outside>(
    rt: &R,
    alloc: Global,
    store: &mut Store,
    world: &mut W,
    r: &Record,
) -> Result<Reply, Status>
    requires left { IsLeftAs ⟦<W as Outside>⟧ world.old store.old }
    requires is_record { IsRecord r.now }
    ensures at_follower { (line : List ℕ) → IsLineOf (Rec r.now) line
        → AtFollower ⟦<W as Outside>⟧ world.old world.new store.old store.new line result }
    ensures goes_on { GoesOn ⟦<W as Outside>⟧ world.old world.new }
{
    let reply = acknowledge(alloc, last_change(r))?;
    match store.accept(rt, world, r) {
        Ok(()) => Ok(reply),
        Err(AcceptError::Gap { have }) => told(acknowledge(alloc, have)),
        Err(AcceptError::Full) => told(say(alloc, b"no full\n")),
        Err(AcceptError::Generations) => told(say(alloc, b"no generations\n")),
        Err(AcceptError::NotOf { .. }) => start_again(rt, alloc, store, world),
        Err(AcceptError::Disk) => Err(Status::DiskFault),
        Err(AcceptError::NoMemory) => Err(Status::NoMemory),
    }
}

// Adopts the state of a frame. The acknowledgement is made before, so that no memory is wanted once it is written.
fn answer_state<W: Outside>(
    alloc: Global,
    store: &mut Store,
    world: &mut W,
    s: Snapshot,
) -> Result<Reply, Status>
    requires left { IsLeftAs ⟦<W as Outside>⟧ world.old store.old }
    ensures at_follower { (line : List ℕ) → IsLineOf (Snap s) line
        → AtFollower ⟦<W as Outside>⟧ world.old world.new store.old store.new line result }
    ensures goes_on { GoesOn ⟦<W as Outside>⟧ world.old world.new }
{
    let reply = acknowledge(alloc, s.changes)?;
    match store.adopt(world, s) {
        Ok(()) => Ok(reply),
        Err(AdoptError::Invalid) => told(say(alloc, b"no frame\n")),
        Err(AdoptError::Older { have }) => told(acknowledge(alloc, have)),
        Err(AdoptError::Generations) => told(say(alloc, b"no generations\n")),
        Err(AdoptError::Disk) => Err(Status::DiskFault),
        Err(AdoptError::NoMemory) => Err(Status::NoMemory),
    }
}

// Starts the store on its files again, which are as they were before a record that leads nowhere, and says so.
fn start_again<R: Threads + Sync, W: Outside>(
    rt: &R,
    alloc: Global,
    store: &mut Store,
    world: &mut W,
) -> Result<Reply, Status>
    requires intact { W.failed world.old ≡ false }
    ensures at_follower { (before : SpendableKept) (line : List ℕ) (r : Seen)
        → IsLeftAs ⟦<W as Outside>⟧ world.old before → IsLineOf (Rec r) line
        → IsTaken before.kept (Rec r) → IsMisfit before.kept (Rec r)
        → AtFollower ⟦<W as Outside>⟧ world.old world.new before store.new line result }
    ensures goes_on { GoesOn ⟦<W as Outside>⟧ world.old world.new }
{
    let reply = say(alloc, b"no record\n")?;
    match Store::start(rt, alloc, world) {
        Ok(started) => {
            let _state = started.state();
            *store = started;
            Ok(reply)
        }
        Err(error) => Err(Status::from(error)),
    }
}

// The number of the record's last change, or the greatest of 64 bits where it doesn't fit.
fn last_change(r: &Record) -> u64
    ensures { last_number r.now < 2 ^ 64 → result ≡ last_number r.now }
{
    let more = r.entries.entries().len().saturating_sub(1) as u64;
    r.number.saturating_add(more)
}

// The reply, or that there is no memory for it.
fn told(done: Result<Reply, NoMemory>) -> Result<Reply, Status>
    ensures { MatchResult done (λ reply. result ≡ Ok reply) (λ _. result ≡ Err Status.NoMemory) }
{
    Ok(done?)
}

// The reply where so many changes are there.
fn acknowledge(alloc: Global, changes: u64) -> Result<Reply, NoMemory>
    ensures { IfOk result (λ reply. reply ≡ codes "ack " ++ (decimal changes ++ 10 ∷ [])) }
{
    let text = format!(in alloc; "ack {changes}\n")?;
    Ok(Reply::new(text.into_bytes()))
}

// The reply with this text.
fn say(alloc: Global, text: &[u8]) -> Result<Reply, NoMemory>
    ensures { IfOk result (λ reply. reply ≡ text.now) }
{
    Ok(Reply::new(Vec::from_slice(alloc, text)?))
}
