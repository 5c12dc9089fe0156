//! The store at the desk that the loop serves: what it answers a line. A change is stable in its file before its
//! reply is there to be given, and one in a group with the whole group, before the reply to its commit is. Want of
//! memory within a change or a commit, and a disk fault, leave the store spent.
ghost use Rattle.std.specs.Prelude.{◌≡◌, ◌≤◌, ℕ, List, Err, IfOk, MatchResult, false, length};
ghost use Rattle.outside_world.specs.GoesOn.{GoesOn};
ghost use Rattle.line_grammar.specs.Lines.{Says};
ghost use Rattle.line_grammar.specs.declared.command.Command.TheVariants as commands;
ghost use Rattle.realm_store.specs.Keeping.{AllRest};
ghost use Rattle.rose_shell.specs.Lines.{longest_line};
ghost use Rattle.rose_shell.specs.Batches.{OpensNone};
ghost use Rattle.rose_shell.specs.Loop.{ToldOfChange, ToldOfCheckpoint};
ghost use Rattle.rose_shell.specs.AtDesk.{AtDesk};
ghost use Rattle.rose_shell.specs.Replies.{checkpoint_reply};
ghost use Rattle.rose_shell.specs.Running.{StoreTerms};

use crate::desk::Desk;
use crate::fault::Fault;
use crate::grouping::{answer_abandon, answer_begin, answer_commit, refuse_in_group};
use crate::means::Means;
use grid_base::{NoMemory, Reply};
use line_grammar::{Change, Command, LineError, read_line};
use outside_world::Outside;
use query_batch::{Gate, refuse_text};
use realm_insert::{Engine, Refusal};
use realm_store::{CheckpointError, CommitError, Store};
use rose_query::{answer, refuse};
use std::alloc::Global;
use std::thread::Threads;

impl<W: Outside> Desk<W> for Store {
    ghost ready = { λ s. s.spent ≡ false };

    ghost terms = { StoreTerms };

    fn answer<R: Threads + Sync, G: Gate>(
        &mut self,
        means: &Means<R, G>,
        world: &mut W,
        line: &[u8],
    ) -> Result<Reply, Fault> {
        match read_line(means.alloc, line) {
            Ok(command) => answer_command(means.rt, means.alloc, self, world, line, &command),
            Err(LineError::Bad { at }) => told(refuse_text(means.alloc, at)),
            Err(LineError::NoMemory) => Err(Fault::NoMemory),
        }
    }

    fn engine(&self) -> &Engine {
        self.state()
    }
}

// Answers the command of this line.
fn answer_command<R: Threads + Sync, W: Outside>(
    rt: &R,
    alloc: Global,
    store: &mut Store,
    world: &mut W,
    line: &[u8],
    command: &Command,
) -> Result<Reply, Fault>
    requires intact { W.failed world.old ≡ false }
    requires ready { store.old.spent ≡ false }
    requires short { length line.now ≤ longest_line }
    requires opens_none { OpensNone line.now }
    requires says { Says line.now command.now }
    requires rest { W.tells world.old → AllRest store.old.kept (W.view world.old) }
    ensures at_desk { AtDesk ⟦<W as Outside>⟧ world.old world.new store.old store.new line.now result }
    ensures goes_on { GoesOn ⟦<W as Outside>⟧ world.old world.new }
{
    match command {
        Command::Change(change) => answer_change(rt, alloc, store, world, line, change),
        Command::Query(query) => told(answer(rt, alloc, store.state(), query)),
        Command::Batch(_) => told(refuse(alloc, Refusal::Range)),
        Command::Checkpoint => answer_checkpoint(alloc, store, world),
        Command::Begin => answer_begin(alloc, store),
        Command::Commit => answer_commit(alloc, store, world),
        Command::Abandon => answer_abandon(alloc, store),
    }
}

// Makes the change of this line, or joins it to the open group.
fn answer_change<R: Threads + Sync, W: Outside>(
    rt: &R,
    alloc: Global,
    store: &mut Store,
    world: &mut W,
    line: &[u8],
    change: &Change,
) -> Result<Reply, Fault>
    requires intact { W.failed world.old ≡ false }
    requires ready { store.old.spent ≡ false }
    requires short { length line.now ≤ longest_line }
    requires says { Says line.now (commands.Change change.now) }
    requires rest { W.tells world.old → AllRest store.old.kept (W.view world.old) }
    ensures at_desk { AtDesk ⟦<W as Outside>⟧ world.old world.new store.old store.new line.now result }
    ensures goes_on { GoesOn ⟦<W as Outside>⟧ world.old world.new }
{
    let done = store.commit_line(rt, world, change, line);
    told_of_change(alloc, done)
}

// Makes a checkpoint where no group is open. That one is open comes before every other cause.
fn answer_checkpoint<W: Outside>(
    alloc: Global,
    store: &mut Store,
    world: &mut W,
) -> Result<Reply, Fault>
    requires intact { W.failed world.old ≡ false }
    requires ready { store.old.spent ≡ false }
    requires rest { W.tells world.old → AllRest store.old.kept (W.view world.old) }
    ensures at_desk { (line : List ℕ) → Says line commands.Checkpoint
        → AtDesk ⟦<W as Outside>⟧ world.old world.new store.old store.new line result }
    ensures goes_on { GoesOn ⟦<W as Outside>⟧ world.old world.new }
{
    if store.in_group() {
        return told(refuse_in_group(alloc));
    }
    let reply = accept_checkpoint(alloc)?;
    told_of_checkpoint(alloc, reply, store.checkpoint(world))
}

// The reply, or that there is no memory for it.
fn told(done: Result<Reply, NoMemory>) -> Result<Reply, Fault>
    ensures { MatchResult done (λ reply. result ≡ Ok reply) (λ _. result ≡ Err Fault.NoMemory) }
{
    Ok(done?)
}

// What is said of a change that the store has made, or not.
fn told_of_change(alloc: Global, done: Result<Reply, CommitError>) -> Result<Reply, Fault>
    ensures { ToldOfChange done result }
{
    match done {
        Ok(reply) => Ok(reply),
        Err(CommitError::Refused(refusal)) => Ok(refuse(alloc, refusal)?),
        Err(CommitError::Disk) => Err(Fault::Disk),
        Err(CommitError::NoMemory) => Err(Fault::NoMemory),
    }
}

// What is said of a checkpoint that the store has made, by this reply, or not.
fn told_of_checkpoint(
    alloc: Global,
    reply: Reply,
    done: Result<(), CheckpointError>,
) -> Result<Reply, Fault>
    ensures { ToldOfCheckpoint reply done result }
{
    match done {
        Ok(()) => Ok(reply),
        Err(CheckpointError::Generations) => Ok(refuse(alloc, Refusal::Generations)?),
        Err(CheckpointError::Disk) => Err(Fault::Disk),
        Err(CheckpointError::NoMemory) => Err(Fault::NoMemory),
    }
}

// The reply to a checkpoint that is made.
fn accept_checkpoint(alloc: Global) -> Result<Reply, NoMemory>
    ensures { IfOk result (λ reply. reply ≡ checkpoint_reply) }
{
    let text = format!(in alloc; "ok checkpoint\n")?;
    Ok(Reply::new(text.into_bytes()))
}
