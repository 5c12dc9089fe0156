//! The lines of a group: it is begun, and ended or given up, or one is open already or none is.
ghost use Rattle.std.specs.Prelude.{◌≡◌, ℕ, List, IfOk, false};
ghost use Rattle.outside_world.specs.GoesOn.{GoesOn};
ghost use Rattle.line_grammar.specs.Lines.{Says};
ghost use Rattle.line_grammar.specs.declared.command.Command.TheVariants.{Begin, Commit, Abandon};
ghost use Rattle.realm_store.specs.Keeping.{AllRest};
ghost use Rattle.rose_shell.specs.Answers.{AnswersCommand};
ghost use Rattle.rose_shell.specs.AtDesk.{AtDesk, IsSaid};
ghost use Rattle.rose_shell.specs.Loop.{ToldOfBegin, ToldOfEnd, ToldOfAbandon};
ghost use Rattle.rose_shell.specs.Replies.{begin_reply, commit_reply, abandon_reply, in_group_reply, no_group_reply};

use crate::fault::Fault;
use grid_base::{NoMemory, Reply};
use outside_world::Outside;
use realm_store::{BeginError, EndError, Store};
use std::alloc::Global;

/// Begins a group.
pub(crate) fn answer_begin(alloc: Global, store: &mut Store) -> Result<Reply, Fault>
    requires ready { store.old.spent ≡ false }
    ensures { IsSaid (AnswersCommand Begin) store.old store.new result }
{
    let reply = accept_begin(alloc)?;
    told_of_begin(alloc, reply, store.begin())
}

/// Ends the open group. The reply is made before the group is written, so that no memory is wanted then.
pub(crate) fn answer_commit<W: Outside>(
    alloc: Global,
    store: &mut Store,
    world: &mut W,
) -> Result<Reply, Fault>
    requires intact { W.failed world.old ≡ false }
    requires ready { store.old.spent ≡ false }
    requires rest { W.tells world.old → AllRest store.old.kept (W.view world.old) }
    ensures at_desk { (line : List ℕ) → Says line Commit
        → AtDesk ⟦<W as Outside>⟧ world.old world.new store.old store.new line result }
    ensures goes_on { GoesOn ⟦<W as Outside>⟧ world.old world.new }
{
    let reply = accept_end(alloc, store.changes_in_group())?;
    told_of_end(alloc, reply, store.end_group(world))
}

/// Gives the open group up.
pub(crate) fn answer_abandon(alloc: Global, store: &mut Store) -> Result<Reply, Fault>
    requires ready { store.old.spent ≡ false }
    ensures { IsSaid (AnswersCommand Abandon) store.old store.new result }
{
    let reply = accept_abandon(alloc)?;
    told_of_abandon(alloc, reply, store.abandon())
}

// What is said of a group that the store has begun, by this reply, or not.
fn told_of_begin(alloc: Global, reply: Reply, done: Result<(), BeginError>) -> Result<Reply, Fault>
    ensures { ToldOfBegin reply done result }
{
    match done {
        Ok(()) => Ok(reply),
        Err(BeginError::InGroup) => Ok(refuse_in_group(alloc)?),
        Err(BeginError::NoMemory) => Err(Fault::NoMemory),
    }
}

// What is said of a group that the store has ended, by this reply, or not.
fn told_of_end(alloc: Global, reply: Reply, done: Result<u64, EndError>) -> Result<Reply, Fault>
    ensures { ToldOfEnd reply done result }
{
    match done {
        Ok(_) => Ok(reply),
        Err(EndError::NoGroup) => Ok(refuse_no_group(alloc)?),
        Err(EndError::Disk) => Err(Fault::Disk),
        Err(EndError::NoMemory) => Err(Fault::NoMemory),
    }
}

// What is said of a group that the store has given up, by this reply, where one was open.
fn told_of_abandon(alloc: Global, reply: Reply, was_open: bool) -> Result<Reply, Fault>
    ensures { ToldOfAbandon reply was_open result }
{
    if was_open {
        return Ok(reply);
    }
    Ok(refuse_no_group(alloc)?)
}

// The reply to a group that is begun.
fn accept_begin(alloc: Global) -> Result<Reply, NoMemory>
    ensures { IfOk result (λ reply. reply ≡ begin_reply) }
{
    let text = format!(in alloc; "ok begin\n")?;
    Ok(Reply::new(text.into_bytes()))
}

// The reply to a group that is written, with so many changes.
fn accept_end(alloc: Global, count: u64) -> Result<Reply, NoMemory>
    ensures { IfOk result (λ reply. reply ≡ commit_reply count) }
{
    let text = format!(in alloc; "ok commit {count}\n")?;
    Ok(Reply::new(text.into_bytes()))
}

// The reply to a group that is given up.
fn accept_abandon(alloc: Global) -> Result<Reply, NoMemory>
    ensures { IfOk result (λ reply. reply ≡ abandon_reply) }
{
    let text = format!(in alloc; "ok abandon\n")?;
    Ok(Reply::new(text.into_bytes()))
}

/// The reply where a group is open.
pub(crate) fn refuse_in_group(alloc: Global) -> Result<Reply, NoMemory>
    ensures { IfOk result (λ reply. reply ≡ in_group_reply) }
{
    let text = format!(in alloc; "no in-group\n")?;
    Ok(Reply::new(text.into_bytes()))
}

// The reply where none is.
fn refuse_no_group(alloc: Global) -> Result<Reply, NoMemory>
    ensures { IfOk result (λ reply. reply ≡ no_group_reply) }
{
    let text = format!(in alloc; "no no-group\n")?;
    Ok(Reply::new(text.into_bytes()))
}
