//! Makes the changes of records again. A record is asked for its number and its entries, an entry for its line and its
//! trace; that the record stands in a file doesn't matter here.
ghost use Rattle.std.specs.Prelude.{◌≡◌, false, IfOk, MatchOption};
ghost use Rattle.line_grammar.specs.declared.command.Change.{Change as Seen};
ghost use Rattle.line_grammar.specs.Spelling.{change_text};
ghost use Rattle.line_grammar.specs.Spellable.{IsSpellableChange};
ghost use Rattle.realm_store.specs.Replaying.{RemadeBy, RemadeOnBy, Remade, IsReplayable};

use grid_base::NoMemory;
use line_grammar::{Change, Command, LineError, read_line};
use realm_insert::{Engine, ReplayError};
use record_codec::{Entry, Record};
use std::alloc::Global;
use std::thread::Threads;

/// Makes the changes of a record again, and answers whether the record leads on.
pub(crate) fn replay_one<R: Threads + Sync>(
    rt: &R,
    alloc: Global,
    engine: &mut Engine,
    one: &Record,
) -> Result<bool, NoMemory>
    requires ready { engine.old.spent ≡ false }
    ensures { IfOk result (λ leads. Remade engine.old.state one.now leads engine.new) }
{
    if one.number != engine.changes() + 1 {
        return Ok(false);
    }
    match replay_entries(rt, alloc, engine, one.entries.entries())? {
        None => Ok(true),
        Some(_) => Ok(false),
    }
}

/// Makes the changes of these entries again, and answers the number of the first that leads nowhere; none where all of them
/// lead on.
pub(crate) fn replay_entries<R: Threads + Sync>(
    rt: &R,
    alloc: Global,
    engine: &mut Engine,
    entries: &[Entry],
) -> Result<Option<u64>, NoMemory>
    requires ready { engine.old.spent ≡ false }
    ensures { IfOk result (λ failed. RemadeOnBy engine.old.state entries.now failed engine.new) }
{
    for entry in entries {
        let number = engine.changes() + 1;
        if !replay_entry(rt, alloc, engine, entry)? {
            return Ok(Some(number));
        }
    }
    Ok(None)
}

// Makes the change of an entry again, and answers whether the entry leads on.
fn replay_entry<R: Threads + Sync>(
    rt: &R,
    alloc: Global,
    engine: &mut Engine,
    entry: &Entry,
) -> Result<bool, NoMemory>
    requires ready { engine.old.spent ≡ false }
    ensures { IfOk result (λ leads. RemadeBy engine.old.state entry.now leads engine.new) }
{
    match replayable(alloc, entry.line.bytes())? {
        Some(change) => remake(rt, engine, &change, entry),
        None => Ok(false),
    }
}

// Makes this change again by the trace of its entry, and answers whether the entry leads on.
fn remake<R: Threads + Sync>(
    rt: &R,
    engine: &mut Engine,
    change: &Change,
    entry: &Entry,
) -> Result<bool, NoMemory>
    requires ready { engine.old.spent ≡ false }
    requires of_line { IsReplayable entry.now.line change.now }
    ensures { IfOk result (λ leads. RemadeBy engine.old.state entry.now leads engine.new) }
{
    match engine.replay(rt, change, entry.trace.steps()) {
        Ok(_) => Ok(true),
        Err(ReplayError::Refused(_)) => Ok(false),
        Err(ReplayError::Mismatch { .. }) => Ok(false),
        Err(ReplayError::NoMemory) => Err(NoMemory),
    }
}

// The change of which the line is the text; none where it is the text of none.
fn replayable(alloc: Global, line: &[u8]) -> Result<Option<Change>, NoMemory>
    ensures { IfOk result (λ found. MatchOption found
        ((change : Seen) → IsReplayable line.now change → ⊥) (λ change. IsReplayable line.now change)) }
{
    match read_line(alloc, line) {
        Ok(Command::Change(change)) => Ok(Some(change)),
        Ok(_) => Ok(None),
        Err(LineError::Bad { .. }) => Ok(None),
        Err(LineError::NoMemory) => Err(NoMemory),
    }
}
