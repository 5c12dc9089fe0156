//! The lines of an entry. Its change is made again, and what comes of that tells what to write.
ghost use Rattle.std.specs.Prelude.{◌≡◌, false, All, IfOk, OnOk};
ghost use Rattle.certificate_law.specs.Certificates.{change_items};
ghost use Rattle.line_grammar.specs.Spellable.{IsSpellableChange};
ghost use Rattle.line_grammar.specs.declared.command.Change.{Change as Seen};
ghost use Rattle.realm_audit.specs.Items.{IsLine};
ghost use Rattle.realm_insert.specs.Differences.{points_besides};
ghost use Rattle.realm_insert.specs.Next.{Next};
ghost use Rattle.realm_insert.specs.State.{State};
ghost use Rattle.realm_store.specs.Leading.{LeadsBy};
ghost use Rattle.realm_store.specs.Replaying.{IsReplayable};

use crate::telling::change_lines;
use grid_base::{NoMemory, Step};
use line_grammar::{Change, Command, LineError, read_line};
use realm_audit::Item;
use realm_insert::{Applied, Engine, ReplayError};
use record_codec::Entry;
use std::alloc::Global;
use std::thread::Threads;

/// Makes the change of the entry again, and tells its lines.
pub fn certify_entry<R: Threads + Sync>(
    rt: &R,
    alloc: Global,
    engine: &mut Engine,
    entry: &Entry,
) -> Result<Vec<Item>, NoMemory>
    requires ready { engine.old.spent ≡ false }
    requires leads { (new : State) × LeadsBy engine.old.state entry.now new }
    ensures ready { OnOk result (engine.new.spent ≡ false) }
    ensures led { (new : State) → LeadsBy engine.old.state entry.now new → OnOk result (engine.new.state ≡ new) }
    ensures items { IfOk result (λ items.
        items.items ≡ change_items engine.old.state.drawing entry.now.trace engine.new.state.drawing) }
    ensures lines { IfOk result (λ items. All IsLine items.items) }
{
    // The state is valid before the change and behind it.
    engine.is_valid();
    let change = change_of(alloc, entry.line.bytes())?;
    let applied = make_again(rt, engine, &change, entry.trace.steps())?;
    engine.is_valid();
    let lines = change_lines(alloc, engine, &change, &applied, &entry.trace)?;
    Ok(lines.into_items())
}

// The change of which the line is the text.
fn change_of(alloc: Global, line: &[u8]) -> Result<Change, NoMemory>
    requires of_some { (change : Seen) × IsReplayable line.now change }
    ensures { IfOk result (λ change. IsReplayable line.now change) }
{
    match read_line(alloc, line) {
        Ok(Command::Change(change)) => Ok(change),
        Ok(_) => unreachable!(),
        Err(LineError::Bad { .. }) => unreachable!(),
        Err(LineError::NoMemory) => Err(NoMemory),
    }
}

// Makes a change again that is known to lead on by these steps.
fn make_again<R: Threads + Sync>(
    rt: &R,
    engine: &mut Engine,
    change: &Change,
    trace: &[Step],
) -> Result<Applied, NoMemory>
    requires ready { engine.old.spent ≡ false }
    requires spellable { IsSpellableChange change.now }
    requires leads { (new : State) × Next engine.old.state change.now trace.now new }
    ensures ready { OnOk result (engine.new.spent ≡ false) }
    ensures next { OnOk result (Next engine.old.state change.now trace.now engine.new.state) }
    ensures first { IfOk result (λ applied. applied.first ≡ engine.old.state.next_id) }
    ensures points { IfOk result (λ applied. applied.points.items
        ≡ points_besides engine.new.state.drawing.points engine.old.state.drawing.points) }
{
    match engine.replay(rt, change, trace) {
        Ok(applied) => Ok(applied),
        Err(ReplayError::Refused(_)) => unreachable!(),
        Err(ReplayError::Mismatch { .. }) => unreachable!(),
        Err(ReplayError::NoMemory) => Err(NoMemory),
    }
}
