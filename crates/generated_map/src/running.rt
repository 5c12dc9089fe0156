//! Making the changes one by one, in a state that is kept nowhere.
ghost use Rattle.std.specs.Prelude.{◌≡◌, ◌≤◌, ◌+◌, false, List, length, IfOk, OnOk};
ghost use Rattle.grid_base.specs.declared.kinds.Step.{Step};
ghost use Rattle.line_grammar.specs.Spellable.{IsSpellableChange};
ghost use Rattle.realm_insert.specs.State.{fresh_state};
ghost use Rattle.state_counts.specs.Counts.{AreCounts};
ghost use Rattle.state_counts.specs.declared.counting.Counts.{Counts as Numbers};
ghost use Rattle.generated_map.specs.Generated.{change_between, corners_behind, after_four};
ghost use Rattle.generated_map.specs.Runs.{Takes};
ghost use Rattle.generated_map.specs.Told.{LeadsTo, TellsMap, map_lines};

use crate::drawing_lots::draw_corners;
use crate::lines::change_between;
use grid_base::{NoMemory, Reply};
use line_grammar::Change;
use realm_insert::{ChangeError, Engine};
use state_counts::{counts_of, push_counts, push_number};
use std::alloc::Global;
use std::thread::Threads;

/// Makes so many changes that follow from this number, one after another from nothing, and tells how much
/// there is then and how many steps they took in all. A sum of steps that 64 bits don't hold is answered as
/// want of memory.
pub fn generate<R: Threads + Sync>(
    rt: &R,
    alloc: Global,
    lines: u64,
    start: u64,
) -> Result<Reply, NoMemory>
    requires few { lines ≤ 100000 }
    ensures { IfOk result (TellsMap lines start) }
{
    let mut engine = Engine::new(alloc);
    let steps = make_all(rt, alloc, &mut engine, lines, start)?;
    tell(alloc, &engine, lines, start, steps)
}

// Makes the changes in a new engine, and counts their steps.
fn make_all<R: Threads + Sync>(
    rt: &R,
    alloc: Global,
    engine: &mut Engine,
    lines: u64,
    start: u64,
) -> Result<u64, NoMemory>
    requires fresh { engine.old ≡ fresh_state }
    requires few { lines ≤ 100000 }
    ensures leads { IfOk result (LeadsTo lines start engine.new.state) }
    ensures ready { OnOk result (engine.new.spent ≡ false) }
{
    let mut last = start;
    let mut steps: u64 = 0;
    for made in 0..lines {
        let taken = make_next(rt, alloc, engine, &mut last, made + 1)?;
        steps = sum(steps, taken)?;
    }
    Ok(steps)
}

// Makes the change with this number between the corners that are drawn next, and counts its steps.
fn make_next<R: Threads + Sync>(
    rt: &R,
    alloc: Global,
    engine: &mut Engine,
    last: &mut u64,
    number: u64,
) -> Result<u64, NoMemory>
    requires ready { engine.old.spent ≡ false }
    requires few { number ≤ 100000 }
    ensures takes { IfOk result (λ steps. (trace : List Step)
        × Takes engine.old.state (change_between number (corners_behind last.old)) trace engine.new.state
        × (steps ≡ length trace)) }
    ensures last { last.new ≡ after_four last.old }
    ensures ready { OnOk result (engine.new.spent ≡ false) }
{
    let corners = draw_corners(last);
    let c = change_between(alloc, number, corners)?;
    make(rt, engine, &c)
}

// Makes the change unless it is refused, and counts its steps.
fn make<R: Threads + Sync>(rt: &R, engine: &mut Engine, c: &Change) -> Result<u64, NoMemory>
    requires ready { engine.old.spent ≡ false }
    requires spellable { IsSpellableChange c.now }
    ensures takes { IfOk result (λ steps. (trace : List Step)
        × Takes engine.old.state c.now trace engine.new.state × (steps ≡ length trace)) }
    ensures ready { OnOk result (engine.new.spent ≡ false) }
{
    match engine.change(rt, c) {
        Ok(applied) => Ok(applied.trace.steps().len() as u64),
        Err(ChangeError::Refused(_)) => Ok(0),
        Err(ChangeError::NoMemory) => Err(NoMemory),
    }
}

fn sum(steps: u64, more: u64) -> Result<u64, NoMemory>
    ensures { IfOk result (λ all. all ≡ steps + more) }
{
    match steps.checked_add(more) {
        Some(all) => Ok(all),
        None => Err(NoMemory),
    }
}

// The six lines.
fn tell(
    alloc: Global,
    engine: &Engine,
    lines: u64,
    start: u64,
    steps: u64,
) -> Result<Reply, NoMemory>
    requires ready { engine.now.spent ≡ false }
    ensures { IfOk result (λ reply. (counts : Numbers) × AreCounts engine.now.state counts
        × (reply ≡ map_lines lines start counts steps)) }
{
    let counts = counts_of(engine)?;
    let mut text = format!(in alloc; "gen {lines} {start}\n")?;
    push_counts(&mut text, &counts)?;
    push_number(&mut text, "steps", steps)?;
    Ok(Reply::new(text.into_bytes()))
}
