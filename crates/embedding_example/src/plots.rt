//! The engine alone: a map in memory, which no file keeps.
ghost use Rattle.std.specs.Prelude.{◌≡◌, false, OnOk};
ghost use Rattle.line_grammar.specs.Spellable.{IsSpellableChange};

use crate::example_error::ExampleError;
use crate::printing::print_answered;
use line_grammar::{At, Change, Command, read_line};
use realm_insert::{ChangeError, Engine};
use rose_query::answer;
use std::alloc::Global;
use std::thread::Threads;

/// Two plots that share a border, and a road across both.
pub(crate) fn draw_plots<R: Threads + Sync + Print>(
    rt: &R,
    alloc: Global,
) -> Result<(), ExampleError> {
    let mut engine = Engine::new(alloc);
    hear(rt, alloc, &mut engine, "regions west 0 0 12 0 14 10 0 10")?;
    hear(rt, alloc, &mut engine, "regions east 12 0 26 0 26 10 14 10")?;
    hear(rt, alloc, &mut engine, "num area2 west")?;
    draw_road(rt, &mut engine)?;
    hear(rt, alloc, &mut engine, "num area2 west")?;
    hear(rt, alloc, &mut engine, "eval common_border west east")?;
    hear(rt, alloc, &mut engine, "regions west 1 1 2 1 2 2")
}

// Makes the change of a line, or answers its query.
fn hear<R: Threads + Sync + Print>(
    rt: &R,
    alloc: Global,
    engine: &mut Engine,
    line: &str,
) -> Result<(), ExampleError>
    requires ready { engine.old.spent ≡ false }
    ensures ready { OnOk result (engine.new.spent ≡ false) }
{
    match read_line(alloc, line.as_bytes())? {
        Command::Change(change) => make(rt, engine, line, &change),
        Command::Query(query) => {
            let reply = answer(rt, alloc, engine, &query)?;
            print_answered(rt, line, &reply)?;
            Ok(())
        }
        _ => Err(ExampleError::Kind),
    }
}

// Makes a change. One that is refused leaves the engine as it was.
fn make<R: Threads + Sync + Print>(
    rt: &R,
    engine: &mut Engine,
    line: &str,
    change: &Change,
) -> Result<(), ExampleError>
    requires ready { engine.old.spent ≡ false }
    requires spellable { IsSpellableChange change.now }
    ensures ready { OnOk result (engine.new.spent ≡ false) }
{
    match engine.change(rt, change) {
        Ok(applied) => {
            let steps = applied.trace.steps().len();
            println!(rt; "> {line}\n{} originals, {steps} steps", applied.added)?;
            Ok(())
        }
        Err(ChangeError::Refused(why)) => {
            println!(rt; "> {line}\nrefused: {why}")?;
            Ok(())
        }
        Err(why) => Err(ExampleError::Change(why)),
    }
}

// A road, by a change that is written down as a value, and the chain that stands for it then.
fn draw_road<R: Threads + Sync + Print>(rt: &R, engine: &mut Engine) -> Result<(), ExampleError>
    requires ready { engine.old.spent ≡ false }
    ensures ready { OnOk result (engine.new.spent ≡ false) }
{
    let road = Change::Segment(At { x: 0, y: 2 }, At { x: 26, y: 5 });
    let applied = engine.change(rt, &road)?;
    println!(rt; "the road is original {}, with the chain", applied.first)?;
    if let Ok(id) = u32::try_from(applied.first) {
        if let Some(points) = engine.drawing().chain(id) {
            for p in points {
                println!(rt; "  {} {}", p.x(), p.y())?;
            }
        }
    }
    Ok(())
}
