//! A store in a world in memory: what each crash within a commit leaves, and what a store finds there that starts on it.
ghost use Rattle.std.specs.Prelude.{◌≡◌, ◌≤◌, ◌^◌, length, false, None, IfOk, OnOk};
ghost use Rattle.outside_world.specs.Memory.{has_failed};
ghost use Rattle.realm_store.specs.Keeping.{AllRest};

use crate::example_error::ExampleError;
use crate::printing::print_answered;
use grid_base::NoMemory;
use line_grammar::{Command, read_line};
use outside_world::{Leave, MemoryWorld, Outside};
use realm_store::Store;
use std::alloc::Global;
use std::thread::Threads;

/// A change, a checkpoint, another change, and each crash within the last.
pub(crate) fn reopen<R: Threads + Sync + Print>(rt: &R, alloc: Global) -> Result<(), ExampleError> {
    let mut world = world_of(alloc, Vec::new(alloc), Vec::new(alloc))?;
    let mut store = Store::start(rt, alloc, &mut world)?;
    commit(rt, alloc, &mut store, &mut world, "segment 0 0 10 4")?;
    store.checkpoint(&mut world)?;
    let begun = world.calls();
    commit(rt, alloc, &mut store, &mut world, "segment 6 0 6 9")?;
    show_crashes(rt, alloc, &world, begun)
}

// What a store finds after a crash at each moment from this one on: where all since the last sync was lost, or none.
fn show_crashes<R: Threads + Sync + Print>(
    rt: &R,
    alloc: Global,
    world: &MemoryWorld,
    begun: u64,
) -> Result<(), ExampleError> {
    let ended = world.calls();
    for moment in begun..=ended {
        let old = changes_left(rt, alloc, world, moment, Leave::Old)?;
        let new = changes_left(rt, alloc, world, moment, Leave::New)?;
        let passed = moment - begun;
        println!(rt; "a crash after {passed} calls: {old} or {new} changes")?;
    }
    Ok(())
}

// A world with these two files, without input.
fn world_of(alloc: Global, a: Vec<u8>, b: Vec<u8>) -> Result<MemoryWorld, NoMemory>
    ensures intact { IfOk result (λ world. has_failed world ≡ false) }
{
    MemoryWorld::new(alloc, Vec::new(alloc), a, b, Vec::new(alloc))
}

// Commits the change of a line. After Ok another can follow, or a checkpoint: no group is open.
fn commit<R: Threads + Sync + Print, W: Outside>(
    rt: &R,
    alloc: Global,
    store: &mut Store,
    world: &mut W,
    line: &str,
) -> Result<(), ExampleError>
    requires intact { W.failed world.old ≡ false }
    requires ready { store.old.spent ≡ false }
    requires alone { store.old.group ≡ None }
    requires short { length line.now ≤ 2 ^ 20 }
    requires rest { W.tells world.old → AllRest store.old.kept (W.view world.old) }
    ensures intact { OnOk result (W.failed world.new ≡ false) }
    ensures ready { OnOk result (store.new.spent ≡ false) }
    ensures alone { OnOk result (store.new.group ≡ None) }
    ensures rest { OnOk result (W.tells world.new → AllRest store.new.kept (W.view world.new)) }
{
    match read_line(alloc, line.as_bytes())? {
        Command::Change(change) => {
            let reply = store.commit(rt, world, &change)?;
            print_answered(rt, line, &reply)?;
            Ok(())
        }
        _ => Err(ExampleError::Kind),
    }
}

// How many changes a store has that starts on what a crash at this moment leaves.
fn changes_left<R: Threads + Sync>(
    rt: &R,
    alloc: Global,
    world: &MemoryWorld,
    moment: u64,
    leave: Leave,
) -> Result<u64, ExampleError>
    requires past { moment ≤ length world.now.log.calls }
{
    let (a, b) = world.images(moment, leave)?;
    let mut left = world_of(alloc, a, b)?;
    let store = Store::start(rt, alloc, &mut left)?;
    Ok(store.state().changes())
}
