//! A run over a world on which no call fails, from two empty files on. What `run` asks of a world so that it answers all, and so
//! that each crash leaves the state before a change or after it, holds there.
ghost use Rattle.std.specs.Prelude.{◌≡◌, ◌⊎◌, ◌≤◌, ◌^◌, [], length, map, string_bytes, true, IfOk};
ghost use Rattle.outside_world.specs.Steady.{steady_view, fresh_steady};
ghost use Rattle.command_words.specs.Written.{AreWordsOf};
ghost use Rattle.command_words.specs.declared.word.Word.TheVariants.{Run};
ghost use Rattle.steady_run.specs.FromNothing.{HasRunFromNothing};

use grid_base::NoMemory;
use outside_world::SteadyWorld;
use realm_store::{empty_files_stand, gate_is_kept};
use rose_shell::{Status, run};
use std::alloc::Global;
use std::thread::Threads;

/// Answers each line of the input, from two empty files on, and tells how that ended. The world tells what was given, as long as
/// all fitted into it.
pub fn run_steadily<R: Threads + Sync>(
    rt: &R,
    alloc: Global,
    input: Vec<u8>,
) -> Result<(Status, SteadyWorld), NoMemory>
    ensures told { IfOk result (λ done. done.1.fits ≡ true → HasRunFromNothing
        (steady_view (fresh_steady input.items [] [])) (steady_view done.1) done.0) }
    // No call fails, so nothing but memory can be wanting.
    ensures complete { IfOk result (λ done. done.1.fits ≡ true → length input.items ≤ 2 ^ 40
        → (done.0 ≡ Status.Done) ⊎ (done.0 ≡ Status.NoMemory)) }
{
    empty_files_stand();
    gate_is_kept();
    let words = word_run(alloc)?;
    let mut world = world_of(alloc, input)?;
    let status = run(rt, alloc, words.as_slice(), &mut world);
    Ok((status, world))
}

// The one word `run`.
fn word_run(alloc: Global) -> Result<Vec<String>, NoMemory>
    ensures { IfOk result (λ words. AreWordsOf (map string_bytes words.items) Run) }
{
    let mut words = Vec::new(alloc);
    words.push(String::from_str(alloc, "run")?)?;
    Ok(words)
}

// A world with this input and two empty files.
fn world_of(alloc: Global, input: Vec<u8>) -> Result<SteadyWorld, NoMemory>
    ensures { IfOk result (λ world. world ≡ fresh_steady input.items [] []) }
{
    SteadyWorld::new(alloc, input, Vec::new(alloc), Vec::new(alloc))
}
