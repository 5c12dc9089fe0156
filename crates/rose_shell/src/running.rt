//! The calls of the program: the words choose what is done, and the loop answers line by line.
ghost use Rattle.std.specs.Prelude.{◌≡◌, ◌≢◌, ◌≤◌, ◌^◌, ◌⊎◌, None, true, false, length, map, string_bytes};
ghost use Rattle.outside_world.specs.Counts.{Rose};
ghost use Rattle.outside_world.specs.GoesOn.{GoesOn};
ghost use Rattle.command_words.specs.Written.{AreWordsOf, IsNoCommand};
ghost use Rattle.command_words.specs.declared.word.Word.{Word as Command};
ghost use Rattle.realm_insert.specs.State.{State};
ghost use Rattle.realm_store.specs.Stands.{StandsFor};
ghost use Rattle.realm_store.specs.Keeping.{AllRest};
ghost use Rattle.realm_store.specs.Damages.{IsDamaged};
ghost use Rattle.realm_pages.specs.declared.damage.Damage.{Damage};
ghost use Rattle.rose_shell.specs.Faults.{HasCause, TellsFault, status_at};
ghost use Rattle.rose_shell.specs.Running.{HasRun, Serves};
ghost use Rattle.rose_shell.specs.Telling.{HasDone, CanBeDone, AsksNoFile};

use crate::auditing::audit_input;
use crate::certifying::certify;
use crate::fault::Fault;
use crate::following::follow;
use crate::means::Means;
use crate::serving::answer_input;
use crate::shipping::ship;
use crate::status::Status;
use crate::telling::{tell_map, tell_store};
use command_words::{Word, one_command, read_words};
use grid_base::NoMemory;
use outside_world::Outside;
use query_batch::{Gate, Open};
use realm_store::Store;
use std::alloc::Global;
use std::thread::Threads;

/// How many bytes a run takes at most: 2^40.
const MOST_BYTES: u64 = 1_099_511_627_776;

/// Does what these words ask for, the arguments after the program's name. `run` reads lines to the end of the
/// input, from what the files stand for on, and answers each. `check` tells how much the files stand for, and `gen` of a
/// map that nobody wrote. `ship` gives what brings a follower up to date as frames, and `follow` takes over those of its input
/// that come next, and answers each line. `certify` gives the certificate of what the newest file keeps, and `audit` the verdict on
/// its input as one. Words that are no command end as usage. Want of memory may end each at any place: what was given then is the first lines or replies, each whole, or
/// nothing.
pub fn run<R: Threads + Sync, W: Outside>(
    rt: &R,
    alloc: Global,
    words: &[String],
    world: &mut W,
) -> Status
    requires intact { W.failed world.old ≡ false }
    ensures usage { result ≡ Status.Usage → IsNoCommand (map string_bytes words.now) }
    ensures no_command { IsNoCommand (map string_bytes words.now)
        → (result ≡ Status.Usage) ⊎ (result ≡ Status.NoMemory) }
    ensures untouched { IsNoCommand (map string_bytes words.now) → world.new ≡ world.old }
    ensures faults { HasCause ⟦<W as Outside>⟧ world.old world.new result }
    ensures intact { ¬ (TellsFault result) → W.failed world.new ≡ false }
    ensures damaged { (d : Damage) → result ≡ Status.Damaged d → W.tells world.new
        → IsDamaged d (W.view world.old).reads }
    ensures told { (command : Command) → AreWordsOf (map string_bytes words.now) command
        → W.tells world.new → HasDone command (W.view world.old) (W.view world.new) result }
    // `gen` and `audit` make no call on a file: each may raise the count.
    ensures no_file { (command : Command) → AreWordsOf (map string_bytes words.now) command
        → AsksNoFile command → W.disk_faults world.new ≡ W.disk_faults world.old }
    // Where no call fails, the files stand for a state and the input ends within the budget, as far as the command
    // asks for them, nothing but memory can be wanting.
    ensures complete { (command : Command) → AreWordsOf (map string_bytes words.now) command
        → W.tells world.new
        → ¬ (Rose (W.source_faults world.old) (W.source_faults world.new))
        → ¬ (Rose (W.sink_faults world.old) (W.sink_faults world.new))
        → ¬ (Rose (W.disk_faults world.old) (W.disk_faults world.new))
        → CanBeDone command (W.view world.old)
        → (result ≡ Status.Done) ⊎ (result ≡ Status.NoMemory) }
    ensures goes_on { GoesOn ⟦<W as Outside>⟧ world.old world.new }
{
    one_command();
    let word = match read_words(alloc, words) {
        Ok(Some(word)) => word,
        Ok(None) => return Status::Usage,
        Err(NoMemory) => return Status::NoMemory,
    };
    match word {
        Word::Run => run_lines(rt, alloc, world),
        Word::Check => tell_store(rt, alloc, world),
        Word::Gen { lines, start } => tell_map(rt, alloc, world, lines, start),
        Word::Ship { changes } => ship(rt, alloc, world, changes),
        Word::Follow => follow(rt, alloc, world, MOST_BYTES),
        Word::Certify => certify(rt, alloc, world),
        Word::Audit => audit_input(alloc, world, MOST_BYTES),
    }
}

// Reads what the files stand for, and answers each line of the input from there on.
fn run_lines<R: Threads + Sync, W: Outside>(rt: &R, alloc: Global, world: &mut W) -> Status
    requires intact { W.failed world.old ≡ false }
    ensures never_usage { result ≢ Status.Usage }
    ensures faults { HasCause ⟦<W as Outside>⟧ world.old world.new result }
    ensures intact { ¬ (TellsFault result) → W.failed world.new ≡ false }
    ensures damaged { (d : Damage) → result ≡ Status.Damaged d → W.tells world.new
        → IsDamaged d (W.view world.old).reads }
    ensures told { W.tells world.new → HasRun (W.view world.old) (W.view world.new) result }
    ensures complete { W.tells world.new
        → ¬ (Rose (W.source_faults world.old) (W.source_faults world.new))
        → ¬ (Rose (W.sink_faults world.old) (W.sink_faults world.new))
        → ¬ (Rose (W.disk_faults world.old) (W.disk_faults world.new))
        → length (W.view world.old).left ≤ 2 ^ 40
        → (state : State) → StandsFor (W.view world.old).reads state
        → (result ≡ Status.Done) ⊎ (result ≡ Status.NoMemory) }
    ensures goes_on { GoesOn ⟦<W as Outside>⟧ world.old world.new }
{
    match Store::start(rt, alloc, world) {
        Ok(started) => {
            let mut store = started;
            serve_gated(rt, alloc, &mut store, world, MOST_BYTES, &Open)
        }
        Err(error) => Status::from(error),
    }
}

/// Reads lines to the end of the input, and answers each from this store on. The run ends at the first fault,
/// at want of memory, and where a take gives more though `budget` bytes have come. A group that is open then is given up.
pub fn serve<R: Threads + Sync, W: Outside>(
    rt: &R,
    alloc: Global,
    store: &mut Store,
    world: &mut W,
    budget: u64,
) -> Status
    requires intact { W.failed world.old ≡ false }
    requires ready { store.old.spent ≡ false }
    requires alone { store.old.group ≡ None }
    requires rest { W.tells world.old → AllRest store.old.kept (W.view world.old) }
    ensures { Serves ⟦<W as Outside>⟧ world.old world.new store.old store.new budget result }
{
    serve_gated(rt, alloc, store, world, budget, &Open)
}

/// The same, with a gate round the jobs of each batch.
pub fn serve_gated<R: Threads + Sync, W: Outside, G: Gate>(
    rt: &R,
    alloc: Global,
    store: &mut Store,
    world: &mut W,
    budget: u64,
    gate: &G,
) -> Status
    requires intact { W.failed world.old ≡ false }
    requires ready { store.old.spent ≡ false }
    requires alone { store.old.group ≡ None }
    requires rest { W.tells world.old → AllRest store.old.kept (W.view world.old) }
    ensures { Serves ⟦<W as Outside>⟧ world.old world.new store.old store.new budget result }
{
    // The session begins with a sound state.
    let _state = store.state();
    let mut chunk = [0u8; 65_536];
    let means = Means { rt, alloc, gate };
    let status = ended(answer_input(&means, store, world, budget, &mut chunk));
    if !store.is_spent() {
        store.abandon();
    }
    status
}

// How a run has ended that came to its end or to a fault.
fn ended(by: Result<Status, Fault>) -> Status
    ensures { result ≡ status_at by }
{
    match by {
        Ok(status) => status,
        Err(fault) => Status::from(fault),
    }
}
