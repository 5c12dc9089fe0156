//! Commands that give a few lines, and take none.
ghost use Rattle.std.specs.Prelude.{◌≡◌, ◌≢◌, ◌≤◌, ◌⊎◌, false};
ghost use Rattle.outside_world.specs.Counts.{Rose};
ghost use Rattle.outside_world.specs.GoesOn.{GoesOn};
ghost use Rattle.realm_insert.specs.State.{State};
ghost use Rattle.realm_store.specs.Stands.{StandsFor};
ghost use Rattle.realm_store.specs.Damages.{IsDamaged};
ghost use Rattle.realm_pages.specs.declared.damage.Damage.{Damage};
ghost use Rattle.rose_shell.specs.Faults.{TellsFault};
ghost use Rattle.rose_shell.specs.Telling.{GivesLines, HasChecked, HasGenerated};

use crate::giving::give_all;
use crate::status::Status;
use generated_map::generate;
use grid_base::{NoMemory, Reply};
use outside_world::Outside;
use realm_store::Store;
use state_counts::count_state;
use std::alloc::Global;
use std::thread::Threads;

/// Reads what the files stand for, and gives the lines that tell how much it is.
pub(crate) fn tell_store<R: Threads + Sync, W: Outside>(
    rt: &R,
    alloc: Global,
    world: &mut W,
) -> Status
    requires intact { W.failed world.old ≡ false }
    ensures never_usage { result ≢ Status.Usage }
    ensures never_source_fault { result ≢ Status.SourceFault }
    ensures intact { ¬ (TellsFault result) → W.failed world.new ≡ false }
    ensures sink_fault { result ≡ Status.SinkFault
        → Rose (W.sink_faults world.old) (W.sink_faults world.new) }
    ensures disk_fault { result ≡ Status.DiskFault
        → Rose (W.disk_faults world.old) (W.disk_faults world.new) }
    ensures damaged { (d : Damage) → result ≡ Status.Damaged d → W.tells world.new
        → IsDamaged d (W.view world.old).reads }
    ensures told { W.tells world.new → HasChecked (W.view world.old) (W.view world.new) result }
    ensures complete { W.tells world.new
        → ¬ (Rose (W.sink_faults world.old) (W.sink_faults world.new))
        → ¬ (Rose (W.disk_faults world.old) (W.disk_faults world.new))
        → (state : State) → StandsFor (W.view world.old).reads state
        → (result ≡ Status.Done) ⊎ (result ≡ Status.NoMemory) }
    ensures goes_on { GoesOn ⟦<W as Outside>⟧ world.old world.new }
{
    match Store::start(rt, alloc, world) {
        Ok(store) => match count_state(alloc, store.state()) {
            Ok(lines) => give_lines(world, &lines),
            Err(NoMemory) => Status::NoMemory,
        },
        Err(error) => Status::from(error),
    }
}

/// Gives the lines that tell of a map that nobody wrote.
pub(crate) fn tell_map<R: Threads + Sync, W: Outside>(
    rt: &R,
    alloc: Global,
    world: &mut W,
    lines: u64,
    start: u64,
) -> Status
    requires intact { W.failed world.old ≡ false }
    requires few { lines ≤ 100000 }
    ensures never_usage { result ≢ Status.Usage }
    ensures never_source_fault { result ≢ Status.SourceFault }
    ensures never_disk_fault { result ≢ Status.DiskFault }
    ensures never_damaged { (d : Damage) → result ≢ Status.Damaged d }
    ensures intact { ¬ (TellsFault result) → W.failed world.new ≡ false }
    ensures sink_fault { result ≡ Status.SinkFault
        → Rose (W.sink_faults world.old) (W.sink_faults world.new) }
    ensures told { W.tells world.new
        → HasGenerated lines start (W.view world.old) (W.view world.new) result }
    ensures no_file { W.disk_faults world.new ≡ W.disk_faults world.old }
    ensures complete { ¬ (Rose (W.sink_faults world.old) (W.sink_faults world.new))
        → (result ≡ Status.Done) ⊎ (result ≡ Status.NoMemory) }
    ensures goes_on { GoesOn ⟦<W as Outside>⟧ world.old world.new }
{
    match generate(rt, alloc, lines, start) {
        Ok(told) => give_lines(world, &told),
        Err(NoMemory) => Status::NoMemory,
    }
}

/// Gives the lines whole, or as many of their bytes as the sink took before it failed.
pub(crate) fn give_lines<W: Outside>(world: &mut W, lines: &Reply) -> Status
    requires intact { W.failed world.old ≡ false }
    ensures ends { (result ≡ Status.Done) ⊎ (result ≡ Status.SinkFault) }
    ensures intact { ¬ (TellsFault result) → W.failed world.new ≡ false }
    ensures sink_fault { result ≡ Status.SinkFault
        → Rose (W.sink_faults world.old) (W.sink_faults world.new) }
    ensures told { W.tells world.new
        → GivesLines (W.view world.old) (W.view world.new) lines.now result }
    ensures no_file { W.disk_faults world.new ≡ W.disk_faults world.old }
    ensures goes_on { GoesOn ⟦<W as Outside>⟧ world.old world.new }
{
    match give_all(world, lines.bytes()) {
        Ok(()) => Status::Done,
        Err(fault) => Status::from(fault),
    }
}
