//! Laws of runs: functions with nothing to do, whose contracts are the laws.
ghost use Rattle.std.specs.Prelude.{List};
ghost use Rattle.realm_insert.specs.State.{State};
ghost use Rattle.realm_files.specs.Stands.{Files};
ghost use Rattle.realm_store.specs.Keeping.{StandsGated};
ghost use Rattle.rose_shell.specs.Chains.{CrashedRun, IsChain, Survives};

use outside_world::Outside;

/// Runs of the program, each over the files that a crash of the one before has left, on files that stand for a state with the
/// byte of their next gate there: each crash leaves files that stand so, for the state after the commits whose replies had
/// begun, or after one more. So what is said of a crash during a run holds in each run of the chain.
pub fn chain_of_runs<W: Outside>()
    ensures { (files : Files) (runs : List (CrashedRun W)) (chain : IsChain ⟦<W as Outside>⟧ files runs) (state : State)
        → StandsGated files state → Survives ⟦<W as Outside>⟧ state files runs chain }
{}
