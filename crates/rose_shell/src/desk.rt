//! What answers a line.
ghost use Rattle.std.specs.Prelude.{◌≡◌, ◌≢◌, ◌≤◌, ℕ, List, Option, false, length, Err, IfOk, IfErr, IsErrOf, OnOk};
ghost use Rattle.std.specs.Thread.{IsSync};
ghost use Rattle.outside_world.specs.GoesOn.{GoesOn};
ghost use Rattle.query_batch.specs.Answers.{TellsLine};
ghost use Rattle.rose_shell.specs.Lines.{longest_line};
ghost use Rattle.rose_shell.specs.Batches.{OpensNone};
ghost use Rattle.rose_shell.specs.Faults.{IsCaused};
ghost use Rattle.rose_shell.specs.Desk.{Terms, AllRestBy, Answered};

use crate::fault::Fault;
use crate::means::Means;
use grid_base::Reply;
use outside_world::Outside;
use query_batch::Gate;
use realm_insert::Engine;
use std::thread::Threads;

/// What answers lines one by one. Its state is the value itself.
pub trait Desk<W: Outside> {
    /// Whether it can answer. After a line that got no reply it may be spent, and after a disk fault it is.
    ghost ready: { Self → Type 0 };

    /// What it answers, and what the files are to it.
    ghost terms: { Terms Self };

    /// Answers a line, which comes without its line feed and begins no batch. The reply isn't given yet.
    fn answer<R: Threads + Sync, G: Gate>(
        &mut self,
        means: &Means<R, G>,
        world: &mut W,
        line: &[u8],
    ) -> Result<Reply, Fault>
        requires shared { IsSync R.row }
        requires intact { W.failed world.old ≡ false }
        requires ready { ready self.old }
        requires short { length line.now ≤ longest_line }
        requires opens_none { OpensNone line.now }
        requires rest { W.tells world.old → AllRestBy terms (W.view world.old) self.old }
        ensures answer { IfOk result (λ reply. terms.answers self.old line.now reply self.new) }
        ensures ready { result ≢ Err Fault.NoMemory → result ≢ Err Fault.Disk → ready self.new }
        ensures intact { OnOk result (W.failed world.new ≡ false) }
        ensures caused { IfErr result (λ fault. IsCaused ⟦<W as Outside>⟧ world.old world.new fault) }
        ensures spent { IsErrOf result Fault.Disk → ¬ (ready self.new) }
        ensures goes_on { GoesOn ⟦<W as Outside>⟧ world.old world.new }
        ensures told { W.tells world.new
            → Answered terms (W.view world.old) (W.view world.new) self.old self.new line.now result };

    /// The state about which it answers the lines of a batch.
    fn engine(&self) -> &Engine
        requires ready { ready self.now }
        ensures ready { result.now.spent ≡ false }
        ensures tells { (line : Option (List ℕ)) (reply : List ℕ) → TellsLine result.now.state line reply
            → terms.tells self.now line reply };
}
