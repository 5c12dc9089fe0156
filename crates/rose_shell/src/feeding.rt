//! Hears the lines that end in the bytes that were read.
//! Of a line no more than one byte beyond the longest is kept. This much tells whether the line is too
//! long, and where it isn't, this is the line.
ghost use Rattle.std.specs.Prelude.{◌≡◌, ◌≢◌, ◌<◌, ℕ, List, [], ◌∷◌, ◌++◌, All, length, take, false};
ghost use Rattle.std.specs.Prelude.{slice_index, Err, MatchOption, IfErr, OnOk, IsErrOf};
ghost use Rattle.outside_world.specs.GoesOn.{GoesOn};
ghost use Rattle.rose_shell.specs.Lines.{lines_from, part_from, IsFrontOf};
ghost use Rattle.rose_shell.specs.Desk.{AllRestBy};
ghost use Rattle.rose_shell.specs.Faults.{IsCaused};
ghost use Rattle.rose_shell.specs.Loop.{IsWaiting, Went, Stopped};

use crate::LONGEST_LINE;
use crate::desk::Desk;
use crate::fault::Fault;
use crate::hearing::hear;
use crate::input::Input;
use crate::means::Means;
use grid_base::NoMemory;
use outside_world::Outside;
use query_batch::Gate;
use std::thread::Threads;

/// Reads a chunk of the input, and hears each line that ends in it.
pub(crate) fn feed<R: Threads + Sync, G: Gate, W: Outside, D: Desk<W>>(
    means: &Means<R, G>,
    desk: &mut D,
    world: &mut W,
    input: &mut Input,
    chunk: &[u8],
) -> Result<(), Fault>
    requires intact { W.failed world.old ≡ false }
    requires ready { D.ready desk.old }
    requires rest { W.tells world.old → AllRestBy D.terms (W.view world.old) desk.old }
    ensures kept { OnOk result ((part : List ℕ) → IsFrontOf input.old.kept.items part
        → IsFrontOf input.new.kept.items (part_from part chunk.now)) }
    ensures went { OnOk result ((part : List ℕ) (held : List (List ℕ)) → IsFrontOf input.old.kept.items part
        → IsWaiting input.old.waiting held → W.tells world.new
        → Went D.terms ⊥ (W.view world.old) (W.view world.new) desk.old desk.new
        (held ++ lines_from part chunk.now) input.new.waiting) }
    ensures stopped { IfErr result (λ fault. (part : List ℕ) (held : List (List ℕ))
        → IsFrontOf input.old.kept.items part → IsWaiting input.old.waiting held → W.tells world.new
        → Stopped D.terms ⊥ (W.view world.old) (W.view world.new) desk.old desk.new
        (held ++ lines_from part chunk.now) fault) }
    ensures intact { OnOk result (W.failed world.new ≡ false) }
    ensures caused { IfErr result (λ fault. IsCaused ⟦<W as Outside>⟧ world.old world.new fault) }
    ensures ready { result ≢ Err Fault.NoMemory → result ≢ Err Fault.Disk → D.ready desk.new }
    ensures spent { IsErrOf result Fault.Disk → ¬ (D.ready desk.new) }
    ensures rest { OnOk result (W.tells world.new → AllRestBy D.terms (W.view world.new) desk.new) }
    ensures goes_on { GoesOn ⟦<W as Outside>⟧ world.old world.new }
{
    let mut rest = chunk;
    while let Some(end) = line_end(rest) {
        keep(&mut input.kept, &rest[..end])?;
        hear(means, desk, world, input)?;
        rest = &rest[end + 1..];
    }
    keep(&mut input.kept, rest)?;
    Ok(())
}

/// The place of the first line feed.
pub(crate) fn line_end(bytes: &[u8]) -> Option<usize>
    ensures { MatchOption result (All (λ b. b ≢ 10) bytes.now)
        (λ n. (n < length bytes.now) × (slice_index bytes.now n ≡ 10)
        × All (λ b. b ≢ 10) (take n bytes.now)) }
{
    bytes.iter().position(|b| *b == b'\n')
}

/// Keeps these bytes too, as far as they tell of their line.
fn keep(kept: &mut Vec<u8>, bytes: &[u8]) -> Result<(), NoMemory>
    ensures { OnOk result ((part : List ℕ) → IsFrontOf kept.old.items part
        → IsFrontOf kept.new.items (part ++ bytes.now)) }
{
    let room = (LONGEST_LINE + 1).saturating_sub(kept.len());
    kept.extend_from_slice(&bytes[..room.min(bytes.len())])?;
    Ok(())
}
