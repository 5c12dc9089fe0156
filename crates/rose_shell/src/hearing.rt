//! Answers a line that has ended, or keeps it for its batch. A batch is answered with its last line, or at the
//! end of the input.
ghost use Rattle.std.specs.Prelude.{◌≡◌, ◌≢◌, ◌<◌, ℕ, List, [], ◌∷◌, ◌++◌, false};
ghost use Rattle.std.specs.Prelude.{Err, IfErr, OnOk, IsErrOf};
ghost use Rattle.outside_world.specs.GoesOn.{GoesOn};
ghost use Rattle.rose_shell.specs.Lines.{last_line, IsFrontOf};
ghost use Rattle.rose_shell.specs.Desk.{AllRestBy};
ghost use Rattle.rose_shell.specs.Faults.{IsCaused};
ghost use Rattle.rose_shell.specs.Loop.{IsWaiting, Went, Stopped, ToldBatch, IsUntold};

use crate::LONG_LINE_REFUSAL;
use crate::desk::Desk;
use crate::fault::Fault;
use crate::giving::give_all;
use crate::input::Input;
use crate::means::Means;
use crate::waiting::{LineAsks, Waiting, line_asks};
use outside_world::Outside;
use query_batch::{Gate, answer_batch};
use std::thread::Threads;

/// Answers what has come at the end of the input: a line without a line feed, where it isn't empty, and a batch with
/// fewer lines than it asks for.
pub(crate) fn answer_end<R: Threads + Sync, G: Gate, W: Outside, D: Desk<W>>(
    means: &Means<R, G>,
    desk: &mut D,
    world: &mut W,
    input: &mut Input,
) -> Result<(), Fault>
    requires intact { W.failed world.old ≡ false }
    requires ready { D.ready desk.old }
    requires rest { W.tells world.old → AllRestBy D.terms (W.view world.old) desk.old }
    ensures went { OnOk result ((line : List ℕ) (held : List (List ℕ)) → IsFrontOf input.old.kept.items line
        → IsWaiting input.old.waiting held → W.tells world.new
        → Went D.terms Unit (W.view world.old) (W.view world.new) desk.old desk.new
        (held ++ last_line line) input.new.waiting) }
    ensures none_waits { OnOk result (input.new.waiting.missing ≡ 0) }
    ensures stopped { IfErr result (λ fault. (line : List ℕ) (held : List (List ℕ))
        → IsFrontOf input.old.kept.items line → IsWaiting input.old.waiting held → W.tells world.new
        → Stopped D.terms Unit (W.view world.old) (W.view world.new) desk.old desk.new
        (held ++ last_line line) fault) }
    ensures intact { OnOk result (W.failed world.new ≡ false) }
    ensures caused { IfErr result (λ fault. IsCaused ⟦<W as Outside>⟧ world.old world.new fault) }
    ensures ready { result ≢ Err Fault.NoMemory → result ≢ Err Fault.Disk → D.ready desk.new }
    ensures spent { IsErrOf result Fault.Disk → ¬ (D.ready desk.new) }
    ensures goes_on { GoesOn ⟦<W as Outside>⟧ world.old world.new }
{
    if !input.kept.is_empty() {
        hear(means, desk, world, input)?;
    }
    if input.waiting.missing > 0 {
        answer_waiting(means, desk, world, &mut input.waiting)?;
    }
    Ok(())
}

/// Hears a whole line, of which this was kept: it is refused, or begins a batch, or waits in one, or is answered.
pub(crate) fn hear<R: Threads + Sync, G: Gate, W: Outside, D: Desk<W>>(
    means: &Means<R, G>,
    desk: &mut D,
    world: &mut W,
    input: &mut Input,
) -> Result<(), Fault>
    requires intact { W.failed world.old ≡ false }
    requires ready { D.ready desk.old }
    requires rest { W.tells world.old → AllRestBy D.terms (W.view world.old) desk.old }
    ensures kept { OnOk result (input.new.kept.items ≡ []) }
    ensures went { OnOk result ((line : List ℕ) (held : List (List ℕ)) → IsFrontOf input.old.kept.items line
        → IsWaiting input.old.waiting held → W.tells world.new
        → Went D.terms ⊥ (W.view world.old) (W.view world.new) desk.old desk.new
        (held ++ line ∷ []) input.new.waiting) }
    ensures stopped { IfErr result (λ fault. (line : List ℕ) (held : List (List ℕ))
        → IsFrontOf input.old.kept.items line → IsWaiting input.old.waiting held → W.tells world.new
        → Stopped D.terms ⊥ (W.view world.old) (W.view world.new) desk.old desk.new
        (held ++ line ∷ []) fault) }
    ensures intact { OnOk result (W.failed world.new ≡ false) }
    ensures caused { IfErr result (λ fault. IsCaused ⟦<W as Outside>⟧ world.old world.new fault) }
    ensures ready { result ≢ Err Fault.NoMemory → result ≢ Err Fault.Disk → D.ready desk.new }
    ensures spent { IsErrOf result Fault.Disk → ¬ (D.ready desk.new) }
    ensures rest { OnOk result (W.tells world.new → AllRestBy D.terms (W.view world.new) desk.new) }
    ensures goes_on { GoesOn ⟦<W as Outside>⟧ world.old world.new }
{
    if input.waiting.missing > 0 {
        return hear_in_batch(means, desk, world, input);
    }
    match line_asks(means.alloc, &input.kept)? {
        LineAsks::Refusal => give_all(world, &LONG_LINE_REFUSAL)?,
        LineAsks::Batch(size) => input.waiting.missing = size,
        LineAsks::Answer => {
            let reply = desk.answer(means, world, &input.kept)?;
            give_all(world, reply.bytes())?;
        }
    }
    input.kept.clear();
    Ok(())
}

// Keeps a line for its batch, and answers this where it is full.
fn hear_in_batch<R: Threads + Sync, G: Gate, W: Outside, D: Desk<W>>(
    means: &Means<R, G>,
    desk: &D,
    world: &mut W,
    input: &mut Input,
) -> Result<(), Fault>
    requires intact { W.failed world.old ≡ false }
    requires ready { D.ready desk.now }
    requires some { 0 < input.old.waiting.missing }
    requires rest { W.tells world.old → AllRestBy D.terms (W.view world.old) desk.now }
    ensures kept { OnOk result (input.new.kept.items ≡ []) }
    ensures went { OnOk result ((line : List ℕ) (held : List (List ℕ)) → IsFrontOf input.old.kept.items line
        → IsWaiting input.old.waiting held → W.tells world.new
        → Went D.terms ⊥ (W.view world.old) (W.view world.new) desk.now desk.now
        (held ++ line ∷ []) input.new.waiting) }
    ensures stopped { IfErr result (λ fault. (line : List ℕ) (held : List (List ℕ))
        → IsFrontOf input.old.kept.items line → IsWaiting input.old.waiting held → W.tells world.new
        → Stopped D.terms ⊥ (W.view world.old) (W.view world.new) desk.now desk.now
        (held ++ line ∷ []) fault) }
    ensures intact { OnOk result (W.failed world.new ≡ false) }
    ensures caused { IfErr result (λ fault. IsCaused ⟦<W as Outside>⟧ world.old world.new fault) }
    ensures never_disk { result ≢ Err Fault.Disk }
    ensures rest { OnOk result (W.tells world.new → AllRestBy D.terms (W.view world.new) desk.now) }
    ensures goes_on { GoesOn ⟦<W as Outside>⟧ world.old world.new }
{
    input.waiting.add(means.alloc, &input.kept)?;
    input.kept.clear();
    if input.waiting.missing > 0 {
        return Ok(());
    }
    answer_waiting(means, desk, world, &mut input.waiting)
}

// Answers the lines that wait in a batch.
fn answer_waiting<R: Threads + Sync, G: Gate, W: Outside, D: Desk<W>>(
    means: &Means<R, G>,
    desk: &D,
    world: &mut W,
    waiting: &mut Waiting,
) -> Result<(), Fault>
    requires intact { W.failed world.old ≡ false }
    requires ready { D.ready desk.now }
    ensures told { OnOk result (W.tells world.new → ToldBatch D.terms (W.view world.old)
        (W.view world.new) desk.now waiting.old.lines.items []) }
    ensures none_waits { OnOk result (IsWaiting waiting.new []) }
    ensures cut { IfErr result (λ fault. (W.tells world.new → IsUntold D.terms (W.view world.old)
        (W.view world.new) desk.now waiting.old.lines.items fault)
        × (fault ≡ Fault.NoMemory → world.new ≡ world.old)) }
    ensures intact { OnOk result (W.failed world.new ≡ false) }
    ensures caused { IfErr result (λ fault. IsCaused ⟦<W as Outside>⟧ world.old world.new fault) }
    ensures never_disk { result ≢ Err Fault.Disk }
    ensures goes_on { GoesOn ⟦<W as Outside>⟧ world.old world.new }
{
    let reply = answer_batch(
        means.rt,
        means.alloc,
        means.gate,
        desk.engine(),
        waiting.lines.as_slice(),
    )?;
    waiting.missing = 0;
    waiting.lines.clear();
    give_all(world, reply.bytes())?;
    Ok(())
}
