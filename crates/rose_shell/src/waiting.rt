//! Lines that wait until their batch is read.
ghost use Rattle.std.specs.Prelude.{◌≡◌, ◌<◌, ◌≤◌, ◌+◌, ℕ, List, [], ◌∷◌, ◌++◌, OnOk, IfOk};
ghost use Rattle.std.specs.Prelude.{MatchOption, length};
ghost use Rattle.rose_shell.specs.Lines.{longest_line, IsFrontOf};
ghost use Rattle.line_grammar.specs.declared.command.Command.TheVariants.{Batch};
ghost use Rattle.rose_shell.specs.Loop.{Asks};
ghost use Rattle.rose_shell.specs.Batches.{IsInRange, OpensBatch, OpensNone, heard};

use crate::LONGEST_LINE;
use grid_base::NoMemory;
use line_grammar::{Command, LineError, read_line};
use query_batch::Line;
use std::alloc::Global;

/// A batch some of whose lines are still to come, or none.
#[derive(Debug, Drop)]
pub(crate) struct Waiting {
    /// How many of its lines are still to come: 0 where there is no batch.
    pub(crate) missing: usize,
    /// Its lines so far: of one that is too long nothing is kept.
    pub(crate) lines: Vec<Option<Line>>,
}

impl Waiting {
    /// Waits for no batch.
    pub(crate) fn new(alloc: Global) -> Waiting
        ensures missing { result.missing ≡ 0 }
        ensures lines { result.lines.items ≡ [] }
    {
        Waiting {
            missing: 0,
            lines: Vec::new(alloc),
        }
    }

    /// Keeps one line more, of which this was kept.
    pub(crate) fn add(&mut self, alloc: Global, kept: &[u8]) -> Result<(), NoMemory>
        requires missing { 0 < self.old.missing }
        ensures missing { OnOk result (self.old.missing ≡ self.new.missing + 1) }
        ensures lines { OnOk result ((line : List ℕ) → IsFrontOf kept.now line
            → self.new.lines.items ≡ self.old.lines.items ++ heard line ∷ []) }
    {
        let line = hear(alloc, kept)?;
        self.lines.push(line)?;
        self.missing -= 1;
        Ok(())
    }
}

// What waits of a line of which this was kept.
fn hear(alloc: Global, kept: &[u8]) -> Result<Option<Line>, NoMemory>
    ensures { IfOk result (λ o. (line : List ℕ) → IsFrontOf kept.now line → o ≡ heard line) }
{
    if kept.len() > LONGEST_LINE {
        return Ok(None);
    }
    let mut bytes = Vec::new(alloc);
    bytes.extend_from_slice(kept)?;
    Ok(Some(Line::new(bytes)))
}

/// What a line asks of the loop, before which none waits.
#[derive(Clone, Copy, Debug, PartialEq, Eq)]
pub(crate) enum LineAsks {
    /// It is too long.
    Refusal,
    /// It begins a batch of so many lines.
    Batch(usize),
    /// It is to be answered by itself.
    Answer,
}

/// What the line asks for of which this was kept.
pub(crate) fn line_asks(alloc: Global, kept: &[u8]) -> Result<LineAsks, NoMemory>
    ensures { IfOk result (λ asks. Asks kept.now asks) }
{
    if kept.len() > LONGEST_LINE {
        return Ok(LineAsks::Refusal);
    }
    match batch_size(alloc, kept)? {
        Some(size) => Ok(LineAsks::Batch(size)),
        None => Ok(LineAsks::Answer),
    }
}

// How many lines stand in the batch that this line begins, where it begins one.
fn batch_size(alloc: Global, line: &[u8]) -> Result<Option<usize>, NoMemory>
    requires short { length line.now ≤ longest_line }
    ensures { IfOk result (λ o. MatchOption o (OpensNone line.now)
        (λ size. (0 < size) × OpensBatch line.now size)) }
{
    if line.is_empty() || line[0] != b'b' {
        return Ok(None);
    }
    match read_line(alloc, line) {
        Ok(command) => Ok(size_of(&command)),
        Err(LineError::Bad { .. }) => Ok(None),
        Err(LineError::NoMemory) => Err(NoMemory),
    }
}

// How many lines stand in the batch that the command begins, where it begins one.
fn size_of(command: &Command) -> Option<usize>
    ensures { MatchOption result ((size : ℕ) → command.now ≡ Batch size → ¬ IsInRange size)
        (λ size. IsInRange size × (command.now ≡ Batch size)) }
{
    match command {
        Command::Batch(size) => in_range(*size),
        _ => None,
    }
}

// The number of a batch, where it is one.
fn in_range(size: u64) -> Option<usize>
    ensures { MatchOption result (¬ IsInRange size) (λ n. (n ≡ size) × IsInRange size) }
{
    if size == 0 || size > 64 {
        return None;
    }
    Some(size as usize)
}
