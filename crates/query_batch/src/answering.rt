//! What the lines of a batch are answered, each in a thread of its own.
ghost use Rattle.std.specs.Prelude.{◌≡◌, ◌<◌, false, length, slice_index_or, None, IfOk};
ghost use Rattle.query_batch.specs.Joined.{AreJoined};
ghost use Rattle.query_batch.specs.Answers.{TellsCommand, TellsText, TellsLine};

use crate::gate::Gate;
use crate::joining::joined;
use crate::line::Line;
use crate::refusals::{refuse_in_batch, refuse_long, refuse_text};
use grid_base::{NoMemory, Reply};
use line_grammar::{Command, LineError, read_line};
use realm_insert::Engine;
use rose_query::answer_alone;
use side_parallel::{Jobs, answer_all};
use std::alloc::Global;
use std::thread::Threads;

/// What these lines are answered, one after another, in one reply. A line that is too long is none here.
/// Each line is a job with its place as its number, in a thread of its own where there are several.
pub fn answer_batch<R: Threads + Sync, G: Gate>(
    rt: &R,
    alloc: Global,
    gate: &G,
    state: &Engine,
    lines: &[Option<Line>],
) -> Result<Reply, NoMemory>
    requires ready { state.now.spent ≡ false }
    ensures answer { IfOk result
        (λ reply. AreJoined (TellsLine state.now.state) lines.now reply) }
{
    let batch = Batch {
        alloc,
        gate,
        state,
        lines,
    };
    if lines.len() == 1 {
        return batch.answer(0);
    }
    let replies = answer_all(rt, alloc, &batch, lines.len())?;
    joined(alloc, &replies)
}

// The lines of a batch, each a job that passes the gate.
#[derive_where(Clone, Copy)]
struct Batch<'a, G> {
    alloc: Global,
    gate: &'a G,
    state: &'a Engine,
    lines: &'a [Option<Line>],
}

impl<'a, G: Gate> Jobs for Batch<'a, G> {
    ghost is_job = { λ batch k. (batch.state.now.spent ≡ false) × (k < length batch.lines.now) };

    ghost is_text = { λ batch k reply.
        TellsLine batch.state.now.state (slice_index_or batch.lines.now k None) reply };

    // Answers the line between the two calls of the gate.
    fn answer(&self, k: usize) -> Result<Reply, NoMemory> {
        self.gate.enter(k);
        let reply = answer_line(self.alloc, self.state, &self.lines[k]);
        self.gate.leave(k);
        reply
    }
}

fn answer_line(alloc: Global, state: &Engine, line: &Option<Line>) -> Result<Reply, NoMemory>
    requires ready { state.now.spent ≡ false }
    ensures { IfOk result (λ reply. TellsLine state.now.state line.now reply) }
{
    match line {
        Some(line) => answer_text(alloc, state, line.bytes()),
        None => refuse_long(alloc),
    }
}

fn answer_text(alloc: Global, state: &Engine, text: &[u8]) -> Result<Reply, NoMemory>
    requires ready { state.now.spent ≡ false }
    ensures { IfOk result (λ reply. TellsText state.now.state text.now reply) }
{
    match read_line(alloc, text) {
        Ok(command) => answer_command(alloc, state, &command),
        Err(LineError::Bad { at }) => refuse_text(alloc, at),
        Err(LineError::NoMemory) => Err(NoMemory),
    }
}

fn answer_command(alloc: Global, state: &Engine, command: &Command) -> Result<Reply, NoMemory>
    requires ready { state.now.spent ≡ false }
    ensures { IfOk result (λ reply. TellsCommand command.now state.now.state reply) }
{
    match command {
        Command::Query(query) => answer_alone(alloc, state, query),
        _ => refuse_in_batch(alloc),
    }
}
