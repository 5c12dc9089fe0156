//! What queries are answered. They read the engine and no file.
ghost use Rattle.std.specs.Prelude.{◌≡◌, ◌↔◌, false, IfOk, IfSome, IsNone};
ghost use Rattle.hook_chain.specs.Ids.{LacksId, IsChainOf};
ghost use Rattle.line_grammar.specs.declared.command.Query.TheVariants.{Realm, Show, Chain, Trace};
ghost use Rattle.rose_query.specs.Answers.{AnswersQuery};

use crate::asking::show_truth;
use crate::evaluating::list_made;
use crate::gathering::{show_fusion, show_overlay, show_parts, show_sum};
use crate::measuring::show_number;
use crate::outlining::show_faces;
use crate::printing::{list_chain, list_realm, list_trace, list_value};
use crate::refusals::{refuse, refuse_name};
use grid_base::{NoMemory, Point, Reply};
use line_grammar::{Name, Query};
use realm_insert::{Engine, Refusal, operands_named, operands_side_by_side};
use rose_operators::{operate, operate_alone};
use std::alloc::Global;
use std::thread::Threads;

/// What the query is answered, its refusals among it. The state stays as it is.
pub fn answer<R: Threads + Sync>(
    rt: &R,
    alloc: Global,
    state: &Engine,
    q: &Query,
) -> Result<Reply, NoMemory>
    requires ready { state.now.spent ≡ false }
    ensures answer { IfOk result (λ reply. AnswersQuery q.now state.now.state reply) }
{
    match q {
        Query::Eval(op, first, second) => {
            match operands_side_by_side(rt, state, first, second.as_ref())? {
                Some(of) => list_made(
                    alloc,
                    operate(rt, alloc, *op, &of.first, of.second.as_ref()),
                ),
                None => refuse_name(alloc),
            }
        }
        _ => answer_alone(alloc, state, q),
    }
}

/// The same on one thread.
pub fn answer_alone(alloc: Global, state: &Engine, q: &Query) -> Result<Reply, NoMemory>
    requires ready { state.now.spent ≡ false }
    ensures answer { IfOk result (λ reply. AnswersQuery q.now state.now.state reply) }
{
    match q {
        Query::Realm => show_realm(alloc, state),
        Query::Show(name) => show_value(alloc, state, name),
        Query::Chain(id) => show_chain(alloc, state, *id),
        Query::Eval(op, first, second) => match operands_named(state, first, second.as_ref())? {
            Some(of) => list_made(
                alloc,
                operate_alone(alloc, *op, &of.first, of.second.as_ref()),
            ),
            None => refuse_name(alloc),
        },
        Query::Trace(number) => show_trace(alloc, state, *number),
        Query::Ask(pred, first, second) => show_truth(alloc, state, *pred, first, second),
        Query::Num(num, first, second) => show_number(alloc, state, *num, first, second.as_ref()),
        Query::Faces(name) => show_faces(alloc, state, name),
        Query::Sum(names) => show_sum(alloc, state, names),
        Query::Decompose(name) => show_parts(alloc, state, name),
        Query::Overlay(first, second) => show_overlay(alloc, state, first, second),
        Query::Fusion(entries) => show_fusion(alloc, state, entries),
    }
}

fn show_realm(alloc: Global, state: &Engine) -> Result<Reply, NoMemory>
    requires ready { state.now.spent ≡ false }
    ensures { IfOk result (λ reply. AnswersQuery Realm state.now.state reply) }
{
    let drawing = state.drawing();
    let points = drawing.points()?;
    let pieces = drawing.pieces()?;
    list_realm(alloc, points.as_slice(), pieces.as_slice())
}

fn show_value(alloc: Global, state: &Engine, name: &Name) -> Result<Reply, NoMemory>
    requires ready { state.now.spent ≡ false }
    ensures { IfOk result (λ reply. AnswersQuery (Show name.now) state.now.state reply) }
{
    match state.geometry(name.text()) {
        Ok(Some(geometry)) => list_value(alloc, &geometry),
        Ok(None) => refuse_name(alloc),
        Err(NoMemory) => Err(NoMemory),
    }
}

fn show_chain(alloc: Global, state: &Engine, id: u64) -> Result<Reply, NoMemory>
    requires ready { state.now.spent ≡ false }
    ensures { IfOk result (λ reply. AnswersQuery (Chain id) state.now.state reply) }
{
    match chain(state, id) {
        Some(points) => list_chain(alloc, points),
        None => refuse(alloc, Refusal::NoId),
    }
}

// The chain of the original with this id. Each id is below 2^32.
fn chain(state: &Engine, id: u64) -> Option<&[Point]>
    requires ready { state.now.spent ≡ false }
    ensures none { IsNone result ↔ LacksId state.now.state.drawing.originals id }
    ensures chain { IfSome result (λ points. IsChainOf state.now.state.drawing id points.now) }
{
    let drawing = state.drawing();
    match u32::try_from(id) {
        Ok(id) => drawing.chain(id),
        Err(_) => None,
    }
}

fn show_trace(alloc: Global, state: &Engine, number: u64) -> Result<Reply, NoMemory>
    requires ready { state.now.spent ≡ false }
    ensures { IfOk result (λ reply. AnswersQuery (Trace number) state.now.state reply) }
{
    match state.trace(number) {
        Some(steps) => list_trace(alloc, steps),
        None => refuse(alloc, Refusal::NoTrace),
    }
}
