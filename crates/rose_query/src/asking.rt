//! What predicates are answered. What values are made of is drawn, so no point of one is inside a segment of
//! another.
ghost use Rattle.std.specs.Prelude.{◌≡◌, false, IfOk};
ghost use Rattle.rose_query.specs.Asking.{AnswersAsk};
ghost use Rattle.rose_query.specs.Told.{TellsAnswer};

use crate::printing::list_truth;
use crate::refusals::{refuse, refuse_name};
use grid_base::{NoMemory, Reply};
use line_grammar::Name;
use realm_insert::{Engine, Refusal, operands_named};
use rose_predicates::{HoldsError, holds};
use rose_values::Pred;
use std::alloc::Global;

/// Whether the predicate is true of the values with these names, in this order.
pub(crate) fn show_truth(
    alloc: Global,
    state: &Engine,
    pred: Pred,
    first: &Name,
    second: &Name,
) -> Result<Reply, NoMemory>
    requires ready { state.now.spent ≡ false }
    ensures { IfOk result (λ reply. AnswersAsk pred first.now second.now state.now.state reply) }
{
    // What is drawn is a realm, and each value is made of it.
    let _ = state.drawing();
    let _ = state.table();
    let Some(of) = operands_named(state, first, Some(second))? else {
        return refuse_name(alloc);
    };
    match &of.second {
        Some(other) => list_answer(alloc, holds(alloc, pred, &of.first, other)),
        None => refuse_name(alloc),
    }
}

// The reply that tells the answer, or says that the predicate doesn't take the values.
fn list_answer(alloc: Global, told: Result<bool, HoldsError>) -> Result<Reply, NoMemory>
    ensures { IfOk result (TellsAnswer told) }
{
    match told {
        Ok(answer) => list_truth(alloc, answer),
        Err(HoldsError::WrongTypes) => refuse(alloc, Refusal::Types),
        Err(HoldsError::NoMemory) => Err(NoMemory),
    }
}
