//! What operators on lists of values are answered.
ghost use Rattle.std.specs.Prelude.{◌≡◌, false, IfOk};
ghost use Rattle.rose_query.specs.Sets.{AnswersSum, AnswersDecompose, AnswersOverlay, AnswersFusion};
ghost use Rattle.rose_query.specs.Replies.{pairs_reply};
ghost use Rattle.rose_query.specs.ToldSets.{TellsSet, IsRefused, ListsSum, ListsParts, ListsGroups};

use crate::listing::{list_groups, list_pairs, list_parts};
use crate::naming::{keys, value_named, values_keyed, values_named};
use crate::printing::list_value;
use crate::refusals::{refuse, refuse_name};
use grid_base::{NoMemory, Reply};
use line_grammar::{KeyedNames, Name, Names};
use realm_insert::{Engine, Refusal};
use rose_sets::{Group, Pair, SetError, decompose, fusion, overlay, sum};
use rose_values::Geometry;
use std::alloc::Global;

/// What at least one of the values with these names has.
pub(crate) fn show_sum(alloc: Global, state: &Engine, names: &Names) -> Result<Reply, NoMemory>
    requires ready { state.now.spent ≡ false }
    ensures { IfOk result (λ reply. AnswersSum names.now state.now.state reply) }
{
    // What is drawn is a realm, and each value is made of it.
    let _ = state.drawing();
    match values_named(alloc, state, names.names())? {
        Some(list) => list_sum(alloc, sum(alloc, &list)),
        None => refuse_name(alloc),
    }
}

// The reply that lists the sum, or says that the values are of different kinds.
fn list_sum(alloc: Global, made: Result<Geometry, SetError>) -> Result<Reply, NoMemory>
    ensures { IfOk result (TellsSet ListsSum made) }
{
    match made {
        Ok(geometry) => list_value(alloc, &geometry),
        Err(error) => refuse_set(alloc, error),
    }
}

/// The parts of the value with this name.
pub(crate) fn show_parts(alloc: Global, state: &Engine, name: &Name) -> Result<Reply, NoMemory>
    requires ready { state.now.spent ≡ false }
    ensures { IfOk result (λ reply. AnswersDecompose name.now state.now.state reply) }
{
    match value_named(state, name)? {
        Some(value) => tell_parts(alloc, &value),
        None => refuse_name(alloc),
    }
}

// The reply that lists the parts of the value.
fn tell_parts(alloc: Global, value: &Geometry) -> Result<Reply, NoMemory>
    ensures { IfOk result (ListsParts value.now) }
{
    let parts = decompose(alloc, value)?;
    list_parts(alloc, &parts)
}

/// Which regions with names of the first list overlap which ones of the second, and where.
pub(crate) fn show_overlay(
    alloc: Global,
    state: &Engine,
    first: &Names,
    second: &Names,
) -> Result<Reply, NoMemory>
    requires ready { state.now.spent ≡ false }
    ensures { IfOk result (λ reply. AnswersOverlay first.now second.now state.now.state reply) }
{
    // What is drawn is a realm, and each value is made of it.
    let _ = state.drawing();
    let Some(a) = values_named(alloc, state, first.names())? else {
        return refuse_name(alloc);
    };
    let Some(b) = values_named(alloc, state, second.names())? else {
        return refuse_name(alloc);
    };
    tell_pairs(alloc, overlay(alloc, &a, &b))
}

// The reply that lists the pairs, or says that a value is no region.
fn tell_pairs(alloc: Global, made: Result<Vec<Pair>, SetError>) -> Result<Reply, NoMemory>
    ensures { IfOk result (TellsSet (λ v reply. reply ≡ pairs_reply v.items) made) }
{
    match made {
        Ok(pairs) => list_pairs(alloc, &pairs),
        Err(error) => refuse_set(alloc, error),
    }
}

/// The different keys, each with what at least one of the values that have it has.
pub(crate) fn show_fusion(
    alloc: Global,
    state: &Engine,
    entries: &KeyedNames,
) -> Result<Reply, NoMemory>
    requires ready { state.now.spent ≡ false }
    ensures { IfOk result (λ reply. AnswersFusion entries.now state.now.state reply) }
{
    // What is drawn is a realm, and each value is made of it.
    let _ = state.drawing();
    let entries = entries.names();
    match values_keyed(alloc, state, entries)? {
        Some(list) => {
            let keys = keys(alloc, entries)?;
            tell_groups(alloc, fusion(alloc, &list, &keys))
        }
        None => refuse_name(alloc),
    }
}

// The reply that lists the groups, or says that the values are of different kinds.
fn tell_groups(alloc: Global, made: Result<Vec<Group>, SetError>) -> Result<Reply, NoMemory>
    ensures { IfOk result (TellsSet (λ v reply. ListsGroups v.items reply) made) }
{
    match made {
        Ok(groups) => list_groups(alloc, &groups),
        Err(error) => refuse_set(alloc, error),
    }
}

// The reply where an operator doesn't take the values.
fn refuse_set(alloc: Global, error: SetError) -> Result<Reply, NoMemory>
    ensures { IfOk result (IsRefused error) }
{
    match error {
        SetError::WrongTypes => refuse(alloc, Refusal::Types),
        SetError::NoMemory => Err(NoMemory),
    }
}
