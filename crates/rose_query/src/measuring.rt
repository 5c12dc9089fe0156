//! What numbers of values are answered.
ghost use Rattle.std.specs.Prelude.{◌≡◌, false, None, Some, IfOk};
ghost use Rattle.std.specs.Option.{option_copied};
ghost use Rattle.rose_values.specs.declared.operators.Num.TheVariants.{Area2, Dist2};
ghost use Rattle.rose_query.specs.Asking.{AnswersNum};
ghost use Rattle.rose_query.specs.Told.{TellsMeasure};

use crate::printing::list_number;
use crate::refusals::{refuse, refuse_name};
use grid_base::{NoMemory, Reply};
use line_grammar::Name;
use realm_insert::{Engine, Refusal, operands_named};
use rose_measure::{area2, components, diameter2, dist2};
use rose_values::{Geometry, Num};
use std::alloc::Global;

/// The number of the value with this name, or of both.
pub(crate) fn show_number(
    alloc: Global,
    state: &Engine,
    num: Num,
    first: &Name,
    second: Option<&Name>,
) -> Result<Reply, NoMemory>
    requires ready { state.now.spent ≡ false }
    ensures { IfOk result
        (λ reply. AnswersNum num first.now (option_copied second.entry) state.now.state reply) }
{
    match operands_named(state, first, second)? {
        Some(of) => list_measure(alloc, num, &of.first, of.second.as_ref()),
        None => refuse_name(alloc),
    }
}

// The reply that tells the number, or says that it isn't one of such values.
fn list_measure(
    alloc: Global,
    num: Num,
    first: &Geometry,
    second: Option<&Geometry>,
) -> Result<Reply, NoMemory>
    ensures { IfOk result (TellsMeasure num first.now (option_copied second.entry)) }
{
    match (num, second) {
        (Num::Area2, None) => list_area(alloc, first),
        (Num::Dist2, Some(second)) => list_distance(alloc, first, second),
        (Num::Diameter2, None) => list_number(alloc, widened(diameter2(first))),
        (Num::NoOfComponents, None) => {
            list_number(alloc, Some(u128::from(components(alloc, first)?)))
        }
        _ => refuse(alloc, Refusal::Types),
    }
}

// Twice the area of a region.
fn list_area(alloc: Global, value: &Geometry) -> Result<Reply, NoMemory>
    ensures { IfOk result (TellsMeasure Area2 value.now None) }
{
    match value {
        Geometry::R(region) => list_number(alloc, Some(area2(alloc, region)?)),
        _ => refuse(alloc, Refusal::Types),
    }
}

// The least squared distance of two values of points.
fn list_distance(alloc: Global, first: &Geometry, second: &Geometry) -> Result<Reply, NoMemory>
    ensures { IfOk result (TellsMeasure Dist2 first.now (Some second.now)) }
{
    match (first, second) {
        (Geometry::P(a), Geometry::P(b)) => list_number(alloc, widened(dist2(a, b))),
        _ => refuse(alloc, Refusal::Types),
    }
}

// The same number.
fn widened(number: Option<u64>) -> Option<u128>
    ensures { result ≡ number }
{
    match number {
        Some(n) => Some(u128::from(n)),
        None => None,
    }
}
