//! What operators are answered.
ghost use Rattle.std.specs.Prelude.{IfOk};
ghost use Rattle.rose_query.specs.Results.{TellsResult};

use crate::printing::list_value;
use crate::refusals::refuse;
use grid_base::{NoMemory, Reply};
use realm_insert::Refusal;
use rose_overlay::{EvalError, EvalResult};
use std::alloc::Global;

/// The reply that lists the result, or says that the operator doesn't take the values.
pub(crate) fn list_made(alloc: Global, made: EvalResult) -> Result<Reply, NoMemory>
    ensures { IfOk result (TellsResult made) }
{
    match made {
        Ok(geometry) => list_value(alloc, &geometry),
        Err(EvalError::WrongTypes) => refuse(alloc, Refusal::Types),
        Err(EvalError::NoMemory) => Err(NoMemory),
    }
}
