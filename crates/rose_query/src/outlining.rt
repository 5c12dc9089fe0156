//! What `faces` is answered.
ghost use Rattle.std.specs.Prelude.{◌≡◌, false, IfOk};
ghost use Rattle.line_grammar.specs.declared.command.Query.TheVariants.{Faces};
ghost use Rattle.rose_query.specs.Answers.{AnswersQuery};
ghost use Rattle.rose_query.specs.Told.{ListsFaces, TellsFaces};

use crate::printing::list_faces;
use crate::refusals::{refuse, refuse_name};
use grid_base::{NoMemory, Reply};
use line_grammar::Name;
use r_faces::faces;
use realm_insert::{Engine, Refusal};
use rose_values::{Geometry, RegionsValue};
use std::alloc::Global;

/// The faces of the value with this name.
pub(crate) fn show_faces(alloc: Global, state: &Engine, name: &Name) -> Result<Reply, NoMemory>
    requires ready { state.now.spent ≡ false }
    ensures { IfOk result (λ reply. AnswersQuery (Faces name.now) state.now.state reply) }
{
    match state.geometry(name.text()) {
        Ok(Some(geometry)) => tell_faces(alloc, &geometry),
        Ok(None) => refuse_name(alloc),
        Err(NoMemory) => Err(NoMemory),
    }
}

// The reply that lists the faces of the value, or says that it is no region.
fn tell_faces(alloc: Global, value: &Geometry) -> Result<Reply, NoMemory>
    ensures { IfOk result (TellsFaces value.now) }
{
    match value {
        Geometry::R(region) => tell_region(alloc, region),
        _ => refuse(alloc, Refusal::Types),
    }
}

// The same for a region, whose border ascends.
fn tell_region(alloc: Global, region: &RegionsValue) -> Result<Reply, NoMemory>
    ensures { IfOk result (ListsFaces region.now) }
{
    // That the border ascends is known where it is asked for.
    let _ascending = region.segments();
    let found = faces(alloc, region)?;
    list_faces(alloc, &found)
}
