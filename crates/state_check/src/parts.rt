//! Whether a drawing has the parts of a value.
ghost use Rattle.std.specs.Prelude.{◌≡◌, ◌↔◌, IsTrue, IfOk, All, Contains};
ghost use Rattle.value_geometry.specs.Parts.{HasParts, HasOriginals, HasEvenOriginals};
ghost use Rattle.state_check.specs.Tabled.{parts_of};

use crate::ends::ends_of;
use crate::pairs::is_even;
use grid_base::{Kind, NoMemory, Point};
use realm_drawing::Drawing;
use record_codec::{KeptParts, KeptValue};
use std::alloc::Global;

// Whether the drawing has the parts of the value: explicit points, or originals, those of a region even at each point as they
// were given.
pub(crate) fn has_parts(alloc: Global, drawing: &Drawing, v: &KeptValue) -> Result<bool, NoMemory>
    ensures { IfOk result (λ has. IsTrue has
        ↔ HasParts drawing.now.drawing v.now.kind (parts_of v.now.parts)) }
{
    match &v.parts {
        KeptParts::Points(list) => match v.kind {
            Kind::Points => Ok(are_explicit(drawing, list.items())),
            Kind::Lines | Kind::Regions => Ok(false),
        },
        KeptParts::Ids(list) => match v.kind {
            Kind::Points => Ok(false),
            Kind::Lines => are_there(alloc, drawing, list.items()),
            Kind::Regions => are_even(alloc, drawing, list.items()),
        },
    }
}

fn are_explicit(drawing: &Drawing, points: &[Point]) -> bool
    ensures { IsTrue result ↔ All (Contains drawing.now.drawing.points) points.now }
{
    for p in points {
        if !drawing.is_explicit(p) {
            return false;
        }
    }
    true
}

fn are_there(alloc: Global, drawing: &Drawing, ids: &[u32]) -> Result<bool, NoMemory>
    ensures { IfOk result (λ has. IsTrue has ↔ HasOriginals drawing.now.drawing ids.now) }
{
    Ok(ends_of(alloc, drawing, ids)?.is_some())
}

fn are_even(alloc: Global, drawing: &Drawing, ids: &[u32]) -> Result<bool, NoMemory>
    ensures { IfOk result (λ has. IsTrue has ↔ HasEvenOriginals drawing.now.drawing ids.now) }
{
    // That ids rise is known where a chain is asked for.
    let _rising = drawing.chain(0);
    match ends_of(alloc, drawing, ids)? {
        Some(ends) => Ok(is_even(ends)),
        None => Ok(false),
    }
}
