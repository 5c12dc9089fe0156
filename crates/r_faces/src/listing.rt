//! The faces of a region, by their cycles.
ghost use Rattle.std.specs.Prelude.{All, IfOk};
ghost use Rattle.std.specs.List.{AllZip};
ghost use Rattle.r_faces.specs.FaceCycles.{AreFaces};
ghost use Rattle.r_faces.specs.Rims.{IsSomeRim, IsWithin};

use crate::bounds::face_of;
use crate::face::Face;
use crate::ordering::faces_in_order;
use crate::rims::rims_of;
use grid_base::{NoMemory, Segment};
use rose_values::RegionsValue;
use segment_lists::each_is_on_grid;
use std::alloc::Global;

/// The faces of the region, each once, in the order of their outer cycles; a face has one hole for each part
/// of the plane that it encloses. Cycles begin at their least vertices and have the face on the left; each
/// vertex on them is written, also where they go straight on.
pub fn faces(alloc: Global, r: &RegionsValue) -> Result<Vec<Face>, NoMemory>
    ensures { IfOk result (λ v. AreFaces r.now v.items) }
{
    let border = r.segments();
    each_is_on_grid(border);
    let rims = rims_of(alloc, border)?;
    let faces = faces_of(alloc, border, &rims)?;
    faces_in_order(faces)
}

// The face inside each rim.
fn faces_of(alloc: Global, border: &[Segment], rims: &[Vec<Segment>]) -> Result<Vec<Face>, NoMemory>
    requires rims { All (λ rim. IsSomeRim border.now rim.items) rims.now }
    ensures { IfOk result (λ v. AllZip (λ rim f. IsWithin rim.items f) rims.now v.items) }
{
    let mut faces = Vec::new(alloc);
    for k in 0..rims.len() {
        faces.push(face_of(alloc, &rims[k])?)?;
    }
    Ok(faces)
}
