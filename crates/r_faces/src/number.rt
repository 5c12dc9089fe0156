//! How many faces a region has: as many as there are numbers of classes on the odd sides of its border, since
//! each face has a side of some segment.
ghost use Rattle.std.specs.Prelude.{◌↔◌, ℕ, Contains, IfOk};
ghost use Rattle.std.specs.List.Sorted.{IsStrictlyIncreasing};
ghost use Rattle.r_faces.specs.Faces.{IsNumberOfFaces};

use crate::rims::odd_sides;
use grid_base::NoMemory;
use plane_cells::side_classes;
use plane_classes::{classes_have_one_parity, outer_class_is_even};
use plane_sweep::sides_of_list;
use rose_values::RegionsValue;
use std::alloc::Global;

/// How many faces the region has, 0 for the empty one. Parts that touch only in vertices are faces of their
/// own.
pub fn number_of_faces(alloc: Global, r: &RegionsValue) -> Result<u64, NoMemory>
    ensures { IfOk result (IsNumberOfFaces r.now) }
{
    let border = r.segments();
    outer_class_is_even(border);
    classes_have_one_parity(border);
    let classes = side_classes(alloc, border)?;
    let odd = sides_of_list(alloc, border, border)?;
    let numbers = distinct(odd_sides(alloc, border, &classes, &odd)?);
    Ok(numbers.len() as u64)
}

/// The numbers in ascending order, each once.
pub fn distinct(mut numbers: Vec<u64>) -> Vec<u64>
    ensures ascending { IsStrictlyIncreasing result.items }
    ensures same { (n : ℕ) → Contains result.items n ↔ Contains numbers.items n }
{
    numbers.sort_unstable();
    numbers.dedup();
    numbers
}
