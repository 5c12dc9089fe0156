//! The rims of the faces of a region: for each face the segments that have it on one side.
ghost use Rattle.std.specs.Prelude.{◌≡◌, ℕ, ◌<◌, if◌then◌else◌, All, AllPairs, Any, Contains};
ghost use Rattle.std.specs.Prelude.{IfOk, length, slice_index_or};
ghost use Rattle.std.specs.List.{AllZip};
ghost use Rattle.grid_base.specs.Segment.{GridSegment, IsSegmentBefore};
ghost use Rattle.grid_base.specs.Plane.{Place};
ghost use Rattle.grid_base.specs.Border.{AreNoded, IsEvenBorder};
ghost use Rattle.grid_base.specs.Odd.{AreSides};
ghost use Rattle.rose_values.specs.Areas.{IsInteriorPoint};
ghost use Rattle.plane_cells.specs.ClassNumbers.{AreClassNumbers};
ghost use Rattle.r_faces.specs.Rims.{IsFaceRim, IsSomeRim, HaveNone, AreOddSides};

use crate::parts::parted;
use grid_base::{NoMemory, Segment, Sides};
use plane_cells::{SideClasses, side_classes};
use plane_sweep::sides_of_list;
use segment_lists::each_is_on_grid;
use std::alloc::Global;

// For each face its rim.
pub(crate) fn rims_of(alloc: Global, border: &[Segment]) -> Result<Vec<Vec<Segment>>, NoMemory>
    requires noded { AreNoded border.now }
    requires ascending { AllPairs IsSegmentBefore border.now }
    requires even { IsEvenBorder border.now }
    ensures only { IfOk result (λ v. All (λ rim. IsSomeRim border.now rim.items) v.items) }
    ensures each { IfOk result (λ v. (z : Place) → IsInteriorPoint border.now z
        → Any (λ rim. IsFaceRim border.now rim.items z) v.items) }
    ensures apart { IfOk result (λ v. AllPairs (λ r s. HaveNone r.items s.items) v.items) }
{
    each_is_on_grid(border);
    let classes = side_classes(alloc, border)?;
    let odd = sides_of_list(alloc, border, border)?;
    let numbers = odd_sides(alloc, border, &classes, &odd)?;
    let parts = parted(alloc, border, &numbers)?;
    Ok(parts.lists)
}

/// For each segment of a border the number of the class on its odd side, where `classes` numbers the classes
/// on both sides of each segment, and `odd` says which of them are odd.
pub fn odd_sides(
    alloc: Global,
    border: &[Segment],
    classes: &[SideClasses],
    odd: &[Sides],
) -> Result<Vec<u64>, NoMemory>
    requires noded { AreNoded border.now }
    requires ascending { AllPairs IsSegmentBefore border.now }
    requires even { IsEvenBorder border.now }
    requires classes { AreClassNumbers border.now classes.now }
    requires odd { AllZip (AreSides border.now) border.now odd.now }
    ensures { IfOk result (λ v. AreOddSides border.now classes.now (length border.now) v.items) }
{
    each_is_on_grid(border);
    let mut numbers = Vec::new(alloc);
    for i in 0..border.len() {
        numbers.push(on_side(classes[i], odd[i]))?;
    }
    Ok(numbers)
}

// The number of the left side where that is odd, and else of the right side.
fn on_side(class: SideClasses, odd: Sides) -> u64
    ensures { result ≡ (if odd.left then class.left else class.right) }
{
    if odd.left { class.left } else { class.right }
}
