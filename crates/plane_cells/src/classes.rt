//! The classes of the two sides of each segment of a border.
ghost use Rattle.std.specs.Prelude.{◌≡◌, AllPairs, Contains, IfOk, length};
ghost use Rattle.grid_base.specs.Segment.{GridSegment, IsSegmentBefore};
ghost use Rattle.grid_base.specs.Border.{AreNoded};
ghost use Rattle.plane_cells.specs.ClassNumbers.{AreClassNumbers};
ghost use Rattle.plane_cells.specs.OtherNumbers.{AreNumbersOf};

use crate::listing::{in_order, number_of};
use crate::numbers::find_numbers;
use grid_base::{NoMemory, Segment};
use segment_lists::each_is_on_grid;
use std::alloc::Global;

/// The numbers of the classes just left and just right of a segment, seen from its lesser end.
#[derive(Clone, Copy, Debug, PartialEq, Eq)]
pub struct SideClasses {
    pub left: u64,
    pub right: u64,
}

/// Which class lies on the left and which on the right of each segment of the border, in the order of the list.
/// Sides share a number where they are of one class, and nowhere else; 0 stands for the outer class alone. The
/// list may be in any order, and a segment that it has twice has the same numbers both times.
pub fn side_classes(alloc: Global, border: &[Segment]) -> Result<Vec<SideClasses>, NoMemory>
    requires noded { AreNoded border.now }
    ensures { IfOk result (λ v. AreClassNumbers border.now v.items) }
{
    let ascending = in_order(alloc, border)?;
    each_is_on_grid(&ascending);
    let numbers = find_numbers(alloc, &ascending, &[])?;
    sides_of(alloc, border, &ascending, &numbers.sides)
}

// The numbers of each segment of the list, which are those that it has among the ascending ones.
fn sides_of(
    alloc: Global,
    list: &[Segment],
    ascending: &[Segment],
    sides: &[SideClasses],
) -> Result<Vec<SideClasses>, NoMemory>
    requires ascending { AllPairs IsSegmentBefore ascending.now }
    requires there { (s : GridSegment) → Contains list.now s → Contains ascending.now s }
    requires one_each { length sides.now ≡ length ascending.now }
    ensures { IfOk result (λ v. AreNumbersOf ascending.now sides.now list.now v.items) }
{
    let mut found = Vec::new(alloc);
    for s in list {
        let place = number_of(ascending, s);
        found.push(sides[place])?;
    }
    Ok(found)
}
