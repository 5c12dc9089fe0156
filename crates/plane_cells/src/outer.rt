//! Whether the sides of segments lie in the outer class of a border. A segment that isn't of the border lies
//! in one class with all that is beside it, and one of the border has a class on each side.
ghost use Rattle.std.specs.Prelude.{◌↔◌, ◌++◌, IfOk, AllPairs, Contains};
ghost use Rattle.std.specs.List.{AllZip};
ghost use Rattle.grid_base.specs.Segment.{GridSegment, IsSegmentBefore};
ghost use Rattle.grid_base.specs.Border.{AreNoded};
ghost use Rattle.plane_cells.specs.ClassNumbers.{AreClassNumbers};
ghost use Rattle.plane_cells.specs.OtherNumbers.{AreOtherNumbers};
ghost use Rattle.plane_cells.specs.OuterSides.{AreOuterSides};

use crate::listing::{has, in_order, number_of, without};
use crate::numbers::{Numbers, find_numbers};
use grid_base::{NoMemory, Segment, Sides};
use segment_lists::each_is_on_grid;
use std::alloc::Global;

/// One answer a segment of the list, in its order: whether what lies beside it on its left, and on its right,
/// is in the outer class of the border. Segments of the list may be segments of the border; both may be in any
/// order, and a segment that the list has twice has the same answer both times.
pub fn outer_sides(
    alloc: Global,
    border: &[Segment],
    list: &[Segment],
) -> Result<Vec<Sides>, NoMemory>
    requires noded { AreNoded (border.now ++ list.now) }
    ensures { IfOk result (λ v. AllZip (AreOuterSides border.now) list.now v.items) }
{
    let known = in_order(alloc, border)?;
    let asked = in_order(alloc, list)?;
    each_is_on_grid(&known);
    each_is_on_grid(&asked);
    let others = without(alloc, &asked, &known)?;
    let numbers = find_numbers(alloc, &known, &others)?;
    let mut answers = Vec::new(alloc);
    for s in list {
        let sides = outer_sides_of(&known, &others, &numbers, s);
        answers.push(sides)?;
    }
    Ok(answers)
}

// The answer for one segment, of the border or of the others.
fn outer_sides_of(border: &[Segment], others: &[Segment], numbers: &Numbers, s: &Segment) -> Sides
    requires ascending { AllPairs IsSegmentBefore border.now }
    requires others_ascending { AllPairs IsSegmentBefore others.now }
    requires either { ¬ Contains border.now s.now → Contains others.now s.now }
    requires numbers { AreClassNumbers border.now numbers.now.sides.items }
    requires other_numbers { AreOtherNumbers border.now others.now numbers.now.others.items }
    ensures { AreOuterSides border.now s.now result }
{
    if has(border, s) {
        let classes = numbers.sides[number_of(border, s)];
        Sides {
            left: classes.left == 0,
            right: classes.right == 0,
        }
    } else {
        let outer = numbers.others[number_of(others, s)] == 0;
        Sides {
            left: outer,
            right: outer,
        }
    }
}
