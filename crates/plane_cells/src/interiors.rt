//! The interior of lines. A segment is of its border exactly where just one of its sides is outer.
ghost use Rattle.std.specs.Prelude.{◌≡◌, length, IfOk};
ghost use Rattle.rose_values.specs.Areas.{IsRegionWhere};
ghost use Rattle.plane_classes.specs.Classes.{IsOuter};
ghost use Rattle.plane_cells.specs.Rims.{is_rim, rims};

use crate::classes::SideClasses;
use crate::numbers::find_numbers;
use grid_base::{NoMemory, Segment};
use rose_values::{LinesValue, RegionsValue};
use segment_lists::each_is_on_grid;
use std::alloc::Global;

/// The region of all places that aren't in the outer class of the lines. Its border is made of segments of
/// the lines; lines that shut nothing in have the empty region.
pub fn interior(alloc: Global, lines: &LinesValue) -> Result<RegionsValue, NoMemory>
    ensures { IfOk result (λ r. IsRegionWhere lines.now (λ q. ¬ IsOuter lines.now q) r) }
{
    let border = lines.segments();
    each_is_on_grid(border);
    let numbers = find_numbers(alloc, border, &[])?;
    let list = rims_of(alloc, border, &numbers.sides)?;
    Ok(RegionsValue::new(list))
}

// The segments that have the outer class on just one side.
fn rims_of(
    alloc: Global,
    border: &[Segment],
    numbers: &[SideClasses],
) -> Result<Vec<Segment>, NoMemory>
    requires { length numbers.now ≡ length border.now }
    ensures { IfOk result (λ v. v.items ≡ rims border.now numbers.now) }
{
    let mut list = Vec::new(alloc);
    for i in 0..border.len() {
        if has_one_outer(&numbers[i]) {
            list.push(border[i])?;
        }
    }
    Ok(list)
}

// Whether just one of the two numbers is that of the outer class.
fn has_one_outer(numbers: &SideClasses) -> bool
    ensures { result ≡ is_rim numbers.now }
{
    if numbers.left == 0 {
        numbers.right != 0
    } else {
        numbers.right == 0
    }
}
