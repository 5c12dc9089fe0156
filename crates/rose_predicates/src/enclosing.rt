//! Areas in the outer class of another border. A way that stays in the outer class would come to an area over
//! one of its sides, so it is enough to look at the sides.
ghost use Rattle.std.specs.Prelude.{◌≡◌, ◌↔◌, ◌++◌, ◌&&◌, ◌||◌, IfOk, IsTrue, List, length};
ghost use Rattle.grid_base.specs.Segment.{GridSegment};
ghost use Rattle.grid_base.specs.Odd.{AreSides};
ghost use Rattle.grid_base.specs.Plane.{Place};
ghost use Rattle.grid_base.specs.Border.{AreNoded};
ghost use Rattle.rose_values.specs.Areas.{IsInteriorPoint};
ghost use Rattle.rose_values.specs.Border.{IsBorder};
ghost use Rattle.plane_classes.specs.Classes.{IsOuter};
ghost use Rattle.plane_sweep.specs.Told.{AreAllSides};
ghost use Rattle.rose_predicates.specs.Closing.{HasOpenSide, NoneIsOpen};

use grid_base::{NoMemory, Segment, Sides};
use plane_cells::outer_sides;
use plane_sweep::sides_of_list;
use rose_overlay::lesser_ends_first;
use std::alloc::Global;

// Whether the border of the first shuts in all that is interior to the second.
pub(crate) fn is_shut_in(
    alloc: Global,
    border: &[Segment],
    inner: &[Segment],
) -> Result<bool, NoMemory>
    requires noded { AreNoded (border.now ++ inner.now) }
    requires first { IsBorder border.now }
    requires second { IsBorder inner.now }
    ensures { IfOk result (λ answer. IsTrue answer
        ↔ ((q : Place) → IsInteriorPoint inner.now q → ¬ IsOuter border.now q)) }
{
    lesser_ends_first(border);
    lesser_ends_first(inner);
    let outer = outer_sides(alloc, border, inner)?;
    let odd = own_sides(alloc, inner)?;
    Ok(none_is_open(inner, &odd, &outer))
}

// The sides of each segment of the border, in order.
fn own_sides(alloc: Global, border: &[Segment]) -> Result<Vec<Sides>, NoMemory>
    requires border { IsBorder border.now }
    ensures { IfOk result (λ v. AreAllSides border.now border.now v.items) }
{
    sides_of_list(alloc, border, border)
}

// Whether no segment has a side that is odd for the border and told to be outer.
fn none_is_open(border: &[Segment], odd: &[Sides], outer: &[Sides]) -> bool
    requires odd { AreAllSides border.now border.now odd.now }
    requires odd_each { length odd.now ≡ length border.now }
    requires one_each { length outer.now ≡ length border.now }
    ensures { IsTrue result ↔ NoneIsOpen border.now outer.now (length border.now) }
{
    for i in 0..border.len() {
        let (own, told) = (odd[i], outer[i]);
        if is_open(&own, &told) {
            return false;
        }
    }
    true
}

// Whether a side of the segment with these sides is odd for the border and told to be outer.
fn is_open(odd: &Sides, outer: &Sides) -> bool
    ensures { (border : List GridSegment) (s : GridSegment) → AreSides border s odd.now
        → (IsTrue result ↔ HasOpenSide border s outer.now) }
{
    both_of_either(odd.left, outer.left, odd.right, outer.right)
}

fn both_of_either(odd_left: bool, outer_left: bool, odd_right: bool, outer_right: bool) -> bool
    ensures { result ≡ ((odd_left && outer_left) || (odd_right && outer_right)) }
{
    (odd_left && outer_left) || (odd_right && outer_right)
}
