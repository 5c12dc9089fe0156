//! Laws of the borders of classes.
ghost use Rattle.std.specs.Prelude.{◌≡◌, ◌≢◌, ◌↔◌, ◌<◌, ℕ, AllPairs, Contains, length};
ghost use Rattle.grid_base.specs.Point.{GridPoint};
ghost use Rattle.grid_base.specs.Segment.{GridSegment, IsSegmentBefore};
ghost use Rattle.grid_base.specs.Sides.{Side, Right};
ghost use Rattle.grid_base.specs.Plane.{Place};
ghost use Rattle.grid_base.specs.Border.{AreNoded, IsEvenBorder};
ghost use Rattle.grid_base.specs.Odd.{Odd};
ghost use Rattle.r_cycles.specs.Cycles.{IsCycle, CutsIntoCycles};
ghost use Rattle.plane_cells.specs.ClassNumbers.{number_at, LiesBeside, AreClassNumbers};
ghost use Rattle.class_borders.specs.ClassLinks.{class_links, class_rim, departures, arrivals};
ghost use Rattle.class_borders.specs.ClassBorders.{LiesBetween, GoesAlong, GoesOneWay};

use grid_base::{Chain, Point, Segment};
use plane_cells::SideClasses;
use segment_lists::each_is_on_grid;

/// Go along each segment that has a class on just one side, with the class on the left: then as many segments
/// are left at each point as come in there.
pub fn classes_turn_whole(border: &[Segment], numbers: &[SideClasses])
    requires noded { AreNoded border.now }
    requires ascending { AllPairs IsSegmentBefore border.now }
    requires numbers { AreClassNumbers border.now numbers.now }
    ensures { (n : ℕ) (v : GridPoint) → departures v (class_links n border.now numbers.now)
        ≡ arrivals v (class_links n border.now numbers.now) }
{
    each_is_on_grid(border);
}

/// The segments with a class on just one side are an even border. Where it isn't the outer class, what lies
/// beside a segment is odd for this border exactly where it is of the class.
pub fn rims_are_even(border: &[Segment], numbers: &[SideClasses])
    requires noded { AreNoded border.now }
    requires ascending { AllPairs IsSegmentBefore border.now }
    requires numbers { AreClassNumbers border.now numbers.now }
    ensures even { (n : ℕ) → IsEvenBorder (class_rim n border.now numbers.now) }
    ensures odd { (n i : ℕ) (d : Side) (q : Place) → n ≢ 0 → LiesBeside border.now i d q
        → (number_at numbers.now i d ≡ n) ↔ Odd (class_rim n border.now numbers.now) q }
{
    each_is_on_grid(border);
}

/// Where there are segments, one has the outer class on its right.
pub fn some_side_is_outer(border: &[Segment], numbers: &[SideClasses])
    requires noded { AreNoded border.now }
    requires ascending { AllPairs IsSegmentBefore border.now }
    requires numbers { AreClassNumbers border.now numbers.now }
    requires some { 0 < length border.now }
    ensures { (i : ℕ) × (i < length border.now) × (number_at numbers.now i Right ≡ 0) }
{
    each_is_on_grid(border);
}

/// Segments that lie all between one class and another are cut into one cycle, if they can be cut into cycles
/// at all: two cycles of them would have to be crossed to come from the one class to the other.
pub fn one_cycle_between_classes(list: &[Segment], part: &[Segment], cycles: &[Chain])
    requires noded { AreNoded list.now }
    requires part { (s : GridSegment) → Contains part.now s → Contains list.now s }
    requires between { (p : Place) × (q : Place)
        × ((s : GridSegment) → Contains part.now s → LiesBetween list.now p q s) }
    requires some { 0 < length part.now }
    requires cut { CutsIntoCycles part.now cycles.now }
    ensures { length cycles.now ≡ 1 }
{
    each_is_on_grid(part);
}

/// A cycle along the border of a class has the class always on the same hand.
pub fn cycles_go_one_way(border: &[Segment], numbers: &[SideClasses], cycle: &[Point])
    requires noded { AreNoded border.now }
    requires ascending { AllPairs IsSegmentBefore border.now }
    requires numbers { AreClassNumbers border.now numbers.now }
    requires cycle { IsCycle cycle.now }
    ensures { (n : ℕ) → GoesAlong (class_links n border.now numbers.now) cycle.now
        → GoesOneWay (class_links n border.now numbers.now) cycle.now }
{
    each_is_on_grid(border);
}
