//! Laws of classes. A class is made of cells that are joined over walls. By these laws walls don't matter:
//! straight ways alone decide what is in one class.
ghost use Rattle.std.specs.Prelude.{◌≢◌, ◌↔◌, ◌<◌, ◌∷◌, List, All, AllPairs, Contains, map};
ghost use Rattle.grid_base.specs.Grid.{grid_side};
ghost use Rattle.grid_base.specs.Point.{IsBefore};
ghost use Rattle.grid_base.specs.Segment.{GridSegment, IsSegmentBefore};
ghost use Rattle.grid_base.specs.Sides.{Side, Left, On, Right};
ghost use Rattle.grid_base.specs.Plane.{Place, IsFree, IsFreeWay, IsBeside};
ghost use Rattle.grid_base.specs.Border.{AreNoded, IsEvenBorder};
ghost use Rattle.grid_base.specs.Odd.{Odd};
ghost use Rattle.plane_classes.specs.Classes.{AreInOneClass, WaysLead, AreAcross};
ghost use Rattle.plane_classes.specs.Classes.{IsLeftOfAll, IsOuter};
ghost use Rattle.plane_classes.specs.Shear.{sheared, sheared_place};

use grid_base::Segment;

/// A straight way that meets no segment stays in one class, however many walls it passes.
pub fn straight_ways_stay(list: &[Segment])
    ensures { (p q : Place) → IsFreeWay list.now p q → AreInOneClass list.now p q }
{}

/// Two places are in one class exactly where straight ways that meet no segment lead from one to the other.
pub fn straight_ways_decide(list: &[Segment])
    ensures { (p q : Place) → AreInOneClass list.now p q
        ↔ ((over : List Place) × WaysLead list.now p over q) }
{}

/// Places that are in one class are so for fewer segments too.
pub fn fewer_segments_part_less(list: &[Segment], fewer: &[Segment])
    requires { (s : GridSegment) → Contains fewer.now s → Contains list.now s }
    ensures { (p q : Place) → AreInOneClass list.now p q → AreInOneClass fewer.now p q }
{}

/// The shear that sets columns `grid_side` apart takes classes to classes: two free places are in one class
/// exactly where their images are in one class of the sheared segments.
pub fn shear_keeps_classes(list: &[Segment])
    ensures { (p q : Place) → IsFree list.now p → IsFree list.now q → AreInOneClass list.now p q
        ↔ AreInOneClass (map (sheared grid_side) list.now)
        (sheared_place grid_side p) (sheared_place grid_side q) }
{
    each_is_in_range(list);
}

/// To be in one class is the same for both places, and goes on from place to place; each free place is in
/// one class with itself.
pub fn class_is_equivalence(list: &[Segment])
    ensures itself { (p : Place) → IsFree list.now p → AreInOneClass list.now p p }
    ensures back { (p q : Place) → AreInOneClass list.now p q → AreInOneClass list.now q p }
    ensures on { (p q r : Place) → AreInOneClass list.now p q → AreInOneClass list.now q r
        → AreInOneClass list.now p r }
{}

/// The places of one class of an even border are all odd, or all even.
pub fn classes_have_one_parity(border: &[Segment])
    requires even { IsEvenBorder border.now }
    ensures { (p q : Place) → AreInOneClass border.now p q → Odd border.now p ↔ Odd border.now q }
{
    each_is_in_range(border);
}

/// The places beside a segment on one side, with no segment of the border between, are all odd or all even.
pub fn sides_have_one_parity(border: &[Segment], s: &Segment)
    requires noded { AreNoded (s.now ∷ border.now) }
    requires even { IsEvenBorder border.now }
    ensures { (d : Side) (p q : Place) → d ≢ On → IsBeside border.now s.now d p
        → IsBeside border.now s.now d q → Odd border.now p ↔ Odd border.now q }
{
    each_is_in_range(border);
    let _lesser = s.a();
}

/// Of the two sides of a segment of a border exactly one is odd.
pub fn one_side_is_odd(border: &[Segment], s: &Segment)
    requires noded { AreNoded border.now }
    requires even { IsEvenBorder border.now }
    requires ascending { AllPairs IsSegmentBefore border.now }
    requires there { Contains border.now s.now }
    ensures { (p q : Place) → IsBeside border.now s.now Left p → IsBeside border.now s.now Right q
        → Odd border.now p ↔ (Odd border.now q → ⊥) }
{
    each_is_in_range(border);
    let _lesser = s.a();
}

/// The border between two classes can't be cut in two even parts: where `s` and `t` both have one class on
/// one side and another on the other, an even part that has `t` has `s`.
pub fn even_parts_are_whole(list: &[Segment], part: &[Segment], s: &Segment, t: &Segment)
    requires noded { AreNoded list.now }
    requires part { (u : GridSegment) → Contains part.now u → Contains list.now u }
    requires even { IsEvenBorder part.now }
    requires ascending { AllPairs IsSegmentBefore part.now }
    requires there { Contains list.now s.now × Contains list.now t.now }
    ensures { (p q v w : Place) → AreAcross list.now s.now p q → AreAcross list.now t.now v w
        → AreInOneClass list.now p v → AreInOneClass list.now q w → Contains part.now t.now
        → Contains part.now s.now }
{
    each_is_in_range(part);
    let _lesser_of_s = s.a();
    let _lesser_of_t = t.a();
}

/// The shear keeps which free places are odd for an even border.
pub fn shear_keeps_parity(border: &[Segment])
    requires even { IsEvenBorder border.now }
    ensures { (q : Place) → IsFree border.now q → Odd border.now q
        ↔ Odd (map (sheared grid_side) border.now) (sheared_place grid_side q) }
{
    each_is_in_range(border);
}

/// Some place lies left of all segments; what is in one class with such a place is the one outer class.
pub fn outer_class_is_one(list: &[Segment])
    ensures some { (p : Place) × IsLeftOfAll list.now p }
    ensures one { (p q : Place) → IsOuter list.now p → IsOuter list.now q → AreInOneClass list.now p q }
    ensures on { (p q : Place) → IsOuter list.now p → AreInOneClass list.now p q → IsOuter list.now q }
{}

/// No place of the outer class of an even border is odd.
pub fn outer_class_is_even(border: &[Segment])
    requires even { IsEvenBorder border.now }
    ensures { (p : Place) → IsOuter border.now p → Odd border.now p → ⊥ }
{
    each_is_in_range(border);
}

// Each segment has its lesser end first, and that is on the grid, as the types say.
fn each_is_in_range(list: &[Segment])
    ensures ordered { All (λ s. IsBefore s.a s.b) list.now }
    ensures low { All (λ s. s.a.y < grid_side) list.now }
{
    for s in list {
        let lesser = s.a();
        let _row = lesser.y();
    }
}
