//! Laws of boxes: functions with nothing to do, whose contracts are the laws. Proofs of crates above use the lemmas behind
//! them.
ghost use Rattle.std.specs.Prelude.{◌<◌, List};
ghost use Rattle.grid_base.specs.Segment.{GridSegment};
ghost use Rattle.grid_base.specs.Point.{GridPoint};
ghost use Rattle.grid_base.specs.Plane.{Place, IsAtPoint, IsFree};
ghost use Rattle.grid_base.specs.Border.{IsEvenBorder};
ghost use Rattle.plane_classes.specs.Classes.{IsOuter};
ghost use Rattle.rose_values.specs.Areas.{IsInteriorPoint, IsOnSome, IsRegionPoint};
ghost use Rattle.border_boxes.specs.Boxes.{AreApart, AreBeside, HasPlace, HasPlaceInside, HasPoint, HoldsAll};
ghost use Rattle.border_boxes.specs.declared.boxes.BorderBox.{BorderBox};

/// A box that holds the segments of a border has their places, and the points of its region; what is interior to
/// the region is strictly inside the box. What is off the segments, and not strictly inside, is in the outer class.
pub fn boxes_hold_places()
    ensures lines { (box : BorderBox) (list : List GridSegment) (q : Place) → HoldsAll box list
        → IsOnSome list q → HasPlace box q }
    ensures region { (box : BorderBox) (border : List GridSegment) (q : Place) → HoldsAll box border
        → IsEvenBorder border → IsRegionPoint border q → HasPlace box q }
    ensures interior { (box : BorderBox) (border : List GridSegment) (q : Place) → HoldsAll box border
        → IsEvenBorder border → IsInteriorPoint border q → HasPlaceInside box q }
    ensures outer { (box : BorderBox) (list : List GridSegment) (q : Place) → HoldsAll box list
        → IsFree list q → ¬ HasPlaceInside box q → IsOuter list q }
{}

/// A place of the box that is a point of the grid is a point of the box.
pub fn places_are_points()
    ensures { (box : BorderBox) (p : GridPoint) (q : Place) → 0 < q.w → IsAtPoint q p
        → HasPlace box q → HasPoint box p }
{}

/// What lies in one of two boxes beside each other is not strictly inside the other. Nothing lies in two boxes apart.
pub fn boxes_part_places()
    ensures beside { (first second : BorderBox) (q : Place) → AreBeside first second
        → HasPlace first q → ¬ HasPlaceInside second q }
    ensures apart { (first second : BorderBox) (q : Place) → 0 < q.w → AreApart first second
        → HasPlace first q → ¬ HasPlace second q }
{}
