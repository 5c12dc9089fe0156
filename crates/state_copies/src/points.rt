//! The explicit points of a drawing.
ghost use Rattle.std.specs.Prelude.{◌≡◌, ◌⊎◌, ◌++◌, ◌∷◌, [], AllPairs, Contains, IfOk, OnOk};
ghost use Rattle.grid_base.specs.Point.{GridPoint, IsBefore, OnGrid};
ghost use Rattle.record_codec.specs.Fitting.{IsList};
ghost use Rattle.state_copies.specs.Copies.{HasAlso};

use grid_base::{NoMemory, Point};
use realm_drawing::Drawing;
use std::alloc::Global;

/// The explicit points, ascending.
pub fn explicit_points(alloc: Global, drawing: &Drawing) -> Result<Vec<Point>, NoMemory>
    ensures same { IfOk result (λ v. v.items ≡ drawing.now.drawing.points) }
    ensures fits { IfOk result (λ v. IsList OnGrid v.items) }
    ensures ascending { IfOk result (λ v. AllPairs IsBefore v.items) }
{
    let points = drawing.points()?;
    explicit_among(alloc, drawing, points.as_slice())
}

// The explicit ones of the points, which ascend and are all.
fn explicit_among(
    alloc: Global,
    drawing: &Drawing,
    points: &[Point],
) -> Result<Vec<Point>, NoMemory>
    requires ascending { AllPairs IsBefore points.now }
    requires all { (p : GridPoint) → Contains drawing.now.drawing.points p → Contains points.now p }
    ensures same { IfOk result (λ v. v.items ≡ drawing.now.drawing.points) }
    ensures fits { IfOk result (λ v. IsList OnGrid v.items) }
    ensures ascending { IfOk result (λ v. AllPairs IsBefore v.items) }
{
    // That explicit points ascend is known where one is asked for.
    let _ascending = drawing.is_explicit(&Point::at(0, 0));
    let mut list = Vec::new(alloc);
    for p in points {
        list_if_explicit(drawing, p, &mut list)?;
    }
    Ok(list)
}

// Adds the point at the end where it is explicit.
fn list_if_explicit(drawing: &Drawing, p: &Point, list: &mut Vec<Point>) -> Result<(), NoMemory>
    ensures listed { OnOk result (HasAlso drawing.now.drawing.points p.now list.old.items list.new.items) }
    ensures on_grid { OnGrid p.now }
{
    let (_x, _y) = (p.x(), p.y());
    if drawing.is_explicit(p) {
        list.push(*p)?;
    }
    Ok(())
}
