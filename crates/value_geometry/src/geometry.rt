//! The geometry of a value, read off the chains that stand for its parts.
ghost use Rattle.std.specs.Prelude.{◌≡◌, ◌↔◌, Any, Contains, IfOk};
ghost use Rattle.grid_base.specs.Drawing.{IsDrawnRealm};
ghost use Rattle.grid_base.specs.Segment.{GridSegment};
ghost use Rattle.value_geometry.specs.Geometry.{IsGeometryOf, IsOnChainOf, IsOnOddly};
ghost use Rattle.value_geometry.specs.Parts.{HasParts, HasOriginals, HasEvenOriginals};

use crate::borders::odd_ones;
use crate::links::links_of_parts;
use grid_base::{Kind, NoMemory};
use realm_drawing::Drawing;
use rose_values::{Geometry, LinesValue, PointsValue, RegionsValue};
use std::alloc::Global;
use value_table::{IdList, Parts, Value};

/// What `value` is made of in `drawing`: its points; for lines the pieces on at least one chain of its parts; for a
/// region those on an odd number of them. Looks at these chains alone, and sorts their links.
pub fn geometry_of(alloc: Global, drawing: &Drawing, value: &Value) -> Result<Geometry, NoMemory>
    requires realm { IsDrawnRealm drawing.now.drawing }
    requires parts { HasParts drawing.now.drawing value.now.kind value.now.parts }
    ensures { IfOk result (IsGeometryOf drawing.now.drawing value.now) }
{
    match &value.parts {
        Parts::Points(points) => Ok(Geometry::P(points_of(alloc, points)?)),
        Parts::Ids(ids) => match value.kind {
            Kind::Regions => Ok(Geometry::R(region_of(alloc, drawing, ids)?)),
            _ => Ok(Geometry::L(lines_of(alloc, drawing, ids)?)),
        },
    }
}

// The same points.
fn points_of(alloc: Global, points: &PointsValue) -> Result<PointsValue, NoMemory>
    ensures { IfOk result (λ v. v ≡ points.now) }
{
    let mut list = Vec::new(alloc);
    list.extend_from_slice(points.points())?;
    Ok(PointsValue::new(list))
}

// The pieces on the chains of these originals.
fn lines_of(alloc: Global, drawing: &Drawing, ids: &IdList) -> Result<LinesValue, NoMemory>
    requires realm { IsDrawnRealm drawing.now.drawing }
    requires there { HasOriginals drawing.now.drawing ids.now }
    ensures { IfOk result (λ v. (s : GridSegment)
        → Contains v s ↔ Any (IsOnChainOf drawing.now.drawing s) ids.now) }
{
    let mut links = links_of_parts(alloc, drawing, ids.ids())?;
    links.sort_unstable();
    links.dedup();
    Ok(LinesValue::new(links))
}

// The pieces on an odd number of the chains of these originals.
fn region_of(alloc: Global, drawing: &Drawing, ids: &IdList) -> Result<RegionsValue, NoMemory>
    requires realm { IsDrawnRealm drawing.now.drawing }
    requires even { HasEvenOriginals drawing.now.drawing ids.now }
    ensures { IfOk result (λ v. (s : GridSegment)
        → Contains v s ↔ IsOnOddly drawing.now.drawing ids.now s) }
{
    let mut links = links_of_parts(alloc, drawing, ids.ids())?;
    links.sort_unstable();
    Ok(RegionsValue::new(odd_ones(alloc, &links)?))
}
