//! The law, for crates above: a function with nothing to do, whose contract is the law.
ghost use Rattle.std.specs.Prelude.{◌↔◌, List, Contains};
ghost use Rattle.grid_base.specs.Segment.{GridSegment};
ghost use Rattle.grid_base.specs.declared.original.Original.{Original};
ghost use Rattle.value_geometry.specs.Geometry.{IsGeometryOf, IsOnOddly};
ghost use Rattle.value_geometry.specs.Parts.{AreOriginals, HasParts};
ghost use Rattle.unswept_regions.specs.Unswept.{IsUnsweptBorder, IsUnsweptValue};

use realm_drawing::Drawing;
use rose_values::{Geometry, RegionsValue};
use value_table::{IdList, Parts, Value};

/// A region has swept across no grid point, however often its parts were redrawn: of a point that is on no link of
/// their chains the present border and the parts as they were given say alike whether it is odd.
pub fn no_region_sweeps(drawing: &Drawing, value: &Value, geometry: &Geometry)
    requires parts { HasParts drawing.now.drawing value.now.kind value.now.parts }
    requires geometry { IsGeometryOf drawing.now.drawing value.now geometry.now }
    ensures { IsUnsweptValue drawing.now.drawing value.now geometry.now }
{
    match geometry {
        Geometry::P(_) => (),
        Geometry::L(_) => (),
        Geometry::R(border) => match &value.parts {
            Parts::Points(_) => (),
            Parts::Ids(ids) => border_is_unswept(drawing, ids, border),
        },
    }
}

// So it is with the border that is made of the pieces on an odd number of the chains of these originals.
fn border_is_unswept(drawing: &Drawing, ids: &IdList, border: &RegionsValue)
    requires { (s : GridSegment) → Contains border.now s ↔ IsOnOddly drawing.now.drawing ids.now s }
    ensures { (parts : List Original) → AreOriginals drawing.now.drawing ids.now parts
        → IsUnsweptBorder parts border.now }
{
    let _chain = drawing.chain(0);
    let _ids = ids.ids();
    let _segments = border.segments();
}
