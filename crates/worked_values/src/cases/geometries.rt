//! The geometry of values that have no part.
ghost use Rattle.std.specs.Prelude.{◌≡◌};
ghost use Rattle.grid_base.specs.Drawing.{IsDrawnRealm};

use grid_base::{Kind, settled_is_realm};
use realm_drawing::Drawing;
use rose_values::PointsValue;
use std::process::Abort;
use value_geometry::geometry_of;
use value_table::{IdList, Parts, Value};

// The drawing where it has no violation, which makes it a realm.
fn settled(rt: &impl Abort, drawing: Drawing) -> Drawing
    ensures realm { IsDrawnRealm result.drawing }
    ensures same { result ≡ drawing }
{
    settled_is_realm();
    assert!(rt; drawing.first_violation().is_none(), "a violation");
    drawing
}

#[test]
fn each_kind_has_its_geometry(rt: HostRuntime) {
    let alloc = rt.alloc();
    let drawing = settled(&rt, Drawing::new(alloc));
    let points = Value {
        kind: Kind::Points,
        parts: Parts::Points(PointsValue::new(Vec::new(alloc))),
    };
    let of_points = geometry_of(alloc, &drawing, &points).expect(&rt, "memory");
    assert_eq!(rt; of_points.kind(), Kind::Points);
    let lines = Value {
        kind: Kind::Lines,
        parts: Parts::Ids(IdList::new(Vec::new(alloc))),
    };
    let of_lines = geometry_of(alloc, &drawing, &lines).expect(&rt, "memory");
    assert_eq!(rt; of_lines.kind(), Kind::Lines);
    let region = Value {
        kind: Kind::Regions,
        parts: Parts::Ids(IdList::new(Vec::new(alloc))),
    };
    let of_region = geometry_of(alloc, &drawing, &region).expect(&rt, "memory");
    assert_eq!(rt; of_region.kind(), Kind::Regions);
}
