//! What values are made of, and their kinds.
ghost use Rattle.std.specs.Prelude.{◌≡◌, ◌↔◌, IsNone, IfSome, IfOk};
ghost use Rattle.grid_base.specs.Border.{AreNoded, IsEvenBorder};
ghost use Rattle.grid_base.specs.declared.kinds.Kind.TheVariants.{Regions};
ghost use Rattle.rose_values.specs.Geometry.{kind_of};
ghost use Rattle.rose_values.specs.Operators.{segments_of};
ghost use Rattle.rose_operators.specs.Results.{IsAscending};
ghost use Rattle.rose_sets.specs.Sums.{points_of, AreOfKind, AreMixed};

use grid_base::{Kind, NoMemory, Point, Segment};
use rose_values::{Geometry, RegionsValue};
use std::alloc::Global;

/// What a value lists ascends, each once.
pub fn ascends(g: &Geometry)
    ensures { IsAscending g.now }
{
    match g {
        Geometry::P(points) => {
            let _ = points.points();
        }
        Geometry::L(lines) => {
            let _ = lines.segments();
        }
        Geometry::R(region) => {
            let _ = region.segments();
        }
    }
}

// The points of a value of points.
pub(crate) fn points_of(g: &Geometry) -> &[Point]
    ensures { result.now ≡ points_of g.now }
{
    match g {
        Geometry::P(points) => points.points(),
        _ => &[],
    }
}

// The segments of a value, which are a realm. Those of a border are even.
pub(crate) fn segments_of(g: &Geometry) -> &[Segment]
    ensures segments { result.now ≡ segments_of g.now }
    ensures noded { AreNoded (segments_of g.now) }
    ensures even { kind_of g.now ≡ Regions → IsEvenBorder (segments_of g.now) }
{
    match g {
        Geometry::L(lines) => lines.segments(),
        Geometry::R(region) => region.segments(),
        Geometry::P(_) => &[],
    }
}

// The region again.
pub(crate) fn copied(alloc: Global, g: &Geometry) -> Result<RegionsValue, NoMemory>
    requires { kind_of g.now ≡ Regions }
    ensures same { IfOk result (λ r. r ≡ segments_of g.now) }
    ensures even { IfOk result IsEvenBorder }
{
    let mut border = Vec::new(alloc);
    match g {
        Geometry::R(region) => {
            border.extend_from_slice(region.segments())?;
            Ok(RegionsValue::new(border))
        }
        _ => unreachable!(),
    }
}

// The kind of the values, where there are some and they are of one kind.
pub(crate) fn one_kind(list: &[Geometry]) -> Option<Kind>
    ensures one { IfSome result (λ kind. AreOfKind kind list.now) }
    ensures mixed { IsNone result ↔ AreMixed list.now }
{
    let kind = list.first()?.kind();
    for g in list {
        if g.kind() != kind {
            return None;
        }
    }
    Some(kind)
}
