//! The same points and ids once more, which have a text.
ghost use Rattle.std.specs.Prelude.{◌≡◌, ◌<◌, ◌^◌, ◌++◌, ◌∷◌, [], IfOk, OnOk};
ghost use Rattle.grid_base.specs.Point.{OnGrid};
ghost use Rattle.record_codec.specs.Fitting.{IsList};

use grid_base::{NoMemory, Point};
use std::alloc::Global;

/// Adds the point at the end.
pub fn add_point(list: &mut Vec<Point>, p: &Point) -> Result<(), NoMemory>
    ensures added { OnOk result (list.new.items ≡ list.old.items ++ p.now ∷ []) }
    ensures on_grid { OnGrid p.now }
{
    let (_x, _y) = (p.x(), p.y());
    list.push(*p)?;
    Ok(())
}

/// The same points.
pub fn copied_points(alloc: Global, points: &[Point]) -> Result<Vec<Point>, NoMemory>
    ensures same { IfOk result (λ v. v.items ≡ points.now) }
    ensures fits { IfOk result (λ v. IsList OnGrid v.items) }
{
    let mut list = Vec::new(alloc);
    for p in points {
        add_point(&mut list, p)?;
    }
    Ok(list)
}

// The same ids.
pub(crate) fn copied_ids(alloc: Global, ids: &[u32]) -> Result<Vec<u32>, NoMemory>
    ensures same { IfOk result (λ v. v.items ≡ ids.now) }
    ensures fits { IfOk result (λ v. IsList (λ id. id < 2 ^ 32) v.items) }
{
    let mut list = Vec::new(alloc);
    for id in ids {
        list.push(*id)?;
    }
    Ok(list)
}
