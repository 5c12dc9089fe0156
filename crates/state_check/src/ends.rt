//! The ends of originals, as they were given.
ghost use Rattle.std.specs.Prelude.{◌≡◌, IfOk, MatchOption};
ghost use Rattle.hook_chain.specs.Ids.{LacksId};
ghost use Rattle.value_geometry.specs.Parts.{HasOriginals};
ghost use Rattle.state_check.specs.Pairs.{HasEnds, HasEndsOf};

use grid_base::{NoMemory, Point};
use realm_drawing::Drawing;
use std::alloc::Global;

// The ends of the originals with these ids, two of each; none where there isn't an original for each id.
pub(crate) fn ends_of(
    alloc: Global,
    drawing: &Drawing,
    ids: &[u32],
) -> Result<Option<Vec<Point>>, NoMemory>
    ensures { IfOk result (λ found. MatchOption found (HasOriginals drawing.now.drawing ids.now → ⊥)
        (λ list. HasEndsOf drawing.now.drawing ids.now list.items)) }
{
    let mut list = Vec::new(alloc);
    for id in ids {
        let Some(ends) = ends_by(drawing, *id) else {
            return Ok(None);
        };
        list.push(ends.0)?;
        list.push(ends.1)?;
    }
    Ok(Some(list))
}

// The ends of the original with this id.
fn ends_by(drawing: &Drawing, id: u32) -> Option<(Point, Point)>
    ensures { MatchOption result (LacksId drawing.now.drawing.originals id)
        (λ ends. HasEnds drawing.now.drawing id ends.0 ends.1) }
{
    let points = drawing.chain(id)?;
    Some((points[0], points[points.len() - 1]))
}
