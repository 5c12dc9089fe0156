//! The number of the originals. A drawing finds an original by its id alone, so the ids are gone through.
ghost use Rattle.std.specs.Prelude.{◌≡◌, ◌≤◌, ◌^◌, ◌↔◌, IsTrue, length};
ghost use Rattle.hook_chain.specs.Ids.{IsAscending, LacksId};
ghost use Rattle.realm_insert.specs.State.{HasIdsBelow};

use realm_drawing::Drawing;

/// How many originals the drawing has, whose ids are all below this one.
pub(crate) fn count_originals(drawing: &Drawing, next_id: u64) -> u64
    requires below { HasIdsBelow next_id drawing.now.drawing }
    requires least { 1 ≤ next_id }
    requires most { next_id ≤ 2 ^ 32 }
    ensures { result ≡ length drawing.now.drawing.originals }
{
    let mut count = 0;
    for id in 1..next_id {
        if !lacks_id(drawing, id as u32) {
            count += 1;
        }
    }
    count
}

// Whether no original has this id.
fn lacks_id(drawing: &Drawing, id: u32) -> bool
    ensures lacks { IsTrue result ↔ LacksId drawing.now.drawing.originals id }
    ensures rising { IsAscending drawing.now.drawing.originals }
{
    drawing.chain(id).is_none()
}
