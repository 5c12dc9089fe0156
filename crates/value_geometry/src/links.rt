//! The links of the chains that stand for the parts of a value, all of them in one list.
//! The ids of parts mostly follow each other, so a walk along the originals mostly comes by the next part next.
ghost use Rattle.std.specs.Prelude.{◌≡◌, ◌∷◌, ◌++◌, drop, IfOk, OnOk, IfSome, IsNone};
ghost use Rattle.hook_chain.specs.Ids.{LacksId, IsChainOf};
ghost use Rattle.value_geometry.specs.Links.{between, links, HasLinksOf, AreChainsOf, BeginsOtherwise};

use grid_base::{NoMemory, Point, Segment};
use realm_drawing::{Chains, Drawing};
use std::alloc::Global;

// The links of the present chains of these originals, those of each in their order.
pub(crate) fn links_of_parts(
    alloc: Global,
    drawing: &Drawing,
    ids: &[u32],
) -> Result<Vec<Segment>, NoMemory>
    ensures { IfOk result (λ v. HasLinksOf drawing.now.drawing ids.now v.items) }
{
    let mut list = Vec::with_capacity(alloc, ids.len())?;
    let first = ids.first().copied().unwrap_or(0);
    let mut walk = drawing.chains_from(first);
    for id in ids {
        if let Some(chain) = chain_at(drawing, &mut walk, *id) {
            add_links(chain, &mut list)?;
        }
    }
    Ok(list)
}

// The chain of the original with this id. Where the walk comes by another one next, it begins anew at this id.
fn chain_at<'a>(drawing: &'a Drawing, walk: &mut Chains<'a>, id: u32) -> Option<&'a [Point]>
    requires { AreChainsOf drawing.now.drawing walk.old }
    ensures none { IsNone result → LacksId drawing.now.drawing.originals id }
    ensures chain { IfSome result (λ points. IsChainOf drawing.now.drawing id points.now) }
    ensures chains { AreChainsOf drawing.now.drawing walk.new }
{
    if let Some(points) = next_at(walk, id) {
        return Some(points);
    }
    *walk = drawing.chains_from(id);
    next_at(walk, id)
}

// The chain that the walk comes by next, where it is of the original with this id.
fn next_at<'a>(walk: &mut Chains<'a>, id: u32) -> Option<&'a [Point]>
    ensures other { IsNone result → BeginsOtherwise id walk.old }
    ensures next { IfSome result (λ points. walk.old ≡ (id, points.now) ∷ walk.new) }
    ensures rest { walk.new ≡ drop 1 walk.old }
{
    let (next, points) = walk.next()?;
    if next == id { Some(points) } else { None }
}

// Adds the links of the chain.
fn add_links(chain: &[Point], list: &mut Vec<Segment>) -> Result<(), NoMemory>
    ensures { OnOk result (list.new.items ≡ list.old.items ++ links chain.now) }
{
    for i in 1..chain.len() {
        add_between(&chain[i - 1], &chain[i], list)?;
    }
    Ok(())
}

// Adds the segment between `v` and `w`.
fn add_between(v: &Point, w: &Point, list: &mut Vec<Segment>) -> Result<(), NoMemory>
    ensures { OnOk result (list.new.items ≡ list.old.items ++ between v.now w.now) }
{
    if let Some(s) = Segment::new(*v, *w) {
        list.push(s)?;
    }
    Ok(())
}
