//! Items of a certificate, given as lines. One line is made and given at a time, so no more than one is held.
ghost use Rattle.std.specs.Prelude.{◌≡◌, ◌≤◌, ◌++◌, ◌∷◌, [], false, All, IfOk, map};
ghost use Rattle.realm_audit.specs.Items.{IsLine, text_of};
ghost use Rattle.realm_audit.specs.declared.item.Item.TheVariants as items;
ghost use Rattle.hook_chain.specs.StandingChains.{HasValidChain};
ghost use Rattle.certificate_law.specs.Certificates.{chain_item};
ghost use Rattle.rose_shell.specs.Items.{GaveItems};

use crate::fault::Fault;
use crate::giving::give_all;
use grid_base::{NoMemory, Original, Point, Reply};
use outside_world::Outside;
use realm_audit::{Item, certificate_line};
use std::alloc::Global;
use store_certificate::{opening_original, opening_point};

/// Gives the line of each explicit point of the beginning.
pub(crate) fn give_points<W: Outside>(
    alloc: Global,
    world: &mut W,
    points: &[Point],
) -> Result<(), Fault>
    requires intact { W.failed world.old ≡ false }
    ensures { GaveItems ⟦<W as Outside>⟧ world.old world.new (map items.Point points.now) result }
{
    for point in points {
        give_item(alloc, world, &opening_point(point))?;
    }
    Ok(())
}

/// Gives the line of each original of the beginning.
pub(crate) fn give_originals<W: Outside>(
    alloc: Global,
    world: &mut W,
    originals: &[Original],
) -> Result<(), Fault>
    requires intact { W.failed world.old ≡ false }
    requires ids { All (λ o. 1 ≤ o.id) originals.now }
    requires chains { All HasValidChain originals.now }
    ensures { GaveItems ⟦<W as Outside>⟧ world.old world.new (map chain_item originals.now) result }
{
    for original in originals {
        let item = opening_original(alloc, original)?;
        give_item(alloc, world, &item)?;
    }
    Ok(())
}

/// Gives the line of each item.
pub(crate) fn give_items<W: Outside>(
    alloc: Global,
    world: &mut W,
    items: &[Item],
) -> Result<(), Fault>
    requires intact { W.failed world.old ≡ false }
    requires lines { All IsLine items.now }
    ensures { GaveItems ⟦<W as Outside>⟧ world.old world.new items.now result }
{
    for item in items {
        give_item(alloc, world, item)?;
    }
    Ok(())
}

/// Gives the line of the item.
pub(crate) fn give_item<W: Outside>(alloc: Global, world: &mut W, item: &Item) -> Result<(), Fault>
    requires intact { W.failed world.old ≡ false }
    requires line { IsLine item.now }
    ensures { GaveItems ⟦<W as Outside>⟧ world.old world.new (item.now ∷ []) result }
{
    let line = line_with_end(alloc, item)?;
    give_all(world, line.bytes())
}

// The line of the item, with its line feed.
fn line_with_end(alloc: Global, item: &Item) -> Result<Reply, NoMemory>
    requires line { IsLine item.now }
    ensures line { IfOk result (λ line. line ≡ text_of item.now ++ 10 ∷ []) }
{
    let line = certificate_line(alloc, item)?;
    let mut bytes = line.into_bytes();
    bytes.push(b'\n')?;
    Ok(Reply::new(bytes))
}
