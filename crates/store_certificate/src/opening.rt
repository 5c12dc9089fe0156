//! The state at the beginning: its engine, and the lines that tell it.
ghost use Rattle.std.specs.Prelude.{◌≡◌, ◌≤◌, false, IfOk};
ghost use Rattle.certificate_law.specs.Certificates.{chain_item};
ghost use Rattle.realm_audit.specs.Items.{IsId, IsLine};
ghost use Rattle.realm_audit.specs.declared.item.Item.TheVariants as items;
ghost use Rattle.hook_chain.specs.StandingChains.{HasValidChain};
ghost use Rattle.realm_insert.specs.Snapshots.{state_of, IsValidState};

use grid_base::{Chain, NoMemory, Original, Point};
use realm_audit::Item;
use realm_insert::{Engine, SnapshotError};
use record_codec::Snapshot;
use state_check::copied_points;
use std::alloc::Global;

/// The engine of the state that the snapshot keeps.
pub fn engine_at(alloc: Global, base: Snapshot) -> Result<Engine, NoMemory>
    requires valid { IsValidState (state_of base) }
    ensures made { IfOk result (λ engine. (engine.spent ≡ false) × (engine.state ≡ state_of base)) }
{
    match Engine::from_snapshot(alloc, base) {
        Ok(engine) => Ok(engine),
        Err(SnapshotError::NoMemory) => Err(NoMemory),
        Err(SnapshotError::Invalid) => unreachable!(),
    }
}

/// The line of an explicit point.
pub fn opening_point(p: &Point) -> Item
    ensures item { result ≡ items.Point p.now }
    ensures line { IsLine result }
{
    // Both coordinates of a point are on the grid.
    let _ends = (p.x(), p.y());
    Item::Point(*p)
}

/// The line of an original of the beginning, with its chain.
pub fn opening_original(alloc: Global, o: &Original) -> Result<Item, NoMemory>
    requires id { 1 ≤ o.now.id }
    requires chain { HasValidChain o.now }
    ensures item { IfOk result (λ item. item ≡ chain_item o.now) }
    ensures line { IfOk result IsLine }
{
    is_id(o.id);
    let points = copied_points(alloc, o.chain.points())?;
    Ok(Item::Original(o.id, Chain::new(points)))
}

// An id from 1 on has a text.
fn is_id(id: u32)
    requires { 1 ≤ id }
    ensures { IsId id }
{
    let _id = id;
}
