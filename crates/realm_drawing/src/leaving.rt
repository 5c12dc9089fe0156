//! A chain that leaves the registry. That takes no memory: the shares of its links aren't listed, but taken out one
//! by one.
ghost use Rattle.std.specs.Prelude.{◌≡◌};
ghost use Rattle.component_registry.specs.Registry.{IsSound};
ghost use Rattle.realm_drawing.specs.Shares.{KeepsKeys, IsOfChain};
ghost use Rattle.hook_chain.specs.Chains.{IsBetween};
ghost use Rattle.realm_drawing.specs.Leaving.{LosesShares};

use crate::shares::{Share, drop_shares};
use component_registry::Registry;
use grid_base::{Point, Segment};

// Takes out the share of each link of `points` with this id.
pub(crate) fn drop_chain(registry: &mut Registry, id: u32, points: &[Point])
    requires sound { IsSound registry.old }
    ensures owners { LosesShares registry.old registry.new (IsOfChain id points.now) }
    ensures keys { KeepsKeys registry.old registry.new }
    ensures sound { IsSound registry.new }
{
    for i in 1..points.len() {
        drop_between(registry, id, &points[i - 1], &points[i]);
    }
}

// Takes out the share of the segment between `v` and `w` with this id.
fn drop_between(registry: &mut Registry, id: u32, v: &Point, w: &Point)
    requires sound { IsSound registry.old }
    ensures owners { LosesShares registry.old registry.new (λ y. (y.id ≡ id) × IsBetween y.piece v.now w.now) }
    ensures keys { KeepsKeys registry.old registry.new }
    ensures sound { IsSound registry.new }
{
    if let Some(piece) = Segment::new(*v, *w) {
        drop_shares(registry, &[Share { piece, id }]);
    }
}
