//! The paths of a step, put in the place of its pieces in every chain that has them.
ghost use Rattle.std.specs.Prelude.{◌≡◌, IfOk, OnOk, OnErr, All, Contains, map};
ghost use Rattle.component_registry.specs.Registry.{owners_of};
ghost use Rattle.hook_chain.specs.StandingChains.{HasValidChain, IsSomeChain};
ghost use Rattle.realm_drawing.specs.Kept.{AreKept};
ghost use Rattle.chain_laws.specs.Redraws.{redrawn_by, redrawn_original_by, AreRedrawings};
ghost use Rattle.realm_drawing.specs.Redraws.{Becomes, AreReplacements, AddsReplacements};
ghost use Rattle.realm_drawing.specs.Shares.{KeepsKeys, ListsAlso, IsGained, IsLost};
ghost use Rattle.realm_drawing.specs.Fresh.{ListsFresh};
ghost use Rattle.realm_drawing.specs.StepShares.{Lists, IsGainedBy, IsLostBy};

use crate::keyed::KeyedPiece;
use crate::originals::Originals;
use crate::passages::with_path;
use crate::shares;
use crate::shares::{Share, add_shares, drop_shares, gained, lost};
use chain_laws::{Redrawing, Redrawings};
use component_registry::Registry;
use grid_base::{Chain, NoMemory, Point};
use std::alloc::Global;

/// A chain that is to stand for the original with this id.
#[derive(Drop)]
pub(crate) struct Replacement {
    id: u32,
    chain: Chain,
}

/// What a step changes: the chains that are replaced, and the shares that come and go.
#[derive(Drop)]
struct Plan {
    chains: Vec<Replacement>,
    more: Vec<Share>,
    less: Vec<Share>,
}

// Puts the paths of the step in the place of its pieces, in every chain that has them, and the registry after it.
// The answer is the pieces that are new, each with its key. All memory is taken before the first change that stays.
pub(crate) fn put_paths(
    alloc: Global,
    originals: &mut Originals,
    registry: &mut Registry,
    step: &Redrawings,
) -> Result<Vec<KeyedPiece>, NoMemory>
    requires kept { AreKept originals.old registry.old }
    requires step { AreRedrawings step.now }
    ensures ok { OnOk result (originals.new ≡ map (redrawn_original_by step.now) originals.old) }
    ensures fresh { IfOk result (λ list. ListsFresh registry.old registry.new list.items) }
    ensures kept { AreKept originals.new registry.new }
    ensures keys { KeepsKeys registry.old registry.new }
    ensures unchanged { OnErr result
        ((originals.new ≡ originals.old) × (registry.new ≡ registry.old)) }
{
    let plan = plan_of(alloc, originals, registry, step)?;
    let fresh = add_shares(alloc, registry, plan.more.as_slice())?;
    drop_shares(registry, plan.less.as_slice());
    install(originals, step, plan.chains);
    Ok(fresh)
}

// What the step changes.
fn plan_of(
    alloc: Global,
    originals: &Originals,
    registry: &Registry,
    step: &Redrawings,
) -> Result<Plan, NoMemory>
    requires kept { AreKept originals.now registry.now }
    requires step { AreRedrawings step.now }
    ensures chains { IfOk result (λ plan. AreReplacements step.now originals.now plan.chains.items) }
    ensures more { IfOk result (λ plan. Lists plan.more.items (IsGainedBy registry.now step.now)) }
    ensures less { IfOk result (λ plan. Lists plan.less.items (IsLostBy registry.now step.now)) }
{
    let mut plan = Plan {
        chains: Vec::new(alloc),
        more: Vec::new(alloc),
        less: Vec::new(alloc),
    };
    plan_one(alloc, originals, registry, &step.first, step, &mut plan)?;
    if let Some(second) = &step.second {
        plan_one(alloc, originals, registry, second, step, &mut plan)?;
    }
    Ok(plan)
}

// What one redrawing of the step changes, for the owners of its piece.
fn plan_one(
    alloc: Global,
    originals: &Originals,
    registry: &Registry,
    one: &Redrawing,
    step: &Redrawings,
    plan: &mut Plan,
) -> Result<(), NoMemory>
    requires valid { All HasValidChain originals.now }
    requires step { AreRedrawings step.now }
    ensures chains { OnOk result (AddsReplacements step.now originals.now
        (Contains (owners_of registry.now one.now.piece)) plan.old.chains.items plan.new.chains.items) }
    ensures more { OnOk result (ListsAlso plan.old.more.items plan.new.more.items
        (IsGained registry.now (owners_of registry.now one.now.piece) one.now.path)) }
    ensures less { OnOk result (ListsAlso plan.old.less.items plan.new.less.items
        (IsLost (owners_of registry.now one.now.piece) one.now.piece one.now.path)) }
{
    let owners = shares::owners_of(registry, &one.piece);
    replace_owners(alloc, originals, owners, step, &mut plan.chains)?;
    gained(registry, owners, one.path.points(), &mut plan.more)?;
    lost(owners, &one.piece, one.path.points(), &mut plan.less)?;
    Ok(())
}

// Adds the new chains of the owners.
fn replace_owners(
    alloc: Global,
    originals: &Originals,
    owners: &[u32],
    step: &Redrawings,
    list: &mut Vec<Replacement>,
) -> Result<(), NoMemory>
    requires valid { All HasValidChain originals.now }
    requires step { AreRedrawings step.now }
    ensures { OnOk result (AddsReplacements step.now originals.now
        (Contains owners.now) list.old.items list.new.items) }
{
    for id in owners {
        replace_owner(alloc, originals, *id, step, list)?;
    }
    Ok(())
}

// Adds the new chain of the original with this id, unless the chain stays.
fn replace_owner(
    alloc: Global,
    originals: &Originals,
    id: u32,
    step: &Redrawings,
    list: &mut Vec<Replacement>,
) -> Result<(), NoMemory>
    requires valid { All HasValidChain originals.now }
    requires step { AreRedrawings step.now }
    ensures { OnOk result
        (AddsReplacements step.now originals.now (λ x. x ≡ id) list.old.items list.new.items) }
{
    let Some(points) = originals.chain(id) else {
        return Ok(());
    };
    if let Some(chain) = redrawn(alloc, points, step)? {
        list.push(Replacement { id, chain })?;
    }
    Ok(())
}

// The chain with the paths of the step in the place of its pieces; none where it has none of them.
fn redrawn(alloc: Global, points: &[Point], step: &Redrawings) -> Result<Option<Chain>, NoMemory>
    requires chain { IsSomeChain points.now }
    requires step { AreRedrawings step.now }
    ensures { IfOk result (Becomes points.now (redrawn_by step.now points.now)) }
{
    let once = with_path(alloc, points, &step.first)?;
    let Some(second) = &step.second else {
        return Ok(once);
    };
    let Some(chain) = once else {
        return with_path(alloc, points, second);
    };
    let twice = with_path(alloc, chain.points(), second)?;
    Ok(Some(twice.unwrap_or(chain)))
}

// Puts the new chains in the place of the old ones.
fn install(originals: &mut Originals, step: &Redrawings, list: Vec<Replacement>)
    requires { AreReplacements step.now originals.old list.items }
    ensures { originals.new ≡ map (redrawn_original_by step.now) originals.old }
{
    for replacement in list {
        originals.rechain(replacement.id, replacement.chain);
    }
}
