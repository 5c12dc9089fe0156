//! Shares: pieces with the ids that own them or are to own them, changed many at a time.
ghost use Rattle.std.specs.Prelude.{◌≡◌, ◌⊎◌, ◌↔◌, ℕ, ◌∷◌, [], All, Contains, IsTrue, IfOk, OnOk, OnErr};
ghost use Rattle.std.specs.List.Sorted.{IsStrictlyIncreasing};
ghost use Rattle.component_registry.specs.Registry as registries;
ghost use Rattle.component_registry.specs.Registry.{IsPiece, IsSound, Owns};
ghost use Rattle.grid_base.specs.Drawing.{HasLink, IsLink};
ghost use Rattle.realm_drawing.specs.Shares.{share_of, Held, KeepsKeys, HasMore, HasFewer};
ghost use Rattle.realm_drawing.specs.Shares.{ListsAlso, IsGained, IsLost, IsOfChain};
ghost use Rattle.hook_chain.specs.Chains.{IsBetween};
ghost use Rattle.realm_drawing.specs.Fresh.{ListsFresh, ListsIfNew};

use crate::keyed::KeyedPiece;
use component_registry::Registry;
use grid_base::{NoMemory, Point, Segment};
use std::alloc::Global;

// A piece, and the id of an original that owns it or is to own it.
#[derive(Clone, Copy)]
pub(crate) struct Share {
    pub(crate) piece: Segment,
    pub(crate) id: u32,
}

// Adds the shares of the list, all or none, and answers the pieces that are new, each with its key.
pub(crate) fn add_shares(
    alloc: Global,
    registry: &mut Registry,
    shares: &[Share],
) -> Result<Vec<KeyedPiece>, NoMemory>
    requires sound { IsSound registry.old }
    requires new_shares { All (λ y. ¬ Held registry.old y) shares.now }
    ensures owners { OnOk result (HasMore registry.old registry.new shares.now) }
    ensures fresh { IfOk result (λ list. ListsFresh registry.old registry.new list.items) }
    ensures keys { OnOk result (KeepsKeys registry.old registry.new) }
    ensures unchanged { OnErr result (registry.new ≡ registry.old) }
    ensures sound { IsSound registry.new }
{
    let mut fresh = Vec::new(alloc);
    for share in shares {
        if add_share(registry, share, &mut fresh).is_err() {
            drop_shares(registry, shares);
            return Err(NoMemory);
        }
    }
    Ok(fresh)
}

// Takes the shares of the list out, whether or not they are there.
pub(crate) fn drop_shares(registry: &mut Registry, shares: &[Share])
    requires sound { IsSound registry.old }
    ensures owners { HasFewer registry.old registry.new shares.now }
    ensures keys { KeepsKeys registry.old registry.new }
    ensures sound { IsSound registry.new }
{
    for share in shares {
        drop_share(registry, share);
    }
}

// Lists the shares that the owners of a piece gain where the links of `path` replace it: those of
// each link that aren't held yet.
pub(crate) fn gained(
    registry: &Registry,
    owners: &[u32],
    path: &[Point],
    list: &mut Vec<Share>,
) -> Result<(), NoMemory>
    ensures ok { OnOk result
        (ListsAlso list.old.items list.new.items (IsGained registry.now owners.now path.now)) }
{
    for i in 1..path.len() {
        gained_between(registry, owners, &path[i - 1], &path[i], list)?;
    }
    Ok(())
}

// Lists the shares that the owners of `piece` lose where the links of `path` replace it: those of
// the piece, unless it is one of the links.
pub(crate) fn lost(
    owners: &[u32],
    piece: &Segment,
    path: &[Point],
    list: &mut Vec<Share>,
) -> Result<(), NoMemory>
    ensures ok { OnOk result
        (ListsAlso list.old.items list.new.items (IsLost owners.now piece.now path.now)) }
{
    if has_link(path, piece) {
        return Ok(());
    }
    for id in owners {
        list.push(Share {
            piece: *piece,
            id: *id,
        })?;
    }
    Ok(())
}

// Lists the share of each link of `points` with this id.
pub(crate) fn chain_shares(id: u32, points: &[Point], list: &mut Vec<Share>) -> Result<(), NoMemory>
    ensures ok { OnOk result
        (ListsAlso list.old.items list.new.items (IsOfChain id points.now)) }
{
    for i in 1..points.len() {
        share_between(id, &points[i - 1], &points[i], list)?;
    }
    Ok(())
}

// Lists the shares that these owners gain of the segment between `v` and `w`.
fn gained_between(
    registry: &Registry,
    owners: &[u32],
    v: &Point,
    w: &Point,
    list: &mut Vec<Share>,
) -> Result<(), NoMemory>
    ensures ok { OnOk result (ListsAlso list.old.items list.new.items
        (λ y. (Contains owners.now y.id × ¬ Held registry.now y) × IsBetween y.piece v.now w.now)) }
{
    match Segment::new(*v, *w) {
        Some(link) => gained_of(registry, owners, &link, list),
        None => Ok(()),
    }
}

// Lists the shares of `link` that these owners don't have.
fn gained_of(
    registry: &Registry,
    owners: &[u32],
    link: &Segment,
    list: &mut Vec<Share>,
) -> Result<(), NoMemory>
    ensures ok { OnOk result (ListsAlso list.old.items list.new.items
        (λ y. (Contains owners.now y.id × ¬ Held registry.now y) × (y.piece ≡ link.now))) }
{
    let had = owners_of(registry, link);
    for id in owners {
        list_new(had, link, *id, list)?;
    }
    Ok(())
}

// Lists the share of `piece` and `id`, unless `id` is one of its owners.
fn list_new(owners: &[u32], piece: &Segment, id: u32, list: &mut Vec<Share>) -> Result<(), NoMemory>
    requires ascending { IsStrictlyIncreasing owners.now }
    ensures ok { OnOk result (ListsAlso list.old.items list.new.items
        (λ y. (y ≡ share_of piece.now id) × ¬ Contains owners.now id)) }
{
    if !has(owners, id) {
        list.push(Share { piece: *piece, id })?;
    }
    Ok(())
}

// Lists the share of the segment between `v` and `w`.
fn share_between(id: u32, v: &Point, w: &Point, list: &mut Vec<Share>) -> Result<(), NoMemory>
    ensures ok { OnOk result (ListsAlso list.old.items list.new.items
        (λ y. (y.id ≡ id) × IsBetween y.piece v.now w.now)) }
{
    if let Some(piece) = Segment::new(*v, *w) {
        list.push(Share { piece, id })?;
    }
    Ok(())
}

// Whether `piece` is a link of the path.
fn has_link(path: &[Point], piece: &Segment) -> bool
    ensures { IsTrue result ↔ HasLink path.now piece.now }
{
    for i in 1..path.len() {
        if is_link(piece, &path[i - 1], &path[i]) {
            return true;
        }
    }
    false
}

// Whether the link from `v` to `w` is `piece`, one way or the other.
fn is_link(piece: &Segment, v: &Point, w: &Point) -> bool
    ensures { IsTrue result ↔ IsLink piece.now v.now w.now }
{
    let (a, b) = (piece.a(), piece.b());
    (*v == a && *w == b) || (*v == b && *w == a)
}

// Adds one share, unless it is there, and lists its piece where that is new.
fn add_share(
    registry: &mut Registry,
    share: &Share,
    fresh: &mut Vec<KeyedPiece>,
) -> Result<(), NoMemory>
    ensures owners { OnOk result (HasMore registry.old registry.new (share.now ∷ [])) }
    ensures fresh { OnOk result
        (ListsIfNew registry.old registry.new share.now.piece fresh.old.items fresh.new.items) }
    ensures keys { OnOk result (KeepsKeys registry.old registry.new) }
    ensures unchanged { OnErr result (registry.new ≡ registry.old) }
    ensures sound { IsSound registry.new }
{
    let Some(key) = registry.key(&share.piece) else {
        return add_new(registry, share, fresh);
    };
    if !has(registry.owners(key), share.id) {
        registry.add(share.piece, share.id)?;
    }
    Ok(())
}

// Adds the first share of a new piece, and lists the piece.
fn add_new(
    registry: &mut Registry,
    share: &Share,
    fresh: &mut Vec<KeyedPiece>,
) -> Result<(), NoMemory>
    requires sound { IsSound registry.old }
    requires new { ¬ IsPiece registry.old share.now.piece }
    ensures owners { OnOk result (HasMore registry.old registry.new (share.now ∷ [])) }
    ensures fresh { OnOk result
        (ListsIfNew registry.old registry.new share.now.piece fresh.old.items fresh.new.items) }
    ensures keys { OnOk result (KeepsKeys registry.old registry.new) }
    ensures unchanged { OnErr result (registry.new ≡ registry.old) }
    ensures sound { IsSound registry.new }
{
    fresh.reserve(1)?;
    let piece = share.piece;
    let key = registry.add(piece, share.id)?;
    fresh.push_reserved(KeyedPiece { piece, key });
    Ok(())
}

// Takes one share out, if it is there.
fn drop_share(registry: &mut Registry, share: &Share)
    ensures owners { HasFewer registry.old registry.new (share.now ∷ []) }
    ensures keys { KeepsKeys registry.old registry.new }
    ensures sound { IsSound registry.new }
{
    registry.remove(&share.piece, share.id);
}

// The owners of the piece, ascending.
pub(crate) fn owners_of<'a>(registry: &'a Registry, piece: &Segment) -> &'a [u32]
    ensures owners { result.now ≡ registries.owners_of registry.now piece.now }
    ensures ascending { IsStrictlyIncreasing result.now }
    ensures sound { IsSound registry.now }
{
    match registry.key(piece) {
        Some(key) => registry.owners(key),
        None => &[],
    }
}

// Whether `id` is one of the owners.
fn has(owners: &[u32], id: u32) -> bool
    requires ascending { IsStrictlyIncreasing owners.now }
    ensures { IsTrue result ↔ Contains owners.now id }
{
    owners.binary_search(&id).is_ok()
}
