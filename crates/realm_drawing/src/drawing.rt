//! The drawing: its explicit points in a set, its originals in a map by id, and a registry that knows which
//! originals own each piece. A call that is short of memory takes back what it has changed.
ghost use Rattle.std.specs.Prelude.{◌≡◌, ◌⊎◌, ◌↔◌, ℕ, false, IsTrue, All, AllPairs, Contains, map, Some, Err};
ghost use Rattle.std.specs.Prelude.{OnOk, OnErr, IfOk, IsNone, IsSome, IfSome};
ghost use Rattle.grid_base.specs.Point.{GridPoint, InBox, IsBefore};
ghost use Rattle.grid_base.specs.Segment.{GridSegment, IsSegmentBefore};
ghost use Rattle.grid_base.specs.Crossing.{Inside};
ghost use Rattle.grid_base.specs.Drawing.{Drawing as Drawn, IsPoint, IsPiece, HasViolation};
ghost use Rattle.hook_chain.specs.ValidChain.{ValidChain};
ghost use Rattle.hook_chain.specs.Steps.{Permitted};
ghost use Rattle.hook_chain.specs.Straight.{placed, AllBelow};
ghost use Rattle.hook_chain.specs.Ids.{IsAscending, LacksId, IsChainOf};
ghost use Rattle.hook_chain.specs.StandingChains.{IsSomeChain, AllStand};
ghost use Rattle.realm_drawing.specs.Keyed.{empty_drawing, HasKey, KeepsKeys, AreKeyed};
ghost use Rattle.realm_drawing.specs.Keyed.{AddsPoint, TakesPoint};
ghost use Rattle.realm_drawing.specs.Walks.{chains_from};
ghost use Rattle.hook_chain.specs.Mending.{IsPermitted, IsMending, HasParts};
ghost use Rattle.realm_drawing.specs.Draws.{DrawsAnew};
ghost use Rattle.hook_chain.specs.Changed.{PlacesChain, with_chain, without_id};
ghost use Rattle.realm_drawing.specs.declared.errors.ChainError.TheVariants.{NotAChain};
ghost use Rattle.realm_drawing.specs.declared.errors.StepError.TheVariants.{NotPermitted};

use crate::errors::{ChainError, StepError};
use crate::explicit::ExplicitPoints;
use crate::keyed::KeyedPiece;
use crate::leaving::drop_chain;
use crate::originals::{Originals, copied};
use crate::redrawing::put_paths;
use crate::shares::{add_shares, chain_shares};
use crate::violations::first_violation;
use crate::walks::Chains;
use chain_laws::{is_mending, original_of, redrawings_of};
use component_registry::Registry;
use grid_base::{Chain, NoMemory, Point, Segment, Step};
use std::alloc::Global;
use std::marker::Model;

/// Explicit points, and originals by rising id, each with the chain that stands for it. Contracts see them as
/// lists, beside the list of the pieces with their keys.
///
/// Each chain stands for its original at any time: it leads from the lesser end to the greater, is monotone in
/// both coordinates, and each of its links is close to the original or one of the two of a corner.
#[derive(Drop)]
pub struct Drawing {
    explicit: ExplicitPoints,
    originals: Originals,
    registry: Registry,
    alloc: Global,
}

impl Model for Drawing {
    ghost use Rattle.realm_drawing.specs.Keyed.{KeyedDrawing};
    ghost use Rattle.realm_drawing.specs.Kept.{drawn, IsInOrder};

    ghost Value = { KeyedDrawing };

    ghost view = { λ d. drawn d.explicit d.originals d.registry };

    ghost invariant = { λ d. IsInOrder d.explicit d.originals d.registry };
}

impl Drawing {
    /// The empty drawing.
    pub fn new(alloc: Global) -> Drawing
        ensures { result ≡ empty_drawing }
    {
        Drawing {
            explicit: ExplicitPoints::new(alloc),
            originals: Originals::new(alloc),
            registry: Registry::new(alloc),
            alloc,
        }
    }

    /// The same drawing once more, its pieces under the same keys. Takes as much memory as this one, and time
    /// nearly linear in it. Fails only for want of memory.
    pub fn copied(&self) -> Result<Drawing, NoMemory>
        ensures same { IfOk result (λ copy. copy ≡ self.now) }
    {
        Ok(Drawing {
            explicit: self.explicit.copied()?,
            originals: self.originals.copied(self.alloc)?,
            registry: self.registry.copied()?,
            alloc: self.alloc,
        })
    }

    /// Makes `p` explicit, and says whether it wasn't.
    pub fn add_point(&mut self, p: Point) -> Result<bool, NoMemory>
        ensures new { IfOk result (λ new. IsTrue new ↔ (Contains self.old.drawing.points p → ⊥)) }
        ensures added { OnOk result (AddsPoint self.old self.new p) }
        ensures ascending { AllPairs IsBefore self.new.drawing.points }
        ensures unchanged { OnErr result (self.new ≡ self.old) }
    {
        self.explicit.put(p)
    }

    /// Makes `p` no longer explicit, and says whether it was. A vertex of a chain is a point all the same.
    pub fn take_point(&mut self, p: &Point) -> bool
        ensures was { IsTrue result ↔ Contains self.old.drawing.points p.now }
        ensures taken { TakesPoint self.old self.new p.now }
        ensures ascending { AllPairs IsBefore self.new.drawing.points }
    {
        self.explicit.take(p)
    }

    /// Adds a straight original along `s`, whether or not it makes a violation.
    pub fn place(&mut self, id: u32, s: Segment) -> Result<(), NoMemory>
        requires id_above { AllBelow id self.old.drawing }
        ensures ok { OnOk result (self.new.drawing ≡ placed self.old.drawing id s) }
        ensures stand { AllStand self.new.drawing }
        ensures keyed { AreKeyed self.new }
        ensures keys { KeepsKeys self.old self.new }
        ensures unchanged { OnErr result (self.new ≡ self.old) }
    {
        let placed = self.place_straight(id, s);
        self.promises();
        placed
    }

    // The same, without what is true at any time.
    fn place_straight(&mut self, id: u32, s: Segment) -> Result<(), NoMemory>
        requires id_above { AllBelow id self.old.drawing }
        ensures ok { OnOk result (self.new.drawing ≡ placed self.old.drawing id s) }
        ensures keys { KeepsKeys self.old self.new }
        ensures unchanged { OnErr result (self.new ≡ self.old) }
    {
        let ends = vec![in self.alloc; s.a(), s.b()]?;
        self.place_valid(id, s, ends)
    }

    /// Adds an original from the first of `points` to the last, with these points for its chain.
    pub fn place_chain(&mut self, id: u32, points: &[Point]) -> Result<(), ChainError>
        requires id_above { AllBelow id self.old.drawing }
        ensures ok { OnOk result (PlacesChain self.old.drawing self.new.drawing id points.now) }
        ensures not_a_chain { (result ≡ Err NotAChain) ↔ (IsSomeChain points.now → ⊥) }
        ensures keys { KeepsKeys self.old self.new }
        ensures unchanged { OnErr result (self.new ≡ self.old) }
    {
        let alloc = self.alloc;
        let Some(s) = original_of(points) else {
            return Err(ChainError::NotAChain);
        };
        let list = copied(alloc, points)?;
        self.place_valid(id, s, list)?;
        Ok(())
    }

    // Adds an original along `s`, with a chain that may stand for it.
    fn place_valid(&mut self, id: u32, s: Segment, points: Vec<Point>) -> Result<(), NoMemory>
        requires id_above { AllBelow id self.old.drawing }
        requires valid { ValidChain s points.items }
        ensures ok { OnOk result (self.new.drawing ≡ with_chain self.old.drawing id s points.items) }
        ensures keys { KeepsKeys self.old self.new }
        ensures unchanged { OnErr result (self.new ≡ self.old) }
    {
        let mut shares = Vec::new(self.alloc);
        chain_shares(id, &points, &mut shares)?;
        self.originals.put(id, s, Chain::new(points))?;
        match add_shares(self.alloc, &mut self.registry, &shares) {
            Ok(_) => Ok(()),
            Err(NoMemory) => {
                self.originals.take(id);
                Err(NoMemory)
            }
        }
    }

    /// Takes out the original with this id, and says whether there was one. A piece that no other original has
    /// goes.
    pub fn remove(&mut self, id: u32) -> bool
        ensures found { IsTrue result ↔ (LacksId self.old.drawing.originals id → ⊥) }
        ensures removed { self.new.drawing ≡ without_id self.old.drawing id }
        ensures keys { KeepsKeys self.old self.new }
    {
        let Some(points) = self.originals.chain(id) else {
            return false;
        };
        drop_chain(&mut self.registry, id, points);
        self.originals.take(id);
        true
    }

    /// Takes a step where it is permitted: in each chain that has a piece of the step, the path of the step stands
    /// for the piece from then on.
    pub fn apply(&mut self, step: &Step) -> Result<(), StepError>
        ensures ok { OnOk result (Permitted self.old.drawing step.now self.new.drawing) }
        ensures not_permitted { (result ≡ Err NotPermitted)
            ↔ ((new : Drawn) → Permitted self.old.drawing step.now new → ⊥) }
        ensures stand { AllStand self.new.drawing }
        ensures keyed { AreKeyed self.new }
        ensures keys { KeepsKeys self.old self.new }
        ensures unchanged { OnErr result (self.new ≡ self.old) }
    {
        self.redraw(step)?;
        Ok(())
    }

    /// The same, and answers what the step draws anew: the pieces that weren't there, each with its key.
    pub fn redraw(&mut self, step: &Step) -> Result<Vec<KeyedPiece>, StepError>
        ensures ok { OnOk result (Permitted self.old.drawing step.now self.new.drawing) }
        ensures anew { IfOk result (λ list. DrawsAnew step.now self.old self.new list.items) }
        ensures not_permitted { (result ≡ Err NotPermitted)
            ↔ ((new : Drawn) → Permitted self.old.drawing step.now new → ⊥) }
        ensures stand { AllStand self.new.drawing }
        ensures keyed { AreKeyed self.new }
        ensures keys { KeepsKeys self.old self.new }
        ensures unchanged { OnErr result (self.new ≡ self.old) }
    {
        if !self.permits(step) {
            return Err(StepError::NotPermitted);
        }
        Ok(self.take(step)?)
    }

    // Takes a step that is permitted.
    fn take(&mut self, step: &Step) -> Result<Vec<KeyedPiece>, NoMemory>
        requires permitted { IsPermitted self.old.drawing step.now }
        ensures ok { OnOk result (Permitted self.old.drawing step.now self.new.drawing) }
        ensures anew { IfOk result (λ list. DrawsAnew step.now self.old self.new list.items) }
        ensures stand { AllStand self.new.drawing }
        ensures keyed { AreKeyed self.new }
        ensures keys { KeepsKeys self.old self.new }
        ensures unchanged { OnErr result (self.new ≡ self.old) }
    {
        let redrawings = redrawings_of(self.alloc, step)?;
        put_paths(
            self.alloc,
            &mut self.originals,
            &mut self.registry,
            &redrawings,
        )
    }

    // What is true of a drawing at any time.
    fn promises(&self)
        ensures stand { AllStand self.now.drawing }
        ensures keyed { AreKeyed self.now }
        ensures keys { KeepsKeys self.now self.now }
    {
        let _kept = &self.explicit;
    }

    // Whether the step may be taken.
    fn permits(&self, step: &Step) -> bool
        ensures permitted { IsTrue result ↔ IsPermitted self.now.drawing step.now }
        ensures stand { AllStand self.now.drawing }
        ensures keyed { AreKeyed self.now }
        ensures keys { KeepsKeys self.now self.now }
    {
        self.promises();
        self.has_parts(step) && is_mending(step)
    }

    // Whether the point of the step is a point of the drawing, and its pieces are pieces.
    fn has_parts(&self, step: &Step) -> bool
        ensures { IsTrue result ↔ HasParts self.now.drawing step.now }
    {
        match step {
            Step::Split { p, t } => self.is_point(p) && self.is_piece(t),
            Step::Meet { t, u, .. } => self.are_pieces(t, u),
            Step::Corner { t, u } => self.are_pieces(t, u),
        }
    }

    fn are_pieces(&self, t: &Segment, u: &Segment) -> bool
        ensures { IsTrue result ↔ (IsPiece self.now.drawing t.now × IsPiece self.now.drawing u.now) }
    {
        self.is_piece(t) && self.is_piece(u)
    }

    // Whether `s` is a piece.
    fn is_piece(&self, s: &Segment) -> bool
        ensures { IsTrue result ↔ IsPiece self.now.drawing s.now }
    {
        self.key(s).is_some()
    }

    /// The points that the original with this id leads by, from its lesser end to its greater.
    pub fn chain(&self, id: u32) -> Option<&[Point]>
        ensures none { IsNone result ↔ LacksId self.now.drawing.originals id }
        ensures chain { IfSome result (λ points. IsChainOf self.now.drawing id points.now) }
        ensures stand { AllStand self.now.drawing }
        ensures rising { IsAscending self.now.drawing.originals }
    {
        self.originals.chain(id)
    }

    /// The originals with this id or a greater one, by rising id, each as its id and the points that it leads by.
    /// Takes no memory.
    pub fn chains_from(&self, id: u32) -> Chains<'_>
        ensures exact { result ≡ chains_from id self.now.drawing.originals }
        ensures chain { All (λ c. IsChainOf self.now.drawing c.0 c.1) result }
        ensures stand { AllStand self.now.drawing }
        ensures rising { IsAscending self.now.drawing.originals }
    {
        self.originals.chains_from(id)
    }

    /// The ids of the originals, rising.
    pub fn ids(&self) -> Result<Vec<u32>, NoMemory>
        ensures ids { IfOk result (λ v. v.items ≡ map (λ o. o.id) self.now.drawing.originals) }
        ensures rising { IsAscending self.now.drawing.originals }
    {
        self.originals.ids(self.alloc)
    }

    /// Whether `p` is a point of the drawing: explicit, or a vertex of some chain.
    pub fn is_point(&self, p: &Point) -> bool
        ensures { IsTrue result ↔ IsPoint self.now.drawing p.now }
    {
        self.explicit.has(p) || self.registry.vertex_uses(p) > 0
    }

    /// Whether `p` is explicit.
    pub fn is_explicit(&self, p: &Point) -> bool
        ensures explicit { IsTrue result ↔ Contains self.now.drawing.points p.now }
        ensures ascending { AllPairs IsBefore self.now.drawing.points }
    {
        self.explicit.has(p)
    }

    /// The key of `piece`, the same until the piece is gone; none where it is no piece.
    pub fn key(&self, piece: &Segment) -> Option<usize>
        ensures key { (k : ℕ) → (result ≡ Some k) ↔ HasKey self.now piece.now k }
        ensures piece { IsSome result ↔ IsPiece self.now.drawing piece.now }
        ensures keyed { AreKeyed self.now }
    {
        self.registry.key(piece)
    }

    /// The piece with this key; none where no piece has it.
    pub fn piece(&self, key: usize) -> Option<Segment>
        ensures piece { (s : GridSegment) → (result ≡ Some s) ↔ HasKey self.now s key }
        ensures keyed { AreKeyed self.now }
    {
        self.registry.piece(key)
    }

    /// Which explicit points are in the box of `s`, rim included, ascending.
    pub fn explicit_in(&self, s: &Segment) -> Result<Vec<Point>, NoMemory>
        ensures exact { IfOk result (λ v. (p : GridPoint)
            → Contains v.items p ↔ (Contains self.now.drawing.points p × InBox s.now.a s.now.b p)) }
        ensures ascending { IfOk result (λ v. AllPairs IsBefore v.items) }
    {
        self.explicit.in_box_of(s)
    }

    /// An explicit point inside `s`; none where there is none. Takes no memory.
    pub fn explicit_inside(&self, s: &Segment) -> Option<Point>
        ensures none { IsNone result ↔ All (λ p. Inside p s.now → ⊥) self.now.drawing.points }
        ensures inside { IfSome result (λ p. Contains self.now.drawing.points p × Inside p s.now) }
    {
        self.explicit.first_inside(s)
    }

    /// A step that mends a violation, and may be taken; none where there is no violation. Takes no memory, and
    /// compares every piece with every other.
    pub fn first_violation(&self) -> Option<Step>
        ensures none { IsNone result ↔ (HasViolation self.now.drawing → ⊥) }
        ensures permitted { IfSome result (IsPermitted self.now.drawing) }
    {
        first_violation(&self.explicit, &self.originals)
    }

    /// All points, ascending.
    pub fn points(&self) -> Result<Vec<Point>, NoMemory>
        ensures ascending { IfOk result (λ v. AllPairs IsBefore v.items) }
        ensures exact { IfOk result (λ v. (p : GridPoint) → Contains v.items p ↔ IsPoint self.now.drawing p) }
    {
        let mut points = self.explicit.list()?;
        let vertices = self.registry.vertices()?;
        points.extend_from_slice(&vertices)?;
        points.sort_unstable();
        points.dedup();
        Ok(points)
    }

    /// All pieces, ascending.
    pub fn pieces(&self) -> Result<Vec<Segment>, NoMemory>
        ensures ascending { IfOk result (λ v. AllPairs IsSegmentBefore v.items) }
        ensures exact { IfOk result
            (λ v. (t : GridSegment) → Contains v.items t ↔ IsPiece self.now.drawing t) }
    {
        self.registry.pieces()
    }
}
