//! The drawing that an auditor keeps. Each call takes the board and gives it back changed, so that none is left where
//! memory runs out on the way.
ghost use Rattle.std.specs.Prelude.{◌≡◌, ◌⊎◌, ◌↔◌, ◌<◌, [], IsTrue, IfOk, OnOk, All, AllPairs, Contains, MatchOption};
ghost use Rattle.grid_base.specs.Point.{GridPoint, IsBefore};
ghost use Rattle.grid_base.specs.Segment.{GridSegment};
ghost use Rattle.grid_base.specs.Drawing.{Drawing, IsPoint, IsPiece, HasViolation};
ghost use Rattle.hook_chain.specs.ValidChain.{ValidChain};
ghost use Rattle.hook_chain.specs.Steps.{Permitted};
ghost use Rattle.hook_chain.specs.Straight.{AllBelow, placed};
ghost use Rattle.hook_chain.specs.Ids.{LacksId};
ghost use Rattle.hook_chain.specs.Changed.{with_chain, without_id};
ghost use Rattle.chain_laws.specs.Redraws.{IsPathFor};
ghost use Rattle.realm_audit.specs.Redraws.{redraw_by};
ghost use Rattle.hook_chain.specs.Mending.{IsMending, HasParts};
ghost use Rattle.realm_audit.specs.Audits.{GainsPoint, LosesPoint};

use crate::explicit::ExplicitPoints;
use crate::fresh::{have_clash, is_vertex};
use crate::links::{list_links, put_links, put_owners, take_links, take_owners};
use crate::originals::Originals;
use crate::redrawing::{install, replacements};
use crate::shares::Shares;
use chain_laws::{Redrawing, is_mending, redrawings_of};
use grid_base::{Chain, NoMemory, Point, Segment, Step};
use std::alloc::Global;
use std::marker::Model;

/// Explicit points, originals and the shares of their pieces, and what is fresh: what came since the drawing had no
/// violation. Contracts see the drawing.
#[derive(Drop)]
pub(crate) struct Board {
    explicit: ExplicitPoints,
    originals: Originals,
    shares: Shares,
    fresh_pieces: Vec<Segment>,
    fresh_points: Vec<Point>,
    alloc: Global,
}

impl Model for Board {
    ghost use Rattle.grid_base.specs.Drawing.{Drawing};
    ghost use Rattle.realm_audit.specs.Kept.{drawing_of, IsInOrder};

    ghost Value = { Drawing };

    ghost view = { λ b. drawing_of b.explicit b.originals };

    ghost invariant = { λ b. IsInOrder b.explicit b.originals b.shares b.fresh_pieces.items b.fresh_points.items };
}

impl Board {
    pub(crate) fn new(alloc: Global) -> Board
        ensures { result ≡ record { points = []; originals = [] } }
    {
        Board {
            explicit: ExplicitPoints::new(alloc),
            originals: Originals::new(alloc),
            shares: Shares::new(alloc),
            fresh_pieces: Vec::new(alloc),
            fresh_points: Vec::new(alloc),
            alloc,
        }
    }

    // Whether `p` is explicit.
    pub(crate) fn is_explicit(&self, p: &Point) -> bool
        ensures { IsTrue result ↔ Contains self.now.points p.now }
    {
        self.explicit.has(p)
    }

    // Whether an original has this id.
    pub(crate) fn has_id(&self, id: u32) -> bool
        ensures { IsTrue result ↔ (LacksId self.now.originals id → ⊥) }
    {
        self.originals.chain(id).is_some()
    }

    // The drawing with one more explicit point.
    pub(crate) fn with_point(self, p: Point) -> Result<Board, NoMemory>
        ensures { IfOk result (λ b. GainsPoint self b p) }
    {
        let Board {
            mut explicit,
            originals,
            shares,
            fresh_pieces,
            mut fresh_points,
            alloc,
        } = self;
        explicit.put(p)?;
        fresh_points.push(p)?;
        Ok(Board {
            explicit,
            originals,
            shares,
            fresh_pieces,
            fresh_points,
            alloc,
        })
    }

    // The drawing with one explicit point less.
    pub(crate) fn without_point(self, p: &Point) -> Board
        ensures { LosesPoint self result p.now }
    {
        let Board {
            mut explicit,
            originals,
            shares,
            fresh_pieces,
            fresh_points,
            alloc,
        } = self;
        explicit.take(p);
        Board {
            explicit,
            originals,
            shares,
            fresh_pieces,
            fresh_points,
            alloc,
        }
    }

    // The drawing with one more original, along `line` by these points.
    pub(crate) fn with_original(
        self,
        id: u32,
        line: Segment,
        points: Vec<Point>,
    ) -> Result<Board, NoMemory>
        requires id_above { AllBelow id self }
        requires valid { ValidChain line points.items }
        ensures { IfOk result (λ b. b ≡ with_chain self id line points.items) }
    {
        let Board {
            explicit,
            mut originals,
            mut shares,
            mut fresh_pieces,
            fresh_points,
            alloc,
        } = self;
        put_links(&mut shares, id, points.as_slice())?;
        list_links(&mut fresh_pieces, points.as_slice())?;
        originals.put(id, line, Chain::new(points))?;
        Ok(Board {
            explicit,
            originals,
            shares,
            fresh_pieces,
            fresh_points,
            alloc,
        })
    }

    // The drawing with one more straight original.
    pub(crate) fn with_straight(self, id: u32, line: Segment) -> Result<Board, NoMemory>
        requires id_above { AllBelow id self }
        ensures { IfOk result (λ b. b ≡ placed self id line) }
    {
        let ends = vec![in self.alloc; line.a(), line.b()]?;
        self.with_original(id, line, ends)
    }

    // The drawing without the original with this id, if there is one.
    pub(crate) fn without_original(self, id: u32) -> Board
        ensures { result ≡ without_id self id }
    {
        let Board {
            explicit,
            mut originals,
            mut shares,
            fresh_pieces,
            fresh_points,
            alloc,
        } = self;
        if let Some(points) = originals.chain(id) {
            take_links(&mut shares, id, points);
        }
        originals.take(id);
        Board {
            explicit,
            originals,
            shares,
            fresh_pieces,
            fresh_points,
            alloc,
        }
    }

    // Whether the step may be taken.
    pub(crate) fn permits(&self, step: &Step) -> Result<bool, NoMemory>
        ensures { IfOk result (λ yes. IsTrue yes ↔ (HasParts self.now step.now × IsMending step.now)) }
    {
        Ok(self.has_parts(step)? && is_mending(step))
    }

    // Whether the point of the step is a point of the drawing, and its pieces are pieces.
    fn has_parts(&self, step: &Step) -> Result<bool, NoMemory>
        ensures { IfOk result (λ yes. IsTrue yes ↔ HasParts self.now step.now) }
    {
        match step {
            Step::Split { p, t } => Ok(self.is_point(p)? && self.is_piece(t)?),
            Step::Meet { t, u, .. } => self.are_pieces(t, u),
            Step::Corner { t, u } => self.are_pieces(t, u),
        }
    }

    fn are_pieces(&self, t: &Segment, u: &Segment) -> Result<bool, NoMemory>
        ensures { IfOk result (λ yes. IsTrue yes ↔ (IsPiece self.now t.now × IsPiece self.now u.now)) }
    {
        Ok(self.is_piece(t)? && self.is_piece(u)?)
    }

    fn is_piece(&self, t: &Segment) -> Result<bool, NoMemory>
        ensures { IfOk result (λ yes. IsTrue yes ↔ IsPiece self.now t.now) }
    {
        self.shares.is_piece(t)
    }

    fn is_point(&self, p: &Point) -> Result<bool, NoMemory>
        ensures { IfOk result (λ yes. IsTrue yes ↔ IsPoint self.now p.now) }
    {
        Ok(self.explicit.has(p) || is_vertex(&self.shares, p)?)
    }

    // The drawing after a step that may be taken.
    pub(crate) fn after(self, step: &Step) -> Result<Board, NoMemory>
        requires parts { HasParts self step.now }
        requires mending { IsMending step.now }
        ensures { IfOk result (λ b. Permitted self step.now b) }
    {
        let redrawings = redrawings_of(self.alloc, step)?;
        let once = self.redrawn(&redrawings.first)?;
        match &redrawings.second {
            Some(second) => once.redrawn(second),
            None => Ok(once),
        }
    }

    // The drawing with the path in the place of the piece.
    fn redrawn(self, step: &Redrawing) -> Result<Board, NoMemory>
        requires { IsPathFor step.now }
        ensures { IfOk result (λ b. b ≡ redraw_by step.now self) }
    {
        let Board {
            explicit,
            mut originals,
            mut shares,
            mut fresh_pieces,
            fresh_points,
            alloc,
        } = self;
        let owners = shares.owners(&step.piece)?;
        let list = replacements(alloc, &originals, owners.as_slice(), step)?;
        install(&mut originals, step, list);
        take_owners(&mut shares, &step.piece, owners.as_slice());
        put_owners(&mut shares, owners.as_slice(), step.path.points())?;
        list_links(&mut fresh_pieces, step.path.points())?;
        Ok(Board {
            explicit,
            originals,
            shares,
            fresh_pieces,
            fresh_points,
            alloc,
        })
    }

    // Whether there is a violation.
    fn is_violated(&self) -> Result<bool, NoMemory>
        ensures { IfOk result (λ yes. IsTrue yes ↔ HasViolation self.now) }
    {
        have_clash(
            &self.explicit,
            &self.shares,
            self.fresh_pieces.as_slice(),
            self.fresh_points.as_slice(),
        )
    }

    // The board of the same drawing, with nothing fresh; none where there is a violation.
    pub(crate) fn settled(self) -> Result<Option<Board>, NoMemory>
        ensures { IfOk result (λ found. MatchOption found (HasViolation self) (λ b. (b ≡ self) × (HasViolation b → ⊥))) }
    {
        self.with_each_once().cleared()
    }

    // The board of the same drawing, where each fresh piece is listed once, and near ones one after the other.
    fn with_each_once(self) -> Board
        ensures { result ≡ self }
    {
        let Board {
            explicit,
            originals,
            shares,
            mut fresh_pieces,
            fresh_points,
            alloc,
        } = self;
        fresh_pieces.sort_unstable();
        fresh_pieces.dedup();
        Board {
            explicit,
            originals,
            shares,
            fresh_pieces,
            fresh_points,
            alloc,
        }
    }

    // The same as `settled`, where each fresh piece is looked at as often as it is listed.
    fn cleared(self) -> Result<Option<Board>, NoMemory>
        ensures { IfOk result (λ found. MatchOption found (HasViolation self) (λ b. (b ≡ self) × (HasViolation b → ⊥))) }
    {
        if self.is_violated()? {
            return Ok(None);
        }
        let Board {
            explicit,
            originals,
            shares,
            mut fresh_pieces,
            mut fresh_points,
            alloc,
        } = self;
        fresh_pieces.clear();
        fresh_points.clear();
        Ok(Some(Board {
            explicit,
            originals,
            shares,
            fresh_pieces,
            fresh_points,
            alloc,
        }))
    }
}
