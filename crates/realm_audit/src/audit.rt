//! What the lines of a certificate make. Each call takes the audit, and gives back the one to which a line leads, or none
//! where the line doesn't hold.
ghost use Rattle.std.specs.Prelude.{◌≡◌, ◌↔◌, ◌≤◌, ◌<◌, ◌^◌, ◌⊎◌, IsTrue, IfOk, MatchOption, List, ℕ};
ghost use Rattle.grid_base.specs.Point.{IsBefore};
ghost use Rattle.hook_chain.specs.ValidChain.{ValidChain};
ghost use Rattle.realm_audit.specs.Audits as audits;
ghost use Rattle.realm_audit.specs.Audits.{first_audit, LineHolds, Accepts, TakesPoints};
ghost use Rattle.realm_audit.specs.Outcomes.{LeadsBy, LeadsByText};
ghost use Rattle.realm_audit.specs.declared.item.Item.TheVariants as items;

use crate::board::Board;
use crate::item::Item;
use crate::phase::Phase;
use crate::reading::read_item;
use chain_laws::original_of;
use grid_base::{Chain, NoMemory, Point, Segment, Step};
use std::alloc::Global;
use std::marker::Model;

/// A drawing, and how far the certificate has come.
#[derive(Drop)]
pub(crate) struct Audit {
    board: Board,
    greatest: u32,
    phase: Phase,
    changes: u64,
    steps: u64,
}

impl Model for Audit {
    ghost use Rattle.std.specs.Prelude.{◌≤◌, ◌^◌, All};
    ghost use Rattle.realm_audit.specs.Audits.{Audit};
    ghost use Rattle.realm_audit.specs.Outcomes.{audit_of, IsSoundAudit};

    ghost Value = { Audit };

    ghost view = { λ a. audit_of a.board a.greatest a.phase a.changes a.steps };

    ghost invariant = { λ a. IsSoundAudit a.board a.greatest a.changes a.steps };
}

// One more, up to 2^63.
pub(crate) fn next_count(n: u64) -> u64
    requires { n ≤ 2 ^ 63 }
    ensures next { result ≡ audits.next_count n }
    ensures within { result ≤ 2 ^ 63 }
{
    if n < 9_223_372_036_854_775_808 {
        n + 1
    } else {
        n
    }
}

impl Audit {
    // Nothing was heard.
    pub(crate) fn new(alloc: Global) -> Audit
        ensures { result ≡ first_audit }
    {
        Audit {
            board: Board::new(alloc),
            greatest: 0,
            phase: Phase::Opening,
            changes: 0,
            steps: 0,
        }
    }

    // Whether the last line was heard, and how many changes and steps there were.
    pub(crate) fn counts(&self) -> (bool, u64, u64)
        ensures ended { IsTrue result.0 ↔ (self.now.phase ≡ Phase.Ended) }
        ensures changes { result.1 ≡ self.now.changes }
        ensures steps { result.2 ≡ self.now.steps }
    {
        (self.phase == Phase::Ended, self.changes, self.steps)
    }

    // The audit after the line with this text.
    pub(crate) fn after(self, alloc: Global, text: &[u8]) -> Result<Option<Audit>, NoMemory>
        ensures { IfOk result (LeadsByText self text.now) }
    {
        match read_item(alloc, text)? {
            Some(item) => self.after_item(item),
            None => Ok(None),
        }
    }

    // The audit after the item.
    fn after_item(self, item: Item) -> Result<Option<Audit>, NoMemory>
        ensures { IfOk result (LeadsBy self item) }
    {
        match item {
            Item::Point(p) => self.with_point(p),
            Item::Unpoint(p) => Ok(self.without_point(p)),
            Item::Original(id, chain) => self.with_original(id, chain),
            Item::Change => self.at_change(),
            Item::Remove(id) => Ok(self.without_original(id)),
            Item::Segment(id, p, q) => self.with_segment(id, p, q),
            Item::Step(step) => self.after_step(&step),
            Item::End => self.at_end(),
        }
    }

    fn with_point(self, p: Point) -> Result<Option<Audit>, NoMemory>
        ensures { IfOk result (LeadsBy self (items.Point p)) }
    {
        if !self.phase.takes_points() || self.board.is_explicit(&p) {
            return Ok(None);
        }
        let Audit {
            board,
            greatest,
            phase,
            changes,
            steps,
        } = self;
        let board = board.with_point(p)?;
        Ok(Some(Audit {
            board,
            greatest,
            phase,
            changes,
            steps,
        }))
    }

    fn without_point(self, p: Point) -> Option<Audit>
        ensures { LeadsBy self (items.Unpoint p) result }
    {
        if self.phase != Phase::Placing || !self.board.is_explicit(&p) {
            return None;
        }
        let Audit {
            board,
            greatest,
            phase,
            changes,
            steps,
        } = self;
        let board = board.without_point(&p);
        Some(Audit {
            board,
            greatest,
            phase,
            changes,
            steps,
        })
    }

    fn with_original(self, id: u32, chain: Chain) -> Result<Option<Audit>, NoMemory>
        ensures { IfOk result (LeadsBy self (items.Original id chain)) }
    {
        if self.phase != Phase::Opening || id <= self.greatest {
            return Ok(None);
        }
        let Some(line) = original_of(chain.points()) else {
            return Ok(None);
        };
        let Audit {
            board,
            phase,
            changes,
            steps,
            ..
        } = self;
        let board = board.with_original(id, line, chain.into_points())?;
        Ok(Some(Audit {
            board,
            greatest: id,
            phase,
            changes,
            steps,
        }))
    }

    fn at_change(self) -> Result<Option<Audit>, NoMemory>
        ensures { IfOk result (LeadsBy self items.Change) }
    {
        if self.phase == Phase::Ended {
            return Ok(None);
        }
        let Audit {
            board,
            greatest,
            changes,
            steps,
            ..
        } = self;
        let Some(board) = board.settled()? else {
            return Ok(None);
        };
        Ok(Some(Audit {
            board,
            greatest,
            phase: Phase::Placing,
            changes: next_count(changes),
            steps,
        }))
    }

    fn without_original(self, id: u32) -> Option<Audit>
        ensures { LeadsBy self (items.Remove id) result }
    {
        if self.phase != Phase::Placing || !self.board.has_id(id) {
            return None;
        }
        let Audit {
            board,
            greatest,
            phase,
            changes,
            steps,
        } = self;
        let board = board.without_original(id);
        Some(Audit {
            board,
            greatest,
            phase,
            changes,
            steps,
        })
    }

    fn with_segment(self, id: u32, p: Point, q: Point) -> Result<Option<Audit>, NoMemory>
        ensures { IfOk result (LeadsBy self (items.Segment id p q)) }
    {
        if self.phase != Phase::Placing || id <= self.greatest || !p.comes_before(&q) {
            return Ok(None);
        }
        let Audit {
            board,
            phase,
            changes,
            steps,
            ..
        } = self;
        let Some(line) = Segment::new(p, q) else {
            return Ok(None);
        };
        let board = board.with_straight(id, line)?;
        Ok(Some(Audit {
            board,
            greatest: id,
            phase,
            changes,
            steps,
        }))
    }

    fn after_step(self, step: &Step) -> Result<Option<Audit>, NoMemory>
        ensures { IfOk result (LeadsBy self (items.Step step.now)) }
    {
        if !self.phase.takes_steps() || !self.board.permits(step)? {
            return Ok(None);
        }
        let Audit {
            board,
            greatest,
            changes,
            steps,
            ..
        } = self;
        let board = board.after(step)?;
        Ok(Some(Audit {
            board,
            greatest,
            phase: Phase::Stepping,
            changes,
            steps: next_count(steps),
        }))
    }

    fn at_end(self) -> Result<Option<Audit>, NoMemory>
        ensures { IfOk result (LeadsBy self items.End) }
    {
        if self.phase == Phase::Ended {
            return Ok(None);
        }
        let Audit {
            board,
            greatest,
            changes,
            steps,
            ..
        } = self;
        let Some(last) = board.settled()? else {
            return Ok(None);
        };
        Ok(Some(Audit {
            board: last,
            greatest,
            phase: Phase::Ended,
            changes,
            steps,
        }))
    }
}
