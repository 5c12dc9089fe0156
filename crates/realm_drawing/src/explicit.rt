//! The explicit points: a set in the order of points. A scan for a segment goes through the columns of its box, and
//! jumps to where the box goes on once it has passed a few points above or below it.
ghost use Rattle.std.specs.Prelude.{◌≡◌, ◌⊎◌, ◌↔◌, ◌+◌, ◌<◌, ◌≤◌, min, max, filter, IsTrue};
ghost use Rattle.std.specs.Prelude.{IfOk, OnErr, All, AllPairs, Contains, MatchOption, []};
ghost use Rattle.std.specs.ControlFlow.{MatchControlFlow};
ghost use Rattle.std.specs.Map.Iter.{ShowsInOrder, deref};
ghost use Rattle.grid_base.specs.Point.{GridPoint, InBox, IsBefore, point_at};
ghost use Rattle.grid_base.specs.Crossing.{Inside};
ghost use Rattle.realm_drawing.specs.Scans.{Reaches, IsAhead, LeadsTo, ListsBefore, NoneBefore, is_scanned};

use grid_base::{NoMemory, Point, Segment, in_box, in_side};
use std::alloc::Global;
use std::collections::BTreeSet;
use std::collections::btree_set::Range;
use std::marker::Model;
use std::ops::ControlFlow;

// How many points out of the box a scan passes before it jumps. Where a column has few, passing them costs less.
const SPARE_READS: u32 = 8;

/// Points, ascending, each once. Contracts see the list.
#[derive(Drop)]
pub(crate) struct ExplicitPoints {
    set: BTreeSet<Point>,
    alloc: Global,
}

impl Model for ExplicitPoints {
    ghost use Rattle.std.specs.Prelude.{List, AllPairs};
    ghost use Rattle.grid_base.specs.Point.{GridPoint, IsBefore};

    ghost Value = { List GridPoint };

    ghost view = { λ e. e.set.keys };

    ghost invariant = { λ e. AllPairs IsBefore e.set.keys };
}

impl ExplicitPoints {
    pub(crate) fn new(alloc: Global) -> ExplicitPoints
        ensures { result ≡ [] }
    {
        ExplicitPoints {
            set: BTreeSet::new(alloc),
            alloc,
        }
    }

    // The same points in a set of their own.
    pub(crate) fn copied(&self) -> Result<ExplicitPoints, NoMemory>
        ensures same { IfOk result (λ copy. copy ≡ self.now) }
    {
        Ok(ExplicitPoints {
            set: self.set.clone()?,
            alloc: self.alloc,
        })
    }

    // Whether `p` is there.
    pub(crate) fn has(&self, p: &Point) -> bool
        ensures { IsTrue result ↔ Contains self.now p.now }
    {
        self.set.contains(p)
    }

    // Puts `p`, and says whether it is new.
    pub(crate) fn put(&mut self, p: Point) -> Result<bool, NoMemory>
        ensures new { IfOk result (λ new. IsTrue new ↔ (Contains self.old p → ⊥)) }
        ensures members { IfOk result (λ _. (q : GridPoint) → Contains self.new q ↔ ((q ≡ p) ⊎ Contains self.old q)) }
        ensures unchanged { OnErr result (self.new ≡ self.old) }
        ensures ascending { AllPairs IsBefore self.new }
    {
        Ok(self.set.insert(p)?)
    }

    // Takes `p` out, and says whether it was there.
    pub(crate) fn take(&mut self, p: &Point) -> bool
        ensures was { IsTrue result ↔ Contains self.old p.now }
        ensures members { (q : GridPoint) → Contains self.new q ↔ (Contains self.old q × (q ≡ p.now → ⊥)) }
        ensures ascending { AllPairs IsBefore self.new }
    {
        self.set.remove(p)
    }

    // All of them, ascending.
    pub(crate) fn list(&self) -> Result<Vec<Point>, NoMemory>
        ensures { IfOk result (λ v. v.items ≡ self.now) }
    {
        Ok(self.set.iter().copied().collect(self.alloc)?)
    }

    // Those in the box of `s`, ascending. Above and below the box only a few points are read for each column.
    pub(crate) fn in_box_of(&self, s: &Segment) -> Result<Vec<Point>, NoMemory>
        ensures exact { IfOk result (λ v. (p : GridPoint) → Contains v.items p
            ↔ (Contains self.now p × InBox s.now.a s.now.b p)) }
        ensures ascending { IfOk result (λ v. AllPairs IsBefore v.items) }
    {
        let mut list = Vec::new(self.alloc);
        let mut column = first_column(s);
        while let Some(next) = self.list_from(s, column, &mut list)? {
            column = next;
        }
        Ok(list)
    }

    // Adds those in the box of `s` from this column on, up to where the scan jumps, and says to which column.
    fn list_from(
        &self,
        s: &Segment,
        column: u32,
        list: &mut Vec<Point>,
    ) -> Result<Option<u32>, NoMemory>
        requires reached { Reaches s.now column }
        requires listed { ListsBefore self.now s.now column list.old.items }
        ensures { IfOk result (λ next. MatchOption next
            (ListsBefore self.now s.now (s.now.b.x + 1) list.new.items)
            (λ to. IsAhead s.now column to × ListsBefore self.now s.now to list.new.items)) }
    {
        let mut spare = SPARE_READS;
        for p in self.scan_from(s, column) {
            if in_box(s, p) {
                list.push(*p)?;
            } else if spare == 0 {
                return Ok(Some(column_after(s, p)));
            } else {
                spare -= 1;
            }
        }
        Ok(None)
    }

    // The first that is inside `s`. Above and below its box only a few points are read for each column.
    pub(crate) fn first_inside(&self, s: &Segment) -> Option<Point>
        ensures { MatchOption result (All (λ p. Inside p s.now → ⊥) self.now)
            (λ p. Contains self.now p × Inside p s.now) }
    {
        let mut column = first_column(s);
        loop {
            match self.inside_from(s, column) {
                ControlFlow::Break(found) => return found,
                ControlFlow::Continue(next) => column = next,
            }
        }
    }

    // The first that is inside `s`, from this column on, or else the column to which the scan jumps.
    fn inside_from(&self, s: &Segment, column: u32) -> ControlFlow<Option<Point>, u32>
        requires reached { Reaches s.now column }
        requires passed { NoneBefore self.now s.now column }
        ensures { MatchControlFlow result (λ to. IsAhead s.now column to × NoneBefore self.now s.now to)
            (λ found. MatchOption found (All (λ p. Inside p s.now → ⊥) self.now)
            (λ p. Contains self.now p × Inside p s.now)) }
    {
        let mut spare = SPARE_READS;
        for p in self.scan_from(s, column) {
            if in_side(s, p) {
                return ControlFlow::Break(Some(*p));
            }
            if !in_box(s, p) {
                if spare == 0 {
                    return ControlFlow::Continue(column_after(s, p));
                }
                spare -= 1;
            }
        }
        ControlFlow::Break(None)
    }

    // All from the least row of the box of `s` in this column to the greatest point of the box.
    fn scan_from(&self, s: &Segment, column: u32) -> Range<'_, Point>
        requires reached { Reaches s.now column }
        ensures rest { result ≡ filter (is_scanned s.now column) self.now }
        ensures runs { ShowsInOrder (deref {X = Point}) }
        ensures ascending { AllPairs IsBefore self.now }
    {
        let (least, greatest) = corners_of(s);
        self.set.range(Point::at(column, least.y())..=greatest)
    }
}

// The column of the lesser end.
fn first_column(s: &Segment) -> u32
    ensures first { result ≡ s.now.a.x }
    ensures reached { Reaches s.now result }
{
    s.a().x()
}

// The first column that has points of the box of `s` behind `p`, which is out of it.
fn column_after(s: &Segment, p: &Point) -> u32
    ensures { LeadsTo s.now p.now result }
{
    if p.y() < s.a().y().min(s.b().y()) {
        p.x()
    } else {
        p.x() + 1
    }
}

// The least point and the greatest, in the order of points, in the box of `s`.
fn corners_of(s: &Segment) -> (Point, Point)
    ensures least { result.0 ≡ point_at s.now.a.x (min s.now.a.y s.now.b.y) }
    ensures greatest { result.1 ≡ point_at s.now.b.x (max s.now.a.y s.now.b.y) }
    ensures ordered { s.now.a.x ≤ s.now.b.x }
{
    let (a, b) = (s.a(), s.b());
    (
        Point::at(a.x(), a.y().min(b.y())),
        Point::at(b.x(), a.y().max(b.y())),
    )
}
