//! The explicit points: a set in the order of points.
ghost use Rattle.std.specs.Prelude.{◌≡◌, ◌⊎◌, ◌↔◌, ◌<◌, ◌≤◌, min, max, IsTrue};
ghost use Rattle.std.specs.Prelude.{IfOk, OnErr, All, AllPairs, Contains, MatchOption, []};
ghost use Rattle.grid_base.specs.Point.{GridPoint, IsBefore, point_at};
ghost use Rattle.grid_base.specs.Crossing.{Inside};

use grid_base::{NoMemory, Point, Segment, in_side};
use std::alloc::Global;
use std::collections::BTreeSet;
use std::marker::Model;

/// Points, ascending, each once. Contracts see the list.
#[derive(Drop)]
pub(crate) struct ExplicitPoints {
    set: BTreeSet<Point>,
}

impl Model for ExplicitPoints {
    ghost use Rattle.std.specs.Prelude.{List, AllPairs};
    ghost use Rattle.grid_base.specs.Point.{GridPoint, IsBefore};

    ghost Value = { List GridPoint };

    ghost view = { λ e. e.set.keys };

    ghost invariant = { λ e. AllPairs IsBefore e.set.keys };
}

impl ExplicitPoints {
    pub(crate) fn new(alloc: Global) -> ExplicitPoints
        ensures { result ≡ [] }
    {
        ExplicitPoints {
            set: BTreeSet::new(alloc),
        }
    }

    // Whether `p` is there.
    pub(crate) fn has(&self, p: &Point) -> bool
        ensures { IsTrue result ↔ Contains self.now p.now }
    {
        self.set.contains(p)
    }

    // Puts `p`, and says whether it is new.
    pub(crate) fn put(&mut self, p: Point) -> Result<bool, NoMemory>
        ensures new { IfOk result (λ new. IsTrue new ↔ (Contains self.old p → ⊥)) }
        ensures members { IfOk result (λ _. (q : GridPoint) → Contains self.new q ↔ ((q ≡ p) ⊎ Contains self.old q)) }
        ensures unchanged { OnErr result (self.new ≡ self.old) }
        ensures ascending { AllPairs IsBefore self.new }
    {
        Ok(self.set.insert(p)?)
    }

    // Takes `p` out, and says whether it was there.
    pub(crate) fn take(&mut self, p: &Point) -> bool
        ensures was { IsTrue result ↔ Contains self.old p.now }
        ensures members { (q : GridPoint) → Contains self.new q ↔ (Contains self.old q × (q ≡ p.now → ⊥)) }
        ensures ascending { AllPairs IsBefore self.new }
    {
        self.set.remove(p)
    }

    // The first that is inside `s`. Only the columns of its box are read.
    pub(crate) fn first_inside(&self, s: &Segment) -> Option<Point>
        ensures { MatchOption result (All (λ p. Inside p s.now → ⊥) self.now)
            (λ p. Contains self.now p × Inside p s.now) }
    {
        let (least, greatest) = corners_of(s);
        self.set
            .range(least..=greatest)
            .find(|p| in_side(s, p))
            .copied()
    }
}

// The least point and the greatest, in the order of points, in the box of `s`.
fn corners_of(s: &Segment) -> (Point, Point)
    ensures least { result.0 ≡ point_at s.now.a.x (min s.now.a.y s.now.b.y) }
    ensures greatest { result.1 ≡ point_at s.now.b.x (max s.now.a.y s.now.b.y) }
    ensures ordered { s.now.a.x ≤ s.now.b.x }
{
    let (a, b) = (s.a(), s.b());
    (
        Point::at(a.x(), a.y().min(b.y())),
        Point::at(b.x(), a.y().max(b.y())),
    )
}
