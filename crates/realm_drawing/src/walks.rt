//! A walk along the originals by rising id: going on to the next one takes no search from the top of the map.
ghost use Rattle.std.specs.Prelude.{◌≡◌, length, map};
ghost use Rattle.std.specs.Iterator.{at_most};
ghost use Rattle.std.specs.Map.Iter.{TakesFirst};
ghost use Rattle.realm_drawing.specs.ById.{chain_of};
ghost use Rattle.realm_drawing.specs.Walks.{shown};

use crate::originals::Placed;
use grid_base::Point;
use std::collections::btree_map::Range;
use std::marker::Model;

/// Originals by rising id, each as its id and the points that it leads by. Contracts see the list of those that are
/// still to come.
#[derive(Drop)]
pub struct Chains<'a> {
    rest: Range<'a, u32, Placed>,
}

impl<'a> Model for Chains<'a> {
    ghost use Rattle.std.specs.Prelude.{ℕ, List, map};
    ghost use Rattle.grid_base.specs.Point.{GridPoint};
    ghost use Rattle.realm_drawing.specs.ById.{chain_of};

    ghost Value = { List (ℕ × List GridPoint) };

    ghost view = { λ c. map chain_of c.rest };
}

impl<'a> Chains<'a> {
    // The walk along these.
    pub(crate) fn new(rest: Range<'a, u32, Placed>) -> Chains<'a>
        ensures { result ≡ map chain_of rest.entry }
    {
        Chains { rest }
    }
}

impl<'a> Iterator for Chains<'a> {
    type Item = (u32, &'a [Point]);

    ghost next_gives = { TakesFirst shown };

    ghost remaining = { λ s. at_most (length s) };

    fn next(&mut self) -> Option<(u32, &'a [Point])> {
        let (id, placed) = self.rest.next()?;
        Some((*id, placed.chain.points()))
    }
}
