//! A path in the place of a piece of a chain. Where the chain passes the piece is found by a binary
//! search: along a chain no coordinate turns back, so how many columns and rows it has come rises.
ghost use Rattle.std.specs.Prelude.{◌≡◌, ◌≢◌, ◌<◌, ◌+◌, ◌-◌, ◌↔◌, ◌++◌, IsTrue, Some, MatchOption, IfOk, All};
ghost use Rattle.std.specs.Prelude.{length, take, drop, reverse};
ghost use Rattle.grid_base.specs.Drawing.{HasLink};
ghost use Rattle.hook_chain.specs.Chains.{RunsFrom};
ghost use Rattle.hook_chain.specs.Redrawing.{redrawn};
ghost use Rattle.hook_chain.specs.StandingChains.{IsSomeChain};
ghost use Rattle.realm_drawing.specs.Redraws.{Becomes};
ghost use Rattle.hook_chain.specs.Measure as measure;
ghost use Rattle.realm_drawing.specs.Passages.{IsPlaceAt, IsOnlyPlace, PassesAt};

use chain_laws::Redrawing;
use grid_base::{Chain, NoMemory, Point, Segment};
use std::alloc::Global;

// Where a chain passes a piece: the place of the end by which it comes to it.
enum Passage {
    // from the lesser end to the greater
    Forth(usize),
    // from the greater end to the lesser
    Back(usize),
}

// The chain with the path in the place of the piece; none where it doesn't pass the piece.
pub(crate) fn with_path(
    alloc: Global,
    points: &[Point],
    redrawing: &Redrawing,
) -> Result<Option<Chain>, NoMemory>
    requires chain { IsSomeChain points.now }
    requires leads { RunsFrom redrawing.now.piece.a redrawing.now.piece.b redrawing.now.path }
    ensures { IfOk result
        (Becomes points.now (redrawn redrawing.now.piece redrawing.now.path points.now)) }
{
    let path = redrawing.path.points();
    match passage_of(points, &redrawing.piece) {
        Some(Passage::Forth(place)) => with_way(alloc, points, place, &path[..path.len() - 1]),
        Some(Passage::Back(place)) => {
            let way = backwards(alloc, &path[1..])?;
            with_way(alloc, points, place, &way)
        }
        None => Ok(None),
    }
}

// The points with the way in the place of one of them, in a list that is made at its full length.
fn with_way(
    alloc: Global,
    points: &[Point],
    place: usize,
    way: &[Point],
) -> Result<Option<Chain>, NoMemory>
    requires within { place < length points.now }
    ensures { IfOk result
        (λ chain. chain ≡ Some (take place points.now ++ way.now ++ drop (place + 1) points.now)) }
{
    let mut list = Vec::with_capacity(alloc, points.len().saturating_add(way.len()))?;
    list.extend_from_slice(&points[..place])?;
    list.extend_from_slice(way)?;
    list.extend_from_slice(&points[place + 1..])?;
    Ok(Some(Chain::new(list)))
}

// The path from its last point to its first.
fn backwards(alloc: Global, path: &[Point]) -> Result<Vec<Point>, NoMemory>
    ensures { IfOk result (λ list. list.items ≡ reverse path.now) }
{
    Ok(path.iter().rev().copied().collect(alloc)?)
}

// Where the chain passes the piece, which it does at most once.
fn passage_of(chain: &[Point], piece: &Segment) -> Option<Passage>
    requires chain { IsSomeChain chain.now }
    ensures { MatchOption result (HasLink chain.now piece.now → ⊥) (PassesAt chain.now piece.now) }
{
    let place = place_of_point(chain, &piece.a())?;
    let other = piece.b();
    if is_at(chain, place + 1, &other) {
        Some(Passage::Forth(place))
    } else if is_before(chain, place, &other) {
        Some(Passage::Back(place - 1))
    } else {
        None
    }
}

// Where the chain comes by `p`.
fn place_of_point(chain: &[Point], p: &Point) -> Option<usize>
    requires chain { IsSomeChain chain.now }
    ensures { MatchOption result (All (λ q. q ≢ p.now) chain.now) (IsPlaceAt chain.now p.now) }
{
    let place = only_place(chain, p)?;
    if is_at(chain, place, p) {
        Some(place)
    } else {
        None
    }
}

// The one place where the chain can come by `p`: where it has come as far.
fn only_place(chain: &[Point], p: &Point) -> Option<usize>
    requires chain { IsSomeChain chain.now }
    ensures { MatchOption result (All (λ q. q ≢ p.now) chain.now) (IsOnlyPlace chain.now p.now) }
{
    let first = chain.first()?;
    let reach = progress(first, p);
    chain
        .binary_search_by_key(&reach, |q| progress(first, q))
        .ok()
}

// Whether `p` stands at this place of the chain.
fn is_at(chain: &[Point], place: usize, p: &Point) -> bool
    ensures { IsTrue result ↔ IsPlaceAt chain.now p.now place }
{
    place < chain.len() && chain[place] == *p
}

// Whether `p` stands right before this place of the chain.
fn is_before(chain: &[Point], place: usize, p: &Point) -> bool
    ensures { IsTrue result ↔ ((0 < place) × IsPlaceAt chain.now p.now (place - 1)) }
{
    place > 0 && is_at(chain, place - 1, p)
}

// How far a chain from `first` has come at `p`: the column of `p`, counted from 0, and the rows between the two.
fn progress(first: &Point, p: &Point) -> u32
    ensures { result ≡ measure.progress first.now p.now }
{
    p.x() + p.y().abs_diff(first.y())
}
