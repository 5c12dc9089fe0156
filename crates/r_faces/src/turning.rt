//! A cycle is turned to begin at its least vertex, in one direction or the other.
ghost use Rattle.std.specs.Prelude.{◌≡◌, ◌≢◌, ◌<◌, [], ◌++◌, reverse, length, take, drop, All, AllPairs};
ghost use Rattle.std.specs.Prelude.{Bool, count_by, slice_index_or, IfOk, if◌then◌else◌};
ghost use Rattle.grid_base.specs.Point.{GridPoint, IsBefore};
ghost use Rattle.r_cycles.specs.Cycles.{Link, IsCycle, links, round};
ghost use Rattle.r_faces.specs.Turned.{IsTurned, BeginsLeast, back_of};

use grid_base::{Chain, NoMemory, Point};
use std::alloc::Global;

/// The cycle from its least vertex on: in the direction in which it is given where `forward`, and else the
/// other way.
pub fn turned(alloc: Global, cycle: &[Point], forward: bool) -> Result<Chain, NoMemory>
    requires { IsCycle cycle.now }
    ensures turned { IfOk result
        (λ c. IsTurned (if forward then cycle.now else reverse cycle.now) c) }
    ensures begins_least { IfOk result BeginsLeast }
    ensures links { IfOk result (λ c. (f : Link → Bool) → count_by f (links (round c))
        ≡ count_by (λ l. f (if forward then l else back_of l)) (links (round cycle.now))) }
{
    let mut list = Vec::from_slice(alloc, cycle)?;
    if !forward {
        list.reverse();
    }
    Ok(Chain::new(from_least(alloc, &list)?))
}

// The list from its least point on, and then what stands before it.
fn from_least(alloc: Global, list: &[Point]) -> Result<Vec<Point>, NoMemory>
    requires some { 0 < length list.now }
    requires apart { AllPairs (λ v w. v ≢ w) list.now }
    ensures turned { IfOk result (λ v. IsTurned list.now v.items) }
    ensures begins_least { IfOk result (λ v. BeginsLeast v.items) }
{
    let at = least_place(list);
    let mut turned = Vec::from_slice(alloc, &list[at..])?;
    turned.extend_from_slice(&list[..at])?;
    Ok(turned)
}

// The place of the least point.
fn least_place(list: &[Point]) -> usize
    requires { 0 < length list.now }
    ensures within { result < length list.now }
    ensures least { (d : GridPoint) → All (λ p. IsBefore p (slice_index_or list.now result d) → ⊥) list.now }
{
    let mut at = 0;
    for k in 1..list.len() {
        if list[k] < list[at] {
            at = k;
        }
    }
    at
}
