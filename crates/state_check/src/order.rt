//! Whether lists are in order: each item is compared with the next.
ghost use Rattle.std.specs.Prelude.{◌≡◌, ◌↔◌, ◌<◌, IsTrue, AllPairs};
ghost use Rattle.grid_base.specs.Point.{IsBefore};
ghost use Rattle.hook_chain.specs.Ids.{IsAscending};

use grid_base::{Original, Point};

// Whether the points ascend, none of them twice.
pub(crate) fn points_ascend(points: &[Point]) -> bool
    ensures { IsTrue result ↔ AllPairs IsBefore points.now }
{
    for i in 1..points.len() {
        if !points[i - 1].comes_before(&points[i]) {
            return false;
        }
    }
    true
}

// Whether the numbers rise, none of them twice.
pub(crate) fn numbers_rise(numbers: &[u32]) -> bool
    ensures { IsTrue result ↔ AllPairs (λ m n. m < n) numbers.now }
{
    for i in 1..numbers.len() {
        if !is_less(&numbers[i - 1], &numbers[i]) {
            return false;
        }
    }
    true
}

fn is_less(m: &u32, n: &u32) -> bool
    ensures { IsTrue result ↔ (m.now < n.now) }
{
    *m < *n
}

// Whether the ids of the originals rise, none of them twice.
pub(crate) fn ids_rise(originals: &[Original]) -> bool
    ensures { IsTrue result ↔ IsAscending originals.now }
{
    for i in 1..originals.len() {
        if !is_below(&originals[i - 1], &originals[i]) {
            return false;
        }
    }
    true
}

fn is_below(o: &Original, p: &Original) -> bool
    ensures { IsTrue result ↔ (o.now.id < p.now.id) }
{
    o.id < p.id
}
