//! Segments in parts, one for each number that they have.
ghost use Rattle.std.specs.Prelude.{◌≡◌, ℕ, ◌<◌, Contains, IfOk, length, slice_index};
ghost use Rattle.std.specs.List.Sorted.{IsStrictlyIncreasing};
ghost use Rattle.r_blocks.specs.Places.{those, AllIndexed};
ghost use Rattle.r_faces.specs.Parted.{AreKeys, ArePlacesIn};

use crate::number::distinct;
use grid_base::{NoMemory, Segment};
use r_blocks::gather;
use std::alloc::Global;

// The numbers that segments have, ascending, and for each the segments that have it, in their order.
#[derive(Drop)]
pub(crate) struct Parts {
    pub(crate) keys: Vec<u64>,
    pub(crate) lists: Vec<Vec<Segment>>,
}

// The segments by their numbers.
pub(crate) fn parted(alloc: Global, list: &[Segment], numbers: &[u64]) -> Result<Parts, NoMemory>
    requires one_each { length numbers.now ≡ length list.now }
    ensures keys { IfOk result (λ parts. AreKeys numbers.now parts.keys.items) }
    ensures length { IfOk result (λ parts. length parts.lists.items ≡ length parts.keys.items) }
    ensures parts { IfOk result (λ parts. AllIndexed (λ k part. part.items
        ≡ those (slice_index parts.keys.items k) numbers.now list.now) parts.lists.items) }
{
    let keys = distinct(Vec::from_slice(alloc, numbers)?);
    let places = places_in(alloc, &keys, numbers)?;
    let lists = gather(alloc, list, &places, keys.len())?;
    Ok(Parts { keys, lists })
}

/// For each number its place among the keys, which ascend and have each of the numbers.
pub fn places_in(alloc: Global, keys: &[u64], numbers: &[u64]) -> Result<Vec<usize>, NoMemory>
    requires ascending { IsStrictlyIncreasing keys.now }
    requires there { (n : ℕ) → Contains numbers.now n → Contains keys.now n }
    ensures { IfOk result (λ v. ArePlacesIn keys.now numbers.now (length numbers.now) v.items) }
{
    let mut places = Vec::new(alloc);
    for k in 0..numbers.len() {
        places.push(place_in(keys, numbers[k]))?;
    }
    Ok(places)
}

// The place of a number among the keys.
fn place_in(keys: &[u64], number: u64) -> usize
    requires ascending { IsStrictlyIncreasing keys.now }
    requires there { Contains keys.now number }
    ensures within { result < length keys.now }
    ensures at { slice_index keys.now result ≡ number }
{
    match keys.binary_search(&number) {
        Ok(i) | Err(i) => i,
    }
}
