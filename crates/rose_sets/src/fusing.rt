//! Values gathered by keys, and the sum of each group.
ghost use Rattle.std.specs.Prelude.{◌≡◌, ◌↔◌, ℕ, ◌<◌, [], IfOk, Err, All, Contains, length, slice_index};
ghost use Rattle.std.specs.List.Sorted.{IsStrictlyIncreasing};
ghost use Rattle.grid_base.specs.Border.{AreNoded};
ghost use Rattle.r_blocks.specs.Places.{AllIndexed};
ghost use Rattle.rose_sets.specs.declared.error.SetError.TheVariants.{WrongTypes};
ghost use Rattle.rose_sets.specs.Sums.{all_segments, AreOfKind, AreMixed};
ghost use Rattle.rose_sets.specs.Fusions.{IsFusion};
ghost use Rattle.rose_sets.specs.Picked.{HasPlacesOf};

use crate::error::SetError;
use crate::group::Group;
use crate::members::one_kind;
use crate::summing::sum_at;
use grid_base::{Kind, NoMemory};
use r_faces::{distinct, places_in};
use rose_values::Geometry;
use std::alloc::Global;

/// One group a key, by rising keys, with the sum of its values. All values are of one kind. Each has the key at
/// its own place, and the segments of all values are those of one realm.
pub fn fusion(alloc: Global, list: &[Geometry], keys: &[u64]) -> Result<Vec<Group>, SetError>
    requires noded { AreNoded (all_segments list.now) }
    requires one_each { length keys.now ≡ length list.now }
    ensures fusion { IfOk result (λ v. IsFusion list.now keys.now v.items) }
    ensures wrong_types { (result ≡ Err WrongTypes) ↔ AreMixed list.now }
{
    match one_kind(list) {
        None => Err(SetError::WrongTypes),
        Some(kind) => Ok(groups(alloc, kind, list, keys)?),
    }
}

// The groups of the values, which are of this kind.
fn groups(
    alloc: Global,
    kind: Kind,
    list: &[Geometry],
    keys: &[u64],
) -> Result<Vec<Group>, NoMemory>
    requires noded { AreNoded (all_segments list.now) }
    requires of_kind { AreOfKind kind list.now }
    requires one_each { length keys.now ≡ length list.now }
    ensures { IfOk result (λ v. IsFusion list.now keys.now v.items) }
{
    let found = distinct(Vec::from_slice(alloc, keys)?);
    let places = places_in(alloc, &found, keys)?;
    let parts = places_by_key(alloc, &places, found.len())?;
    let mut groups = Vec::new(alloc);
    for k in 0..found.len() {
        let g = sum_at(alloc, kind, list, &parts[k])?;
        groups.push(Group { key: found[k], g })?;
    }
    Ok(groups)
}

// For each number below `count` the places that have it.
fn places_by_key(
    alloc: Global,
    numbers: &[usize],
    count: usize,
) -> Result<Vec<Vec<usize>>, NoMemory>
    requires below { All (λ n. n < count) numbers.now }
    ensures length { IfOk result (λ v. length v.items ≡ count) }
    ensures parts { IfOk result (λ v. AllIndexed (λ n part.
        HasPlacesOf n numbers.now (length numbers.now) part.items) v.items) }
{
    let mut parts = none_yet(alloc, count)?;
    for i in 0..numbers.len() {
        parts[numbers[i]].push(i)?;
    }
    Ok(parts)
}

// As many empty parts.
fn none_yet(alloc: Global, count: usize) -> Result<Vec<Vec<usize>>, NoMemory>
    ensures length { IfOk result (λ v. length v.items ≡ count) }
    ensures empty { IfOk result (λ v. All (λ part. part.items ≡ []) v.items) }
{
    let mut parts = Vec::new(alloc);
    for _ in 0..count {
        parts.push(Vec::new(alloc))?;
    }
    Ok(parts)
}
