//! How many values name an id or a point, counted as values come and go: a count for each that has a
//! user. The counts stand in ordered maps: whoever writes lines chooses the keys, and could choose such
//! that collide in a map by hashes.
ghost use Rattle.std.specs.Prelude.{◌≡◌, ◌+◌, ◌<◌, ◌≤◌, ◌^◌, if◌then◌else◌, ℕ, OnOk, OnErr};
ghost use Rattle.std.specs.Ordering.{nat_cmp, eq_by_cmp};
ghost use Rattle.grid_base.specs.Point.{GridPoint, point_cmp};
ghost use Rattle.value_table.specs.Value.{names_id, names_point};
ghost use Rattle.value_table.specs.Users.{users_in, times_among};

use crate::value::{Parts, Value};
use grid_base::{NoMemory, Point};
use std::collections::BTreeMap;

// Counts one user more of what `v` names.
pub(crate) fn note(
    ids: &mut BTreeMap<u32, u64>,
    points: &mut BTreeMap<Point, u64>,
    v: &Value,
) -> Result<(), NoMemory>
    requires ids_fit { (id : ℕ) → users_in nat_cmp ids.old id + 1 < 2 ^ 64 }
    requires points_fit { (p : GridPoint) → users_in point_cmp points.old p + 1 < 2 ^ 64 }
    ensures ids { OnOk result ((id : ℕ) → users_in nat_cmp ids.new id
        ≡ users_in nat_cmp ids.old id + (if names_id id v.now then 1 else 0)) }
    ensures points { OnOk result ((p : GridPoint) → users_in point_cmp points.new p
        ≡ users_in point_cmp points.old p + (if names_point p v.now then 1 else 0)) }
    ensures ids_stay { OnErr result ((id : ℕ) → users_in nat_cmp ids.new id ≡ users_in nat_cmp ids.old id) }
    ensures points_stay { OnErr result
        ((p : GridPoint) → users_in point_cmp points.new p ≡ users_in point_cmp points.old p) }
{
    match &v.parts {
        Parts::Points(value) => count_up(points, value.points()),
        Parts::Ids(list) => count_up(ids, list.ids()),
    }
}

// Counts one user fewer of what `v` names.
pub(crate) fn forget(ids: &mut BTreeMap<u32, u64>, points: &mut BTreeMap<Point, u64>, v: Value)
    requires ids_used { (id : ℕ) → (if names_id id v then 1 else 0) ≤ users_in nat_cmp ids.old id }
    requires points_used { (p : GridPoint)
        → (if names_point p v then 1 else 0) ≤ users_in point_cmp points.old p }
    ensures ids { (id : ℕ) → users_in nat_cmp ids.new id + (if names_id id v then 1 else 0)
        ≡ users_in nat_cmp ids.old id }
    ensures points { (p : GridPoint)
        → users_in point_cmp points.new p + (if names_point p v then 1 else 0)
        ≡ users_in point_cmp points.old p }
{
    count_down(ids, v.parts.ids());
    count_down(points, v.parts.points());
}

// How many users `key` has.
pub(crate) fn count_of<K: Ord>(counts: &BTreeMap<K, u64>, key: &K) -> u64
    ensures { result ≡ users_in K.cmp counts.now key.now }
{
    counts.get(key).copied().unwrap_or(0)
}

// Counts one user more of each of the keys, or of none where memory runs out.
fn count_up<K: Ord + Copy + Drop>(counts: &mut BTreeMap<K, u64>, keys: &[K]) -> Result<(), NoMemory>
    requires fits { (q : K) → users_in K.cmp counts.old q + times_among K.cmp keys.now q < 2 ^ 64 }
    ensures more { OnOk result ((q : K)
        → users_in K.cmp counts.new q ≡ users_in K.cmp counts.old q + times_among K.cmp keys.now q) }
    ensures stay { OnErr result ((q : K) → users_in K.cmp counts.new q ≡ users_in K.cmp counts.old q) }
{
    for i in 0..keys.len() {
        if raise(counts, keys[i]).is_err() {
            count_down(counts, &keys[..i]);
            return Err(NoMemory);
        }
    }
    Ok(())
}

// Counts one user more of `key`.
fn raise<K: Ord + Copy + Drop>(counts: &mut BTreeMap<K, u64>, key: K) -> Result<(), NoMemory>
    requires fits { users_in K.cmp counts.old key + 1 < 2 ^ 64 }
    ensures more { OnOk result ((q : K) → users_in K.cmp counts.new q
        ≡ users_in K.cmp counts.old q + (if eq_by_cmp K.cmp q key then 1 else 0)) }
    ensures stay { OnErr result ((q : K) → users_in K.cmp counts.new q ≡ users_in K.cmp counts.old q) }
{
    let users = count_of(counts, &key);
    counts.insert(key, users + 1)?;
    Ok(())
}

// Counts one user fewer of each of the keys.
fn count_down<K: Ord + Copy + Drop>(counts: &mut BTreeMap<K, u64>, keys: &[K])
    requires used { (q : K) → times_among K.cmp keys.now q ≤ users_in K.cmp counts.old q }
    ensures { (q : K)
        → users_in K.cmp counts.new q + times_among K.cmp keys.now q ≡ users_in K.cmp counts.old q }
{
    for key in keys {
        lower(counts, *key);
    }
}

// Counts one user fewer of `key`, and forgets it with its last.
fn lower<K: Ord + Copy + Drop>(counts: &mut BTreeMap<K, u64>, key: K)
    requires used { 0 < users_in K.cmp counts.old key }
    ensures fewer { (q : K) → users_in K.cmp counts.new q
        + (if eq_by_cmp K.cmp q key then 1 else 0) ≡ users_in K.cmp counts.old q }
{
    let users = count_of(counts, &key);
    if users == 1 {
        counts.remove(&key);
        return;
    }
    match counts.insert(key, users - 1) {
        Ok(_) => (),
        Err(_) => unreachable!(),
    }
}
