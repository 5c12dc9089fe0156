//! A tree of squares: each has the entries whose home it is, and a smaller tree in each quarter that has others.
ghost use Rattle.std.specs.Prelude.{◌≡◌, ◌↔◌, ◌+◌, ◌<◌, ◌≤◌, ◌++◌, ◌∷◌, ℕ, [], IsTrue, false, All, length, get_or};
ghost use Rattle.std.specs.Prelude.{OnOk, OnErr, IfOk, MatchOption, MatchResult};
ghost use Rattle.std.specs.Bool.{OnTrue, OnFalse};
ghost use Rattle.std.specs.Prelude.{IfSome, vec_capacity};
ghost use Rattle.realm_index.specs.Bounds.{holds, is_near, is_smaller_in};
ghost use Rattle.realm_index.specs.declared.tree.Entry.{Entry as Item};
ghost use Rattle.realm_index.specs.Branch.{Branch, flatten, AreLess, StayBelow, HasPartFor};
ghost use Rattle.realm_index.specs.Branch.{HasMore, HasSame, Lacks, AddsKeys, AddsNoKey, count_near};

use crate::bounds::Bounds;
use crate::square::Square;
use grid_base::{NoMemory, Steps};
use smallvec::SmallVec;
use std::alloc::Global;
use std::marker::Model;
use std::mem;
use std::sync::ledger::Ledger;

// A key, and the box of the segment under it.
#[derive(Clone, Copy, Debug, Default)]
pub(crate) struct Entry {
    pub(crate) key: usize,
    pub(crate) bounds: Bounds,
}

// Most squares have one entry of their own or two, which take no memory beside the square.
type Own = SmallVec<Entry, 2>;

// The entries whose boxes are in one square. Contracts see the square and the list of the entries.
#[derive(Drop)]
pub(crate) struct Tree {
    square: Square,
    parts: Vec<Tree>,
    own: Own,
}

impl Model for Tree {
    ghost use Rattle.realm_index.specs.Branch.{Branch, branch_of, IsBranch, most_le};

    ghost Value = { Branch };

    ghost view = { λ t. branch_of t.square t.own.items t.parts.items };

    ghost invariant = { λ t. IsBranch t.square t.own.items t.parts.items };

    ghost size = { λ b. b.square.level };

    ghost use Rattle.std.proofs.Common.{arith};

    ghost size_decreases = { λ t is. omega (arith, most_le t.square.level t.parts.items is.lower) };
}

impl Tree {
    // A tree without entries.
    pub(crate) fn new(alloc: Global, square: Square) -> Tree
        ensures { result ≡ record { square = square; entries = [] } }
    {
        Tree {
            square,
            own: SmallVec::new(alloc),
            parts: Vec::new(alloc),
        }
    }

    // The same tree once more.
    pub(crate) fn copied(&self, alloc: Global) -> Result<Tree, NoMemory>
        ensures same { IfOk result (λ copy. copy ≡ self.now) }
    {
        let own = SmallVec::from_slice(alloc, self.own.as_slice())?;
        let mut parts = Vec::with_capacity(alloc, self.parts.len())?;
        for part in &self.parts {
            let copy = part.copied(alloc)?;
            parts.push(copy)?;
        }
        Ok(Tree {
            square: self.square,
            parts,
            own,
        })
    }

    // The part alone, in a greater square. There is room for it in the list.
    fn round(square: Square, mut list: Vec<Tree>, part: Tree) -> Tree
        requires empty { list.items ≡ [] }
        requires room { 1 ≤ vec_capacity list }
        requires has { IsTrue (is_smaller_in part.square square) }
        ensures square { result.square ≡ square }
        ensures same { HasSame part.entries result.entries }
    {
        // that its square holds the boxes is known where it is asked for
        let _ = part.is_in(&square);
        let own = SmallVec::new(*list.allocator());
        list.push_reserved(part);
        Tree {
            square,
            own,
            parts: list,
        }
    }

    // Whether its square is a smaller one in the other.
    fn is_in(&self, other: &Square) -> bool
        ensures within { result ≡ is_smaller_in self.now.square other.now }
        ensures all { All (λ e. IsTrue (holds self.now.square e.bounds)) self.now.entries }
    {
        other.has(&self.square)
    }

    // Whether its square holds the box.
    fn holds(&self, b: &Bounds) -> bool
        ensures held { result ≡ holds self.now.square b.now }
        ensures all { All (λ e. IsTrue (holds self.now.square e.bounds)) self.now.entries }
    {
        self.square.holds(b)
    }

    // Puts an entry in its place.
    pub(crate) fn put(&mut self, entry: Entry) -> Result<(), NoMemory>
        requires held { IsTrue (holds self.old.square entry.bounds) }
        ensures square { self.new.square ≡ self.old.square }
        ensures entries { MatchResult result (λ _. HasMore self.old.entries self.new.entries entry)
            (λ _. HasSame self.old.entries self.new.entries) }
    {
        let Some(part) = self.square.part_for(&entry.bounds) else {
            add_own(&mut self.own, entry)?;
            return Ok(());
        };
        let alloc = *self.parts.allocator();
        let place = place_for(alloc, &mut self.parts, part, &entry.bounds)?;
        let below = &mut self.parts[place];
        below.put(entry)
    }

    // Whether nothing is left at it and below it.
    fn is_bare(&self) -> bool
        ensures { OnTrue result (self.now.entries ≡ []) }
    {
        self.own.is_empty() && self.parts.is_empty()
    }

    // Takes an entry out, and says whether it was there.
    #[cycle(take)]
    pub(crate) fn take(&mut self, entry: &Entry) -> bool
        requires held { IsTrue (holds self.old.square entry.now.bounds) }
        ensures square { self.new.square ≡ self.old.square }
        ensures taken { OnTrue result (HasMore self.new.entries self.old.entries entry.now) }
        ensures none { OnFalse result (Lacks self.old.entries entry.now) }
        ensures unchanged { OnFalse result (self.new ≡ self.old) }
    {
        match self.square.part_for(&entry.bounds) {
            None => take_own(&mut self.own, entry),
            Some(_) => take_below(&mut self.parts, entry),
        }
    }

    // Whether its square has a common point with `near`. Where it hasn't, there is nothing to be found.
    fn is_near(&self, near: &Bounds) -> bool
        ensures near { result ≡ is_near near.now self.now.square }
        ensures no_key { OnFalse result (AddsNoKey near.now self.now.entries) }
        ensures no_step { OnFalse result (count_near near.now self.now.entries ≡ 0) }
        ensures held { All (λ e. IsTrue (holds self.now.square e.bounds)) self.now.entries }
    {
        self.square.is_near(near)
    }

    // Adds the keys of the entries whose boxes meet `near`. A step is a test of one box.
    pub(crate) fn find<L: Ledger>(
        &self,
        near: &Bounds,
        keys: &mut Vec<usize>,
        steps: &mut Steps<L>,
    ) -> Result<(), NoMemory>
        ensures keys { OnOk result (AddsKeys near.now self.now.entries keys.old.items keys.new.items) }
        ensures steps { MatchResult result
            (λ _. steps.new ≡ steps.old + count_near near.now self.now.entries)
            (λ _. steps.new ≤ steps.old + count_near near.now self.now.entries) }
        ensures held { All (λ e. IsTrue (holds self.now.square e.bounds)) self.now.entries }
    {
        if self.is_near(near) {
            self.find_within(near, keys, steps)
        } else {
            Ok(())
        }
    }

    // The same, where its square is near.
    fn find_within<L: Ledger>(
        &self,
        near: &Bounds,
        keys: &mut Vec<usize>,
        steps: &mut Steps<L>,
    ) -> Result<(), NoMemory>
        ensures keys { OnOk result (AddsKeys near.now self.now.entries keys.old.items keys.new.items) }
        ensures steps { IsTrue (is_near near.now self.now.square) → MatchResult result
            (λ _. steps.new ≡ steps.old + count_near near.now self.now.entries)
            (λ _. steps.new ≤ steps.old + count_near near.now self.now.entries) }
    {
        find_among(self.own.as_slice(), near, keys, steps)?;
        for part in &self.parts {
            if part.is_near(near) {
                part.find_within(near, keys, steps)?;
            }
        }
        Ok(())
    }
}

// Takes an entry out of the parts, and says whether one of them had it.
#[cycle(take)]
fn take_below(parts: &mut Vec<Tree>, entry: &Entry) -> bool
    ensures taken { OnTrue result (HasMore (flatten parts.new.items) (flatten parts.old.items) entry.now) }
    ensures none { OnFalse result (Lacks (flatten parts.old.items) entry.now) }
    ensures unchanged { OnFalse result (parts.new.items ≡ parts.old.items) }
    ensures lower { StayBelow parts.old.items parts.new.items }
{
    for i in 0..parts.len() {
        let part = &mut parts[i];
        if part.holds(&entry.bounds) && part.take(entry) {
            drop_bare(parts, i);
            return true;
        }
    }
    false
}

// Drops the part at this place where nothing is left of it.
fn drop_bare(parts: &mut Vec<Tree>, place: usize)
    requires within { place < length parts.old.items }
    ensures same { HasSame (flatten parts.old.items) (flatten parts.new.items) }
    ensures lower { StayBelow parts.old.items parts.new.items }
{
    let part = &parts[place];
    if part.is_bare() {
        parts.swap_remove(place);
    }
}

// Adds an entry to the list.
fn add_own(own: &mut Own, entry: Entry) -> Result<(), NoMemory>
    ensures added { OnOk result (own.new.items ≡ own.old.items ++ entry ∷ []) }
    ensures unchanged { OnErr result (own.new.items ≡ own.old.items) }
{
    own.push(entry)?;
    Ok(())
}

// Takes an entry out of the list, and says whether it was there.
fn take_own(own: &mut Own, entry: &Entry) -> bool
    ensures taken { OnTrue result (HasMore own.new.items own.old.items entry.now) }
    ensures none { OnFalse result (Lacks own.old.items entry.now) }
    ensures unchanged { OnFalse result (own.new.items ≡ own.old.items) }
{
    match place_among(own.as_slice(), entry) {
        Some(place) => {
            own.swap_remove(place);
            true
        }
        None => false,
    }
}

// Where the entry is in the list.
pub(crate) fn place_among(own: &[Entry], entry: &Entry) -> Option<usize>
    ensures { MatchOption result (Lacks own.now entry.now)
        (λ place. (place < length own.now) × ((d : Item) → get_or own.now place d ≡ entry.now)) }
{
    own.iter().position(|e| is_same(e, entry))
}

// Whether the two are one entry.
fn is_same(one: &Entry, other: &Entry) -> bool
    ensures { IsTrue result ↔ (one.now ≡ other.now) }
{
    one.key == other.key && one.bounds.is(&other.bounds)
}

// Adds the keys of the entries of the list whose boxes meet `near`, each of which is a step. A turn has four, since lists at
// great squares are long, and the test of a box is hardly more than the counting.
fn find_among<L: Ledger>(
    own: &[Entry],
    near: &Bounds,
    keys: &mut Vec<usize>,
    steps: &mut Steps<L>,
) -> Result<(), NoMemory>
    ensures keys { OnOk result (AddsKeys near.now own.now keys.old.items keys.new.items) }
    ensures steps { MatchResult result
        (λ _. steps.new ≡ steps.old + length own.now) (λ _. steps.new ≤ steps.old + length own.now) }
{
    // What a copy has needn't be read again in each turn.
    let near = *near;
    let fours = own.len() / 4;
    for i in 0..fours {
        let at = 4 * i;
        find_one(&own[at], &near, keys, steps)?;
        find_one(&own[at + 1], &near, keys, steps)?;
        find_one(&own[at + 2], &near, keys, steps)?;
        find_one(&own[at + 3], &near, keys, steps)?;
    }
    for i in 4 * fours..own.len() {
        find_one(&own[i], &near, keys, steps)?;
    }
    Ok(())
}

// Adds the key of the entry, if its box meets `near`, which is a step.
fn find_one<L: Ledger>(
    entry: &Entry,
    near: &Bounds,
    keys: &mut Vec<usize>,
    steps: &mut Steps<L>,
) -> Result<(), NoMemory>
    ensures keys { OnOk result (AddsKeys near.now (entry.now ∷ []) keys.old.items keys.new.items) }
    ensures step { steps.new ≡ steps.old + 1 }
{
    steps.tick();
    if near.meets(&entry.bounds) {
        keys.push(entry.key)?;
    }
    Ok(())
}

// Where the part is that holds the box. Where there is none, one is added in the quarter `part`: the least that holds the
// box, and round the part that is there already.
fn place_for(
    alloc: Global,
    parts: &mut Vec<Tree>,
    part: Square,
    b: &Bounds,
) -> Result<usize, NoMemory>
    requires held { IsTrue (holds part b.now) }
    ensures place { IfOk result (HasPartFor parts.new.items b.now) }
    ensures same { HasSame (flatten parts.old.items) (flatten parts.new.items) }
    ensures lower { (n : ℕ) → part.level < n → AreLess n parts.old.items → AreLess n parts.new.items }
{
    if let Some(place) = place_of(parts, b) {
        return Ok(place);
    }
    if let Some(place) = place_in(parts, &part) {
        put_round(alloc, parts, place, &part, b)?;
        return Ok(place);
    }
    let place = parts.len();
    parts.reserve_exact(1)?;
    parts.push(Tree::new(alloc, part.least_for(b)))?;
    Ok(place)
}

// Where the part is that lies in the quarter.
fn place_in(parts: &[Tree], quarter: &Square) -> Option<usize>
    ensures { IfSome result (λ place. (place < length parts.now)
        × ((d : Branch) → IsTrue (is_smaller_in (get_or parts.now place d).square quarter.now))) }
{
    parts.iter().position(|part| part.is_in(quarter))
}

// Puts a square round the part at this place, the least in the quarter that holds the box too.
fn put_round(
    alloc: Global,
    parts: &mut Vec<Tree>,
    place: usize,
    quarter: &Square,
    b: &Bounds,
) -> Result<(), NoMemory>
    requires within { place < length parts.old.items }
    requires held { IsTrue (holds quarter.now b.now) }
    requires inside { (d : Branch) → IsTrue (is_smaller_in (get_or parts.old.items place d).square quarter.now) }
    ensures place { OnOk result (HasPartFor parts.new.items b.now place) }
    ensures same { HasSame (flatten parts.old.items) (flatten parts.new.items) }
    ensures lower { (n : ℕ) → quarter.now.level < n → AreLess n parts.old.items → AreLess n parts.new.items }
{
    let list = Vec::with_capacity(alloc, 1)?;
    let part = &mut parts[place];
    let square = quarter.least_round(&part.square, b);
    let inner = mem::replace(part, Tree::new(alloc, square));
    let _bare = mem::replace(part, Tree::round(square, list, inner));
    Ok(())
}

// Where the part is that holds the box.
fn place_of(parts: &[Tree], b: &Bounds) -> Option<usize>
    ensures { MatchOption result (All (λ c. holds c.square b.now ≡ false) parts.now)
        (HasPartFor parts.now b.now) }
{
    parts.iter().position(|part| part.holds(b))
}
