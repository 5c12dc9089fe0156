//! Clusters: entries whose boxes have their centres in one square, with a box that covers theirs. A search goes down only
//! into clusters whose covers meet what it looks for, so what it finds doesn't hang on where an entry stands. Where it does
//! stand is told by its centre: so a box that crosses a main line of the grid stands with those beside it.
ghost use Rattle.std.specs.Prelude.{◌≡◌, ◌<◌, ◌≤◌, ◌++◌, [], length};
ghost use Rattle.std.specs.Prelude.{OnOk, IfOk, IfSome, MatchResult, vec_capacity};
ghost use Rattle.std.specs.Bool.{OnTrue, OnFalse};
ghost use Rattle.realm_index.specs.Branch.{flatten, AreLess, StayBelow};
ghost use Rattle.realm_index.specs.Branch.{HasMore, HasSame, Lacks};
ghost use Rattle.realm_index.specs.Near.{AddsPassed, PassesNone};
ghost use Rattle.realm_index.specs.Cluster.{square_round, CoversAll};

use crate::bounds::Bounds;
use crate::centre::Centre;
use crate::near::Near;
use crate::tree::{Entry, place_among};
use grid_base::NoMemory;
use std::alloc::Global;
use std::marker::Model;
use std::mem;

// A list of more entries is cut into quarters.
const MANY: usize = 31;

// The entries in one square. Their cover may reach further than their boxes. Contracts see the level and the list of the
// entries.
#[derive(Drop)]
pub(crate) struct Cluster {
    level: u32,
    centre: Centre,
    cover: Bounds,
    parts: Vec<Cluster>,
    own: Vec<Entry>,
}

impl Model for Cluster {
    ghost use Rattle.realm_index.specs.Branch.{Branch, branch_of, most_le};
    ghost use Rattle.realm_index.specs.Cluster.{square_round, IsCluster};
    ghost use Rattle.std.proofs.Common.{arith};

    ghost Value = { Branch };

    ghost view = { λ c. branch_of (square_round c.level c.centre) c.own.items c.parts.items };

    ghost invariant = { λ c. IsCluster c.level c.cover c.own.items c.parts.items };

    ghost size = { λ b. b.square.level };

    ghost size_decreases = { λ c is. omega (arith, most_le c.level c.parts.items is.lower) };
}

impl Cluster {
    // A cluster without entries.
    pub(crate) fn new(alloc: Global, level: u32, centre: Centre) -> Cluster
        ensures { result ≡ record { square = square_round level centre; entries = [] } }
    {
        Cluster {
            level,
            centre,
            cover: Bounds::default(),
            parts: Vec::new(alloc),
            own: Vec::new(alloc),
        }
    }

    // The same cluster once more.
    pub(crate) fn copied(&self, alloc: Global) -> Result<Cluster, NoMemory>
        ensures same { IfOk result (λ copy. copy ≡ self.now) }
    {
        let own = Vec::from_slice(alloc, self.own.as_slice())?;
        let mut parts = Vec::with_capacity(alloc, self.parts.len())?;
        for part in &self.parts {
            let copy = part.copied(alloc)?;
            parts.push(copy)?;
        }
        Ok(Cluster {
            level: self.level,
            centre: self.centre,
            cover: self.cover,
            parts,
            own,
        })
    }

    // A box that covers those of all entries.
    fn cover(&self) -> Bounds
        ensures { CoversAll result self.now.entries }
    {
        self.cover
    }

    // Whether an entry may be at it or below it.
    fn may_have(&self, entry: &Entry) -> bool
        ensures { OnFalse result (Lacks self.now.entries entry.now) }
    {
        self.cover.covers(&entry.bounds)
    }

    // Whether its cover passes. Where it doesn't, there is nothing to be found.
    fn is_near(&self, near: &Near) -> bool
        ensures { OnFalse result (PassesNone near.now self.now.entries) }
    {
        near.passes(&self.cover)
    }

    // Whether nothing is left at it and below it.
    fn is_bare(&self) -> bool
        ensures { OnTrue result (self.now.entries ≡ []) }
    {
        self.own.is_empty() && self.parts.is_empty()
    }

    // Whether the centre is in the quarter in which this cluster is, of a square that has both and is cut at this bit.
    fn shares_quarter(&self, half: u32, centre: &Centre) -> bool {
        self.centre.agrees(centre, half)
    }

    // Puts an entry in its place. The centre should be that of the entry, and in the square.
    pub(crate) fn put(&mut self, entry: Entry, centre: &Centre) -> Result<(), NoMemory>
        ensures level { self.new.square.level ≤ self.old.square.level }
        ensures entries { MatchResult result (λ _. HasMore self.old.entries self.new.entries entry)
            (λ _. HasSame self.old.entries self.new.entries) }
    {
        if self.level == 0 || self.parts.is_empty() {
            return self.put_own(entry);
        }
        let alloc = *self.parts.allocator();
        let place = place_ready(alloc, &mut self.parts, self.level, centre)?;
        self.cover = self.cover.joined(&entry.bounds);
        let below = &mut self.parts[place];
        below.put(entry, centre)
    }

    // Puts an entry into its own list, which may be cut then.
    fn put_own(&mut self, entry: Entry) -> Result<(), NoMemory>
        ensures level { self.new.square.level ≤ self.old.square.level }
        ensures entries { MatchResult result (λ _. HasMore self.old.entries self.new.entries entry)
            (λ _. HasSame self.old.entries self.new.entries) }
    {
        self.add(entry)?;
        self.split();
        Ok(())
    }

    // Adds an entry to its own list.
    fn add(&mut self, entry: Entry) -> Result<(), NoMemory>
        ensures square { self.new.square ≡ self.old.square }
        ensures entries { MatchResult result (λ _. HasMore self.old.entries self.new.entries entry)
            (λ _. HasSame self.old.entries self.new.entries) }
    {
        self.own.push(entry)?;
        self.cover = self.cover.joined(&entry.bounds);
        Ok(())
    }

    // Cuts its own list into quarters of the least square that has the centres, if it is long and there is memory.
    fn split(&mut self)
        ensures level { self.new.square.level ≤ self.old.square.level }
        ensures entries { HasSame self.old.entries self.new.entries }
    {
        if self.own.len() <= MANY || !self.parts.is_empty() {
            return;
        }
        let centre = Centre::of(&self.own[0].bounds);
        let level = spread(self.own.as_slice(), &centre).min(self.level);
        if level == 0 {
            return;
        }
        let alloc = *self.parts.allocator();
        if let Ok(parts) = quarters(alloc, self.own.as_slice(), level) {
            self.level = level;
            self.centre = centre;
            self.parts = parts;
            self.own = Vec::new(alloc);
        }
    }

    // Makes its square one that has the centre, of a level below `top`.
    pub(crate) fn admit(&mut self, centre: &Centre, top: u32) -> Result<(), NoMemory>
        requires below { self.old.square.level < top }
        ensures level { self.new.square.level < top }
        ensures entries { HasSame self.old.entries self.new.entries }
    {
        let level = self.centre.apart(centre).min(top - 1);
        if level <= self.level {
            return Ok(());
        }
        if self.parts.is_empty() {
            self.level = level;
            return Ok(());
        }
        let alloc = *self.parts.allocator();
        let list = Vec::with_capacity(alloc, 2)?;
        let inner = mem::replace(self, Cluster::new(alloc, level, *centre));
        let _bare = mem::replace(self, Cluster::round(level, *centre, list, inner));
        Ok(())
    }

    // The part alone, in a greater square. There is room for it in the list.
    fn round(level: u32, centre: Centre, mut list: Vec<Cluster>, part: Cluster) -> Cluster
        requires empty { list.items ≡ [] }
        requires room { 1 ≤ vec_capacity list }
        requires below { part.square.level < level }
        ensures level { result.square.level ≡ level }
        ensures same { HasSame part.entries result.entries }
    {
        let cover = part.cover();
        let own = Vec::new(*list.allocator());
        list.push_reserved(part);
        Cluster {
            level,
            centre,
            cover,
            parts: list,
            own,
        }
    }

    // Takes an entry out, and says whether it was there.
    #[cycle(take)]
    pub(crate) fn take(&mut self, entry: &Entry) -> bool
        ensures square { self.new.square ≡ self.old.square }
        ensures taken { OnTrue result (HasMore self.new.entries self.old.entries entry.now) }
        ensures none { OnFalse result (Lacks self.old.entries entry.now) }
        ensures unchanged { OnFalse result (self.new ≡ self.old) }
    {
        if take_own(&mut self.own, entry) {
            self.shrink();
            return true;
        }
        if take_below(&mut self.parts, entry) {
            self.shrink();
            return true;
        }
        false
    }

    // Lets the cover reach no further than it has to.
    fn shrink(&mut self)
        ensures { self.new ≡ self.old }
    {
        self.cover = cover_of(self.own.as_slice(), self.parts.as_slice());
    }

    // Adds the keys of the entries whose boxes pass.
    pub(crate) fn find(&self, near: &Near, keys: &mut Vec<usize>) -> Result<(), NoMemory>
        ensures { OnOk result (AddsPassed near.now self.now.entries keys.old.items keys.new.items) }
    {
        find_among(self.own.as_slice(), near, keys)?;
        for part in &self.parts {
            if part.is_near(near) {
                part.find(near, keys)?;
            }
        }
        Ok(())
    }
}

// A box that covers those of the list and those of the parts.
fn cover_of(own: &[Entry], parts: &[Cluster]) -> Bounds
    ensures { CoversAll result (own.now ++ flatten parts.now) }
{
    let mut cover = cover_of_own(own);
    for part in parts {
        cover = cover.joined(&part.cover());
    }
    cover
}

fn cover_of_own(own: &[Entry]) -> Bounds
    ensures { CoversAll result own.now }
{
    let mut cover = Bounds::default();
    for entry in own {
        cover = cover.joined(&entry.bounds);
    }
    cover
}

// The level of the least square that has the centres of the entries, and `centre`.
fn spread(own: &[Entry], centre: &Centre) -> u32 {
    let mut level = 0;
    for entry in own {
        level = level.max(centre.apart(&Centre::of(&entry.bounds)));
    }
    level
}

// The entries in the quarters of a square of this level.
fn quarters(alloc: Global, own: &[Entry], level: u32) -> Result<Vec<Cluster>, NoMemory>
    requires some { 0 < level }
    ensures same { IfOk result (λ parts. HasSame own.now (flatten parts.items)) }
    ensures lower { IfOk result (λ parts. AreLess level parts.items) }
{
    let mut parts = Vec::with_capacity(alloc, 4)?;
    for entry in own {
        add_to_quarter(alloc, &mut parts, level, entry)?;
    }
    Ok(parts)
}

// Adds an entry to the part in its quarter.
fn add_to_quarter(
    alloc: Global,
    parts: &mut Vec<Cluster>,
    level: u32,
    entry: &Entry,
) -> Result<(), NoMemory>
    requires some { 0 < level }
    requires lower { AreLess level parts.old.items }
    ensures entries { OnOk result (HasMore (flatten parts.old.items) (flatten parts.new.items) entry.now) }
    ensures lower { OnOk result (AreLess level parts.new.items) }
{
    let place = place_for(alloc, parts, level, &Centre::of(&entry.bounds))?;
    let part = &mut parts[place];
    part.add(*entry)
}

// Where the part is that has the centre, which is in its quarter of a square of this level.
fn place_ready(
    alloc: Global,
    parts: &mut Vec<Cluster>,
    level: u32,
    centre: &Centre,
) -> Result<usize, NoMemory>
    requires some { 0 < level }
    requires lower { AreLess level parts.old.items }
    ensures place { IfOk result (λ place. place < length parts.new.items) }
    ensures same { HasSame (flatten parts.old.items) (flatten parts.new.items) }
    ensures lower { AreLess level parts.new.items }
{
    let place = place_for(alloc, parts, level, centre)?;
    admit_at(parts, place, centre, level)?;
    Ok(place)
}

// Puts a greater square round the part at this place, if the centre isn't in its own.
fn admit_at(
    parts: &mut Vec<Cluster>,
    place: usize,
    centre: &Centre,
    level: u32,
) -> Result<(), NoMemory>
    requires within { place < length parts.old.items }
    requires lower { AreLess level parts.old.items }
    ensures length { length parts.new.items ≡ length parts.old.items }
    ensures same { HasSame (flatten parts.old.items) (flatten parts.new.items) }
    ensures lower { AreLess level parts.new.items }
{
    let part = &mut parts[place];
    part.admit(centre, level)
}

// Where the part is in whose quarter, of a square of this level, the centre is. Where there is none, an empty one is added.
fn place_for(
    alloc: Global,
    parts: &mut Vec<Cluster>,
    level: u32,
    centre: &Centre,
) -> Result<usize, NoMemory>
    requires some { 0 < level }
    requires lower { AreLess level parts.old.items }
    ensures place { IfOk result (λ place. place < length parts.new.items) }
    ensures same { HasSame (flatten parts.old.items) (flatten parts.new.items) }
    ensures lower { AreLess level parts.new.items }
{
    if let Some(place) = place_in(parts, level, centre) {
        return Ok(place);
    }
    let place = parts.len();
    parts.reserve_exact(1)?;
    parts.push(Cluster::new(alloc, level - 1, *centre))?;
    Ok(place)
}

// Where the part is that lies in the quarter. One bit of a column, and of a row, tells in which half of the square it is.
fn place_in(parts: &[Cluster], level: u32, centre: &Centre) -> Option<usize>
    requires some { 0 < level }
    ensures { IfSome result (λ place. place < length parts.now) }
{
    let half = 1_u32.wrapping_shl(level - 1);
    parts
        .iter()
        .position(|part| part.shares_quarter(half, centre))
}

// Takes an entry out of the list, and says whether it was there.
fn take_own(own: &mut Vec<Entry>, entry: &Entry) -> bool
    ensures taken { OnTrue result (HasMore own.new.items own.old.items entry.now) }
    ensures none { OnFalse result (Lacks own.old.items entry.now) }
    ensures unchanged { OnFalse result (own.new.items ≡ own.old.items) }
{
    match place_among(own.as_slice(), entry) {
        Some(place) => {
            own.swap_remove(place);
            true
        }
        None => false,
    }
}

// Takes an entry out of the parts, and says whether one of them had it.
#[cycle(take)]
fn take_below(parts: &mut Vec<Cluster>, entry: &Entry) -> bool
    ensures taken { OnTrue result (HasMore (flatten parts.new.items) (flatten parts.old.items) entry.now) }
    ensures none { OnFalse result (Lacks (flatten parts.old.items) entry.now) }
    ensures unchanged { OnFalse result (parts.new.items ≡ parts.old.items) }
    ensures lower { StayBelow parts.old.items parts.new.items }
{
    for i in 0..parts.len() {
        let part = &mut parts[i];
        if part.may_have(entry) && part.take(entry) {
            drop_bare(parts, i);
            return true;
        }
    }
    false
}

// Drops the part at this place where nothing is left of it.
fn drop_bare(parts: &mut Vec<Cluster>, place: usize)
    requires within { place < length parts.old.items }
    ensures same { HasSame (flatten parts.old.items) (flatten parts.new.items) }
    ensures lower { StayBelow parts.old.items parts.new.items }
{
    let part = &parts[place];
    if part.is_bare() {
        parts.swap_remove(place);
    }
}

// Adds the keys of the entries of the list whose boxes pass.
fn find_among(own: &[Entry], near: &Near, keys: &mut Vec<usize>) -> Result<(), NoMemory>
    ensures { OnOk result (AddsPassed near.now own.now keys.old.items keys.new.items) }
{
    for entry in own {
        if near.passes(&entry.bounds) {
            keys.push(entry.key)?;
        }
    }
    Ok(())
}
