//! Records and states once more, part by part.
ghost use Rattle.std.specs.Prelude.{◌≡◌, IfOk};

use grid_base::{Chain, NoMemory, Original, Reply};
use record_codec::{Entries, Entry, Kept, KeptParts, KeptValue, ListOf, Named, Record, Snapshot};
use std::alloc::Global;

// What the lists of a state are made of.
trait Part: Sized + Drop {
    // The same value once more.
    fn copied(&self, alloc: Global) -> Result<Self, NoMemory>
        ensures { IfOk result (λ copy. copy ≡ self.now) };
}

/// The same record once more.
pub(crate) fn copied_record(alloc: Global, r: &Record) -> Result<Record, NoMemory>
    ensures { IfOk result (λ copy. copy ≡ r.now) }
{
    Ok(Record {
        number: r.number,
        entries: copied_entries(alloc, &r.entries)?,
    })
}

/// The same state once more.
pub(crate) fn copied_snapshot(alloc: Global, s: &Snapshot) -> Result<Snapshot, NoMemory>
    ensures { IfOk result (λ copy. copy ≡ s.now) }
{
    Ok(Snapshot {
        changes: s.changes,
        next_id: s.next_id,
        points: ListOf::new(Vec::from_slice(alloc, s.points.items())?),
        originals: copied_list(alloc, &s.originals)?,
        values: copied_list(alloc, &s.values)?,
        traces: copied_list(alloc, &s.traces)?,
    })
}

// The same changes once more.
fn copied_entries(alloc: Global, entries: &Entries) -> Result<Entries, NoMemory>
    ensures { IfOk result (λ copy. copy ≡ entries.now) }
{
    let list = entries.entries();
    let mut copies = Entries::new(alloc);
    for entry in list {
        copies.push(copied_entry(alloc, entry)?)?;
    }
    Ok(copies)
}

// The same change once more.
fn copied_entry(alloc: Global, entry: &Entry) -> Result<Entry, NoMemory>
    ensures { IfOk result (λ copy. copy ≡ entry.now) }
{
    Ok(Entry {
        line: copied_bytes(alloc, &entry.line)?,
        trace: entry.trace.copied(alloc)?,
    })
}

// The same bytes once more.
fn copied_bytes(alloc: Global, text: &Reply) -> Result<Reply, NoMemory>
    ensures { IfOk result (λ copy. copy ≡ text.now) }
{
    Ok(Reply::new(Vec::from_slice(alloc, text.bytes())?))
}

// The same list once more.
fn copied_list<T: Part>(alloc: Global, list: &ListOf<T>) -> Result<ListOf<T>, NoMemory>
    ensures { IfOk result (λ copy. copy ≡ list.now) }
{
    let items = list.items();
    let mut copies = Vec::with_capacity(alloc, items.len())?;
    for item in items {
        copies.push(item.copied(alloc)?)?;
    }
    Ok(ListOf::new(copies))
}

impl Part for Original {
    fn copied(&self, alloc: Global) -> Result<Original, NoMemory> {
        Ok(Original {
            id: self.id,
            a: self.a,
            b: self.b,
            chain: Chain::new(Vec::from_slice(alloc, self.chain.points())?),
        })
    }
}

impl Part for Named {
    fn copied(&self, alloc: Global) -> Result<Named, NoMemory> {
        Ok(Named {
            name: copied_bytes(alloc, &self.name)?,
            value: copied_value(alloc, &self.value)?,
        })
    }
}

impl Part for Kept {
    fn copied(&self, alloc: Global) -> Result<Kept, NoMemory> {
        Ok(Kept {
            number: self.number,
            steps: self.steps.copied(alloc)?,
        })
    }
}

// The same value once more.
fn copied_value(alloc: Global, v: &KeptValue) -> Result<KeptValue, NoMemory>
    ensures { IfOk result (λ copy. copy ≡ v.now) }
{
    Ok(KeptValue {
        kind: v.kind,
        parts: copied_parts(alloc, &v.parts)?,
    })
}

// The same parts once more.
fn copied_parts(alloc: Global, parts: &KeptParts) -> Result<KeptParts, NoMemory>
    ensures { IfOk result (λ copy. copy ≡ parts.now) }
{
    match parts {
        KeptParts::Points(list) => {
            let points = Vec::from_slice(alloc, list.items())?;
            Ok(KeptParts::Points(ListOf::new(points)))
        }
        KeptParts::Ids(list) => {
            let ids = Vec::from_slice(alloc, list.items())?;
            Ok(KeptParts::Ids(ListOf::new(ids)))
        }
    }
}
