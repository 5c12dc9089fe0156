//! Lists of accepted changes. What such a list asks for is that all of it fits in a record.
ghost use Rattle.std.specs.Prelude.{◌≡◌, ◌<◌, ◌≤◌, ◌^◌, ◌++◌, ◌∷◌, [], length, IfOk, OnOk, OnErr};
ghost use Rattle.std.specs.List.{AllByRecursion, sum_by};
ghost use Rattle.record_codec.specs.Entries.{AreEntries, HaveRoom};

use crate::entry::Entry;
use grid_base::NoMemory;
use std::alloc::Global;
use std::marker::Model;

// How many bytes no list of changes takes: 2^63.
const TOO_MUCH: usize = 9_223_372_036_854_775_808;

/// The changes of a record, in order: no line is too long, and all of them fit in a record. Contracts see the list.
#[derive(Debug, Drop)]
pub struct Entries {
    list: Vec<Entry>,
    // Room for the texts of all.
    room: usize,
}

impl Model for Entries {
    ghost use Rattle.std.specs.Prelude.{List};
    ghost use Rattle.record_codec.specs.declared.entry.Entry.{Entry};
    ghost use Rattle.record_codec.specs.Entries.{HaveRoom};

    ghost Value = { List Entry };

    ghost view = { λ e. e.list.items };

    ghost invariant = { λ e. HaveRoom e.list.items e.room };
}

impl Entries {
    /// The list with no change.
    pub fn new(alloc: Global) -> Entries
        ensures { result ≡ [] }
    {
        Entries {
            list: Vec::new(alloc),
            room: 0,
        }
    }

    /// The list of this one change.
    pub fn one(alloc: Global, entry: Entry) -> Result<Entries, NoMemory>
        requires short { length entry.line ≤ 1048576 }
        ensures { IfOk result (λ entries. entries ≡ entry ∷ []) }
    {
        let mut entries = Entries::new(alloc);
        entries.push(entry)?;
        Ok(entries)
    }

    /// The list of these changes. No memory is taken, and want of it is answered where they don't fit in a record.
    pub(crate) fn of(list: Vec<Entry>) -> Result<Entries, NoMemory>
        requires short { AllByRecursion (λ e. length e.line ≤ 1048576) list.items }
        ensures { IfOk result (λ entries. entries ≡ list.items) }
    {
        let room = room_for_all(list.as_slice())?;
        Ok(Entries { list, room })
    }

    /// Adds the change at the end. Want of memory, which is answered too where the changes would not fit in a record,
    /// leaves the list as it was.
    pub fn push(&mut self, entry: Entry) -> Result<(), NoMemory>
        requires short { length entry.line ≤ 1048576 }
        ensures pushed { OnOk result (self.new ≡ self.old ++ entry ∷ []) }
        ensures same { OnErr result (self.new ≡ self.old) }
    {
        let room = self.room + entry.room();
        if room >= TOO_MUCH {
            return Err(NoMemory);
        }
        self.list.push(entry)?;
        self.room = room;
        Ok(())
    }

    /// Its changes in order.
    pub fn entries(&self) -> &[Entry]
        ensures entries { result.now ≡ self.now }
        ensures fits { AreEntries self.now }
    {
        self.list.as_slice()
    }

    /// Room for the texts of all of them. Nothing rests on it.
    pub(crate) fn room(&self) -> usize {
        self.room
    }
}

// Room for the texts of all these changes. Want of memory is answered where it would be 2^63 bytes or more.
fn room_for_all(entries: &[Entry]) -> Result<usize, NoMemory>
    requires short { AllByRecursion (λ e. length e.line ≤ 1048576) entries.now }
    ensures { IfOk result (λ room. HaveRoom entries.now room) }
{
    let mut room = 0;
    for entry in entries {
        room += entry.room();
        if room >= TOO_MUCH {
            return Err(NoMemory);
        }
    }
    Ok(room)
}
