//! The bodies of records: one change behind its number, or a group behind a 0 and the number of its first change.
ghost use Rattle.std.specs.Prelude.{◌≡◌, ◌++◌, ◌<◌, ◌^◌, length, OnOk};
ghost use Rattle.std.specs.Int.{w32};
ghost use Rattle.record_codec.specs.Spelling.{string, entries_text, body};
ghost use Rattle.record_codec.specs.Fitting.{IsList, IsEntry, IsRecord};
ghost use Rattle.record_codec.specs.Reading.{Reads, line_at, list_at, entry_at, group_at, single_at, body_at};

use crate::entries::Entries;
use crate::entry::Entry;
use crate::fault::ReadError;
use crate::item::{Item, push_list, read_list};
use crate::numbers::{push_eight, push_four};
use crate::record::Record;
use crate::source::Source;
use crate::steps::{bytes_fit, read_trace};
use grid_base::Reply;
use std::alloc::{AllocError, Global};

/// The most bytes that a line of a record has.
pub const LINE_LIMIT: usize = 1_048_576;

/// The record whose body comes next.
#[tactic(auto, unfolding(crate::specs::Reading::body_at))]
pub(crate) fn read_body(alloc: Global, source: &mut Source) -> Result<Record, ReadError>
    ensures { Reads source.old source.new result body_at }
{
    let number = source.number_of_eight().ok_or(ReadError::Outside)?;
    if number == 0 {
        read_group(alloc, source)
    } else {
        read_single(alloc, number, source)
    }
}

// The group that comes next, behind its 0.
#[tactic(auto, unfolding(crate::specs::Reading::group_at))]
fn read_group(alloc: Global, source: &mut Source) -> Result<Record, ReadError>
    ensures { Reads source.old source.new result group_at }
{
    let number = source.number_of_eight().ok_or(ReadError::Outside)?;
    if number == 0 {
        return Err(ReadError::Outside);
    }
    let entries = read_entries(alloc, source)?;
    if entries.entries().len() < 2 {
        return Err(ReadError::Outside);
    }
    Ok(Record { number, entries })
}

// The next list of entries.
fn read_entries(alloc: Global, source: &mut Source) -> Result<Entries, ReadError>
    ensures { Reads source.old source.new result (list_at entry_at) }
{
    bytes_fit(source.left());
    let entries = read_list(alloc, source)?;
    Ok(Entries::of(entries)?)
}

// The one change that comes next, behind its number.
fn read_single(alloc: Global, number: u64, source: &mut Source) -> Result<Record, ReadError>
    ensures { Reads source.old source.new result (single_at number) }
{
    bytes_fit(source.left());
    let entry = Entry::read(alloc, source)?;
    let entries = Entries::one(alloc, entry)?;
    Ok(Record { number, entries })
}

// The next line: its length, and its bytes.
#[tactic(auto, unfolding(crate::specs::Reading::line_at))]
fn read_line_bytes(alloc: Global, source: &mut Source) -> Result<Reply, ReadError>
    ensures { Reads source.old source.new result line_at }
{
    let length = source.number_of_four().ok_or(ReadError::Outside)?;
    let bytes = source.front(u64::from(length)).ok_or(ReadError::Outside)?;
    if bytes.len() > LINE_LIMIT {
        return Err(ReadError::Outside);
    }
    Ok(Reply::new(Vec::from_slice(alloc, bytes)?))
}

/// Writes the body of the record at the end.
#[tactic(auto, unfolding(crate::specs::Spelling::body))]
pub(crate) fn push_body(out: &mut Vec<u8>, r: &Record) -> Result<(), AllocError>
    requires { IsRecord r.now }
    ensures { OnOk result (out.new.items ≡ out.old.items ++ body r.now) }
{
    match r.entries.entries() {
        [entry] => {
            push_eight(out, r.number)?;
            entry.write(out)
        }
        entries => push_group(out, r.number, entries),
    }
}

// Writes the body of a group at the end: a 0, the number of its first change, and the entries.
fn push_group(out: &mut Vec<u8>, number: u64, entries: &[Entry]) -> Result<(), AllocError>
    requires several { 1 < length entries.now }
    requires each { IsList IsEntry entries.now }
    ensures { OnOk result (out.new.items ≡ out.old.items ++ entries_text number entries.now) }
{
    push_eight(out, 0)?;
    push_eight(out, number)?;
    push_list(out, entries)
}

// Writes the length of the line and the line at the end.
#[tactic(auto, unfolding(crate::specs::Spelling::string))]
fn push_line(out: &mut Vec<u8>, line: &[u8]) -> Result<(), AllocError>
    requires { length line.now < 2 ^ 32 }
    ensures { OnOk result (out.new.items ≡ out.old.items ++ string w32 line.now) }
{
    push_four(out, line.len() as u32)?;
    out.extend_from_slice(line)
}

impl Item for Entry {
    ghost use Rattle.record_codec.specs.Spelling.{entry};
    ghost use Rattle.record_codec.specs.Fitting.{IsEntry};
    ghost use Rattle.record_codec.specs.Reading.{entry_at};

    ghost text = { entry };

    ghost HasText = { IsEntry };

    ghost at_front = { entry_at };

    #[tactic(auto, unfolding(crate::specs::Reading::entry_at))]
    fn read(alloc: Global, source: &mut Source) -> Result<Entry, ReadError> {
        let line = read_line_bytes(alloc, source)?;
        let trace = read_trace(alloc, source)?;
        Ok(Entry { line, trace })
    }

    #[tactic(auto, unfolding(crate::specs::Spelling::entry))]
    fn write(&self, out: &mut Vec<u8>) -> Result<(), AllocError> {
        push_line(out, self.line.bytes())?;
        push_list(out, self.trace.steps())
    }
}
