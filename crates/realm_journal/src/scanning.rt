//! Reads records one after another, until a gate is closed or no whole record follows it.
ghost use Rattle.std.specs.Prelude.{◌≡◌, ◌<◌, ◌↔◌, ◌^◌, ℕ, List, false, length, drop, IsTrue, IfOk, IsErrOf};
ghost use Rattle.outside_world.specs.Counts.{Rose};
ghost use Rattle.outside_world.specs.GoesOn.{GoesOn};
ghost use Rattle.realm_journal.specs.Gates.{IsOpenAt};
ghost use Rattle.realm_journal.specs.Scanning.{IsNextAt, Scans, Scanned};

use crate::OPEN;
use crate::error::ScanError;
use crate::reading::read_from;
use crate::records::{NextRecord, Scan};
use grid_base::NoMemory;
use outside_world::{FileName, Outside};
use record_codec::{ListOf, decode};
use std::alloc::Global;

/// The records of a file from the gate at a place on.
pub fn scan<W: Outside>(
    alloc: Global,
    world: &mut W,
    file: FileName,
    at: u64,
) -> Result<Scan, ScanError>
    requires intact { W.failed world.old ≡ false }
    ensures told { W.tells world.new → Scanned (W.view world.old) (W.view world.new) file at result }
    ensures disk_fault { IsErrOf result ScanError.Disk
        → Rose (W.disk_faults world.old) (W.disk_faults world.new) }
    ensures intact { ¬ (IsErrOf result ScanError.Disk) → W.failed world.new ≡ false }
    ensures goes_on { GoesOn ⟦<W as Outside>⟧ world.old world.new }
{
    let bytes = read_from(alloc, world, file, at)?;
    Ok(scan_bytes(alloc, &bytes, at)?)
}

/// What stands at the gate of a place of these bytes.
pub fn next_record(alloc: Global, bytes: &[u8], at: usize) -> Result<NextRecord, NoMemory>
    ensures next { IfOk result (λ next. IsNextAt bytes.now at next) }
{
    if !is_open(bytes, at) {
        return Ok(NextRecord::Closed);
    }
    match decode(alloc, &bytes[at + 1..])? {
        None => Ok(NextRecord::Bad),
        Some((record, size)) => Ok(NextRecord::Record {
            record,
            end: at + 1 + size,
        }),
    }
}

/// The records of these bytes, which stand in a file from a place on. A length has 64 bits.
pub fn scan_bytes(alloc: Global, bytes: &[u8], at: u64) -> Result<Scan, NoMemory>
    ensures scan { IfOk result (λ s. (file : List ℕ) → length file < 2 ^ 64 → bytes.now ≡ drop at file
        → Scans file at s.list s.end s.bad) }
{
    let mut list = Vec::new(alloc);
    let mut place = 0;
    loop {
        match next_record(alloc, bytes, place)? {
            NextRecord::Record { record, end } => {
                list.push(record)?;
                place = end;
            }
            NextRecord::Closed => {
                return Ok(Scan {
                    list: ListOf::new(list),
                    end: at.saturating_add(place as u64),
                    bad: false,
                });
            }
            NextRecord::Bad => {
                return Ok(Scan {
                    list: ListOf::new(list),
                    end: at.saturating_add(place as u64),
                    bad: true,
                });
            }
        }
    }
}

// Whether an open gate stands at this place.
fn is_open(bytes: &[u8], at: usize) -> bool
    ensures { IsTrue result ↔ ((at < length bytes.now) × IsOpenAt at bytes.now) }
{
    at < bytes.len() && bytes[at] == OPEN
}
