//! Hands out the records of bytes one after another, so that one alone is in memory beside the bytes.
ghost use Rattle.std.specs.Prelude.{◌≡◌, ◌∷◌, ◌<◌, ℕ, get_or, Bool, List, [], IfOk, IfSome, OnErr, MatchOption};
ghost use Rattle.record_codec.specs.declared.record.Record.{Record as Seen};
ghost use Rattle.record_codec.specs.Fitting.{IsRecord};
ghost use Rattle.realm_journal.specs.Scanning.{Scans};

use crate::records::NextRecord;
use crate::scanning::next_record;
use grid_base::NoMemory;
use record_codec::Record;
use std::alloc::Global;
use std::marker::Model;

/// The records that the bytes of a file still hold, up to a closed gate or one without a whole record. Contracts see
/// the list.
#[derive(Drop)]
pub struct Records {
    bytes: Vec<u8>,
    // The place of the next gate.
    end: usize,
}

impl Model for Records {
    ghost use Rattle.std.specs.Prelude.{List, drop};
    ghost use Rattle.record_codec.specs.declared.record.Record.{Record};
    ghost use Rattle.realm_journal.specs.Handing.{held};

    ghost Value = { List Record };

    ghost view = { λ r. held (drop r.end r.bytes.items) };
}

impl Records {
    /// The records of these bytes, whose first gate stands at their front. None is read yet.
    pub fn new(bytes: Vec<u8>) -> Records
        ensures { (list : List Seen) → (end : ℕ) → (bad : Bool) → Scans bytes.items 0 list end bad → result ≡ list }
    {
        bytes_fit(bytes.as_slice());
        Records { bytes, end: 0 }
    }

    /// Reads the next record, and hands it out. Want of memory leaves it where it is.
    pub fn next_record(&mut self, alloc: Global) -> Result<Option<Record>, NoMemory>
        ensures handed { IfOk result (λ o. MatchOption o ((self.old ≡ []) × (self.new ≡ []))
            (λ r. self.old ≡ r ∷ self.new)) }
        ensures is_record { IfOk result (λ o. IfSome o (λ r. IsRecord r)) }
        ensures same { OnErr result (self.new ≡ self.old) }
    {
        let bytes = self.bytes.as_slice();
        bytes_fit(bytes);
        match next_record(alloc, bytes, self.end)? {
            NextRecord::Record { record, end } => {
                self.end = end;
                Ok(Some(record))
            }
            NextRecord::Closed => Ok(None),
            NextRecord::Bad => Ok(None),
        }
    }

    /// All of them in order, each read once. This takes the memory of the list.
    pub fn into_list(self, alloc: Global) -> Result<Vec<Record>, NoMemory>
        ensures { IfOk result (λ list. list.items ≡ self) }
    {
        let mut records = self;
        let mut list = Vec::new(alloc);
        while let Some(record) = records.next_record(alloc)? {
            list.push(record)?;
        }
        Ok(list)
    }
}

// That each of the bytes is below 256. The call does nothing.
fn bytes_fit(bytes: &[u8])
    ensures { (i : ℕ) → get_or bytes.now i 0 < 256 }
{
    let _ = bytes;
}
