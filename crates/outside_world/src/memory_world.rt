//! A world in memory. It notes each call, and all that it tells is read off that log.
ghost use Rattle.std.specs.Prelude.{◌≡◌, ◌≤◌, ◌<◌, ◌+◌, ◌^◌, true, false, length, take, drop, IfOk, OnOk, OnErr};
ghost use Rattle.std.specs.FinSet as set;
ghost use Rattle.outside_world.specs.Calls.{Took, Gave, Sized, Read, Wrote, Synced};
ghost use Rattle.outside_world.specs.Events.{Looked};
ghost use Rattle.outside_world.specs.Counts.{Rose};
ghost use Rattle.outside_world.specs.History.{MayLeaveAfter};
ghost use Rattle.outside_world.specs.Log.{first_of, left_by, file_then, crash_at};
ghost use Rattle.outside_world.specs.Memory.{memory_view, has_failed, fresh, fresh_in_pieces, piece_of, next_piece};
ghost use Rattle.outside_world.specs.Memory.{Notes, Takes, Gives, Sizes, Reads, Writes, Syncs};
ghost use Rattle.outside_world.specs.Memory.{with_source_fault, with_sink_fault, with_disk_fault};
ghost use Rattle.outside_world.specs.ViewLaws.{left_counts_now, left_only_now, none_asked_now};
ghost use Rattle.outside_world.specs.ViewLaws.{reads_an_image_now, byte_by_byte_now};

use crate::call_log::CallLog;
use crate::filling::{behind, fill};
use crate::leave::Leave;
use crate::world::{Failed, FileName, Outside};
use grid_base::NoMemory;
use std::alloc::Global;
use std::marker::Model;

/// A world in memory. A call fails where its number is one of those that are to fail, and where
/// memory runs out. Calls are numbered from 1; one that can't be noted for want of memory leaves its
/// number to the next. A take and a give move a piece at most.
pub struct MemoryWorld {
    log: CallLog,
    failing: Vec<u64>,
    piece: usize,
    source_faults: u64,
    sink_faults: u64,
    disk_faults: u64,
}

impl Model for MemoryWorld {
    ghost use Rattle.std.specs.Coded.{codes, coded_ℕ};
    ghost use Rattle.std.specs.FinSet as set;
    ghost use Rattle.std.specs.Ordering.{nat_cmp};
    ghost use Rattle.outside_world.specs.Memory.{Memory};

    ghost Value = { Memory };

    ghost coded = { Prim.hlevel (codes, set.code {R = nat_cmp} coded_ℕ) };

    ghost use Rattle.outside_world.specs.MemoryFields.{memory_of, Agrees};

    ghost view = { memory_of };

    ghost invariant = { Agrees };
}

// Written out, so that who lets go of a world makes one call. A derived one would be gone through at each place.
impl Drop for MemoryWorld {
    fn drop(self) {
        let MemoryWorld {
            log: _log,
            failing: _failing,
            piece: _,
            source_faults: _,
            sink_faults: _,
            disk_faults: _,
        } = self;
    }
}

impl MemoryWorld {
    /// A world with this input and these two files. The calls with the numbers in `failing` fail.
    pub fn new(
        alloc: Global,
        input: Vec<u8>,
        a: Vec<u8>,
        b: Vec<u8>,
        failing: Vec<u64>,
    ) -> Result<MemoryWorld, NoMemory>
        ensures fresh { IfOk result (λ w. w ≡ fresh input.items a.items b.items failing.items) }
        ensures intact { IfOk result (λ w. has_failed w ≡ false) }
    {
        MemoryWorld::in_pieces(alloc, input, a, b, failing, usize::MAX)
    }

    /// The same, where a take and a give move so many bytes at most.
    pub fn in_pieces(
        alloc: Global,
        input: Vec<u8>,
        a: Vec<u8>,
        b: Vec<u8>,
        failing: Vec<u64>,
        piece: usize,
    ) -> Result<MemoryWorld, NoMemory>
        requires some { 0 < piece }
        ensures fresh { IfOk result (λ w.
            w ≡ fresh_in_pieces input.items a.items b.items failing.items piece) }
        ensures intact { IfOk result (λ w. has_failed w ≡ false) }
    {
        let mut ascending = failing;
        ascending.sort()?;
        Ok(MemoryWorld {
            log: CallLog::new(alloc, input, a, b)?,
            failing: ascending,
            piece,
            source_faults: 0,
            sink_faults: 0,
            disk_faults: 0,
        })
    }

    /// The output.
    pub fn given(&self) -> &[u8]
        ensures given { result.now ≡ (memory_view self.now).given }
    {
        self.log.given()
    }

    /// Whether a call has failed, so that no more may be made.
    pub fn has_failed(&self) -> bool
        ensures failed { result ≡ has_failed self.now }
    {
        self.source_faults > 0 || self.sink_faults > 0 || self.disk_faults > 0
    }

    /// How many calls there were.
    pub fn calls(&self) -> u64
        ensures calls { result ≡ length self.now.log.calls }
    {
        self.log.count() as u64
    }
}

impl MemoryWorld {
    /// What a crash after so many calls may leave of the two files, of what is asked for.
    pub fn images(&self, moment: u64, leave: Leave) -> Result<(Vec<u8>, Vec<u8>), NoMemory>
        requires past { moment ≤ length self.now.log.calls }
        ensures left { IfOk result (λ files.
            (files.0.items ≡ left_by leave (file_then self.now.log moment FileName.A))
            × (files.1.items ≡ left_by leave (file_then self.now.log moment FileName.B))) }
        ensures permitted { IfOk result (λ files. MayLeaveAfter (first_of self.now.log)
            (take moment self.now.log.calls) (crash_at self.now.log moment files.0.items files.1.items)) }
    {
        let a = self.log.image(FileName::A, moment as usize, leave)?;
        let b = self.log.image(FileName::B, moment as usize, leave)?;
        Ok((a, b))
    }
}

impl Outside for MemoryWorld {
    ghost tells = { λ _. Unit {0} };

    ghost view = { memory_view };

    ghost source_faults = { λ w. w.source_faults };

    ghost sink_faults = { λ w. w.sink_faults };

    ghost disk_faults = { λ w. w.disk_faults };

    ghost failed = { has_failed };

    ghost reads_an_image = { λ w f tells. reads_an_image_now w.log f };

    ghost byte_by_byte = { λ w tells. byte_by_byte_now w.log };

    ghost counts_now = { λ w t m tells early may. left_counts_now w.log t m early may };

    ghost only_now = { λ w m tells left. left_only_now w.log m left };

    ghost none_asked = { λ w a tells asked. none_asked_now w.log a asked };

    fn take(&mut self, buf: &mut [u8]) -> Result<usize, Failed>
        requires intact { has_failed self.old ≡ false }
        ensures within { IfOk result (λ n. n ≤ length buf.old) }
        ensures takes { Takes self.old self.new buf.new result }
        ensures later { self.old.source_faults ≤ self.new.source_faults }
        ensures others { (self.new.sink_faults ≡ self.old.sink_faults)
            × (self.new.disk_faults ≡ self.old.disk_faults) }
        ensures source_fault { OnErr result (Rose self.old.source_faults self.new.source_faults) }
        ensures intact { OnOk result (has_failed self.new ≡ false) }
        ensures fails { OnErr result (has_failed self.new ≡ true) }
        ensures told { Took (memory_view self.old) (memory_view self.new) buf.new result }
    {
        if self.next_fails() {
            // Noted or not, it fails.
            let _ = self.log.note_take(0);
            self.count_source_fault();
            return Err(Failed);
        }
        let size = fill(buf, self.next_piece());
        match self.log.note_take(size) {
            Ok(()) => Ok(size),
            Err(NoMemory) => {
                self.count_source_fault();
                Err(Failed)
            }
        }
    }

    fn give(&mut self, bytes: &[u8]) -> Result<usize, Failed>
        requires intact { has_failed self.old ≡ false }
        ensures within { IfOk result (λ n. n ≤ length bytes.now) }
        ensures progress { IfOk result (λ n. 0 < length bytes.now → 0 < n) }
        ensures gives { Gives self.old self.new bytes.now result }
        ensures later { self.old.sink_faults ≤ self.new.sink_faults }
        ensures others { (self.new.source_faults ≡ self.old.source_faults)
            × (self.new.disk_faults ≡ self.old.disk_faults) }
        ensures sink_fault { OnErr result (Rose self.old.sink_faults self.new.sink_faults) }
        ensures intact { OnOk result (has_failed self.new ≡ false) }
        ensures fails { OnErr result (has_failed self.new ≡ true) }
        ensures told { Gave (memory_view self.old) (memory_view self.new) bytes.now result }
    {
        if self.next_fails() {
            let _ = self.log.note_look();
            self.count_sink_fault();
            return Err(Failed);
        }
        let piece = self.piece_of(bytes);
        match self.log.note_give(piece) {
            Ok(()) => Ok(piece.len()),
            Err(NoMemory) => {
                self.count_sink_fault();
                Err(Failed)
            }
        }
    }

    fn size(&mut self, file: FileName) -> Result<u64, Failed>
        requires intact { has_failed self.old ≡ false }
        ensures sizes { Sizes self.old self.new file result }
        ensures later { self.old.disk_faults ≤ self.new.disk_faults }
        ensures others { (self.new.source_faults ≡ self.old.source_faults)
            × (self.new.sink_faults ≡ self.old.sink_faults) }
        ensures disk_fault { OnErr result (Rose self.old.disk_faults self.new.disk_faults) }
        ensures intact { OnOk result (has_failed self.new ≡ false) }
        ensures fails { OnErr result (has_failed self.new ≡ true) }
        ensures told { Sized (memory_view self.old) (memory_view self.new) file result }
    {
        self.look()?;
        Ok(self.log.file(file).len() as u64)
    }

    fn read_at(&mut self, file: FileName, at: u64, buf: &mut [u8]) -> Result<usize, Failed>
        requires intact { has_failed self.old ≡ false }
        ensures within { IfOk result (λ n. n ≤ length buf.old) }
        ensures reads { Reads self.old self.new file at buf.new result }
        ensures later { self.old.disk_faults ≤ self.new.disk_faults }
        ensures others { (self.new.source_faults ≡ self.old.source_faults)
            × (self.new.sink_faults ≡ self.old.sink_faults) }
        ensures disk_fault { OnErr result (Rose self.old.disk_faults self.new.disk_faults) }
        ensures intact { OnOk result (has_failed self.new ≡ false) }
        ensures fails { OnErr result (has_failed self.new ≡ true) }
        ensures told { Read (memory_view self.old) (memory_view self.new) file at buf.new result }
    {
        self.look()?;
        Ok(fill(buf, behind(self.log.file(file), at)))
    }

    fn write_at(&mut self, file: FileName, at: u64, bytes: &[u8]) -> Result<(), Failed>
        requires intact { has_failed self.old ≡ false }
        requires within { at ≤ length ((memory_view self.old).reads file) }
        ensures writes { Writes self.old self.new file at bytes.now result }
        ensures later { self.old.disk_faults ≤ self.new.disk_faults }
        ensures others { (self.new.source_faults ≡ self.old.source_faults)
            × (self.new.sink_faults ≡ self.old.sink_faults) }
        ensures disk_fault { OnErr result (Rose self.old.disk_faults self.new.disk_faults) }
        ensures intact { OnOk result (has_failed self.new ≡ false) }
        ensures fails { OnErr result (has_failed self.new ≡ true) }
        ensures told { Wrote (memory_view self.old) (memory_view self.new) file at bytes.now result }
    {
        if self.next_fails() {
            let _ = self.log.note_try(file, at, bytes.len());
            self.count_disk_fault();
            return Err(Failed);
        }
        match self.log.note_write(file, at, bytes) {
            Ok(()) => Ok(()),
            Err(NoMemory) => {
                self.count_disk_fault();
                Err(Failed)
            }
        }
    }

    fn sync(&mut self, file: FileName) -> Result<(), Failed>
        requires intact { has_failed self.old ≡ false }
        ensures syncs { Syncs self.old self.new file result }
        ensures later { self.old.disk_faults ≤ self.new.disk_faults }
        ensures others { (self.new.source_faults ≡ self.old.source_faults)
            × (self.new.sink_faults ≡ self.old.sink_faults) }
        ensures disk_fault { OnErr result (Rose self.old.disk_faults self.new.disk_faults) }
        ensures intact { OnOk result (has_failed self.new ≡ false) }
        ensures fails { OnErr result (has_failed self.new ≡ true) }
        ensures told { Synced (memory_view self.old) (memory_view self.new) file result }
    {
        if self.next_fails() {
            let _ = self.log.note_look();
            self.count_disk_fault();
            return Err(Failed);
        }
        match self.log.note_sync(file) {
            Ok(()) => Ok(()),
            Err(NoMemory) => {
                self.count_disk_fault();
                Err(Failed)
            }
        }
    }
}

impl MemoryWorld {
    // Whether the next call is one of those that are to fail.
    fn next_fails(&self) -> bool
        ensures { result ≡ set.contains self.now.failing (length self.now.log.calls + 1) }
    {
        let number = self.log.count() as u64 + 1;
        self.failing.binary_search(&number).is_ok()
    }

    // What of these bytes one call moves.
    fn piece_of<'a>(&self, bytes: &'a [u8]) -> &'a [u8]
        ensures { result.now ≡ piece_of self.now bytes.now }
    {
        let end = self.piece.min(bytes.len());
        &bytes[..end]
    }

    // What of the input one take moves.
    fn next_piece(&self) -> &[u8]
        ensures { result.now ≡ next_piece self.now }
    {
        self.piece_of(self.log.left())
    }

    // Notes a call on a file that only asks.
    fn look(&mut self) -> Result<(), Failed>
        requires intact { has_failed self.old ≡ false }
        ensures notes { Notes self.old self.new Looked Looked with_disk_fault result }
        ensures later { self.old.disk_faults ≤ self.new.disk_faults }
        ensures others { (self.new.source_faults ≡ self.old.source_faults)
            × (self.new.sink_faults ≡ self.old.sink_faults) }
        ensures disk_fault { OnErr result (Rose self.old.disk_faults self.new.disk_faults) }
        ensures intact { OnOk result (has_failed self.new ≡ false) }
        ensures fails { OnErr result (has_failed self.new ≡ true) }
    {
        if self.next_fails() {
            let _ = self.log.note_look();
            self.count_disk_fault();
            return Err(Failed);
        }
        match self.log.note_look() {
            Ok(()) => Ok(()),
            Err(NoMemory) => {
                self.count_disk_fault();
                Err(Failed)
            }
        }
    }

    fn count_source_fault(&mut self)
        ensures counted { self.new ≡ with_source_fault self.old }
        ensures later { self.old.source_faults ≤ self.new.source_faults }
        ensures fails { has_failed self.new ≡ true }
    {
        self.source_faults = self.source_faults.saturating_add(1);
    }

    fn count_sink_fault(&mut self)
        ensures counted { self.new ≡ with_sink_fault self.old }
        ensures later { self.old.sink_faults ≤ self.new.sink_faults }
        ensures fails { has_failed self.new ≡ true }
    {
        self.sink_faults = self.sink_faults.saturating_add(1);
    }

    fn count_disk_fault(&mut self)
        ensures counted { self.new ≡ with_disk_fault self.old }
        ensures later { self.old.disk_faults ≤ self.new.disk_faults }
        ensures fails { has_failed self.new ≡ true }
    {
        self.disk_faults = self.disk_faults.saturating_add(1);
    }
}
