//! A world in memory on which no call fails. It has room for a session of a fixed size, and tells what it
//! holds as long as all fits.
ghost use Rattle.std.specs.Prelude.{◌≡◌, ◌≤◌, ◌<◌, ◌+◌, ◌^◌, length, true, false, IfOk, OnOk, OnErr};
ghost use Rattle.outside_world.specs.Calls.{Took, Gave, Sized, Read, Wrote, Synced};
ghost use Rattle.outside_world.specs.Counts.{Rose};
ghost use Rattle.outside_world.specs.Events.{Looked};
ghost use Rattle.outside_world.specs.Log.{FitsCall, FitsGive, FitsWrite};
ghost use Rattle.outside_world.specs.Steady.{steady_view, fresh_steady, no_faults, never_failed, Notes, Stays};
ghost use Rattle.outside_world.specs.ViewLaws.{left_counts_now, left_only_now, none_asked_now};
ghost use Rattle.outside_world.specs.ViewLaws.{reads_an_image_now, byte_by_byte_now};

use crate::call_log::{CallLog, Room};
use crate::filling::{behind, fill};
use crate::world::{Failed, FileName, Outside};
use grid_base::NoMemory;
use std::alloc::Global;
use std::marker::Model;

/// How many calls there is room for.
const MOST_CALLS: usize = 65_536;

/// How many bytes of output there is room for, and how many more of each file: 1 MiB.
const MOST_BYTES: usize = 1_048_576;

/// How many written bytes there is room for: 4 MiB.
const MOST_WRITTEN: usize = 4_194_304;

/// A world in memory on which no call fails. A call for which no room is left answers as if it had been done, and
/// the world tells nothing any more.
#[derive(Drop)]
pub struct SteadyWorld {
    log: CallLog,
    fits: bool,
}

impl Model for SteadyWorld {
    ghost use Rattle.outside_world.specs.Steady.{Steady};
    ghost use Rattle.outside_world.specs.SteadyFields.{steady_of};

    ghost Value = { Steady };

    ghost view = { steady_of };
}

impl SteadyWorld {
    /// A world with this input and these two files.
    pub fn new(
        alloc: Global,
        input: Vec<u8>,
        a: Vec<u8>,
        b: Vec<u8>,
    ) -> Result<SteadyWorld, NoMemory>
        ensures fresh { IfOk result (λ w. w ≡ fresh_steady input.items a.items b.items) }
    {
        let room = Room {
            calls: MOST_CALLS,
            output: MOST_BYTES,
            a: a.len() + MOST_BYTES,
            b: b.len() + MOST_BYTES,
            written: MOST_WRITTEN,
        };
        let mut log = CallLog::new(alloc, input, a, b)?;
        log.reserve(room)?;
        Ok(SteadyWorld { log, fits: true })
    }

    /// Whether all fitted so far, so that it still tells what it holds.
    pub fn fits(&self) -> bool
        ensures fits { result ≡ self.now.fits }
    {
        self.fits
    }

    /// The output, as far as it fitted.
    pub fn given(&self) -> &[u8]
        ensures given { result.now ≡ (steady_view self.now).given }
    {
        self.log.given()
    }
}

impl Outside for SteadyWorld {
    ghost tells = { λ w. w.fits ≡ true };

    ghost view = { steady_view };

    ghost source_faults = { no_faults };

    ghost sink_faults = { no_faults };

    ghost disk_faults = { no_faults };

    ghost failed = { never_failed };

    ghost reads_an_image = { λ w f tells. reads_an_image_now w.log f };

    ghost byte_by_byte = { λ w tells. byte_by_byte_now w.log };

    ghost counts_now = { λ w t m tells early may. left_counts_now w.log t m early may };

    ghost only_now = { λ w m tells left. left_only_now w.log m left };

    ghost none_asked = { λ w a tells asked. none_asked_now w.log a asked };

    fn take(&mut self, buf: &mut [u8]) -> Result<usize, Failed>
        ensures within { IfOk result (λ n. n ≤ length buf.old) }
        ensures later { no_faults self.old ≤ no_faults self.new }
        ensures others { (no_faults self.new ≡ no_faults self.old)
            × (no_faults self.new ≡ no_faults self.old) }
        ensures source_fault { OnErr result (Rose (no_faults self.old) (no_faults self.new)) }
        ensures intact { OnOk result (never_failed self.new ≡ false) }
        ensures fails { OnErr result (never_failed self.new ≡ true) }
        ensures still { self.new.fits ≡ true → self.old.fits ≡ true }
        ensures told { self.new.fits ≡ true
            → Took (steady_view self.old) (steady_view self.new) buf.new result }
        ensures stays { Stays self.old self.new (FitsCall self.old.log) }
    {
        if !self.has_call() {
            self.fits = false;
            return Ok(0);
        }
        let size = fill(buf, self.log.left());
        match self.log.note_take(size) {
            Ok(()) => Ok(size),
            Err(NoMemory) => {
                self.fits = false;
                Ok(0)
            }
        }
    }

    fn give(&mut self, bytes: &[u8]) -> Result<usize, Failed>
        ensures within { IfOk result (λ n. n ≤ length bytes.now) }
        ensures progress { IfOk result (λ n. 0 < length bytes.now → 0 < n) }
        ensures later { no_faults self.old ≤ no_faults self.new }
        ensures others { (no_faults self.new ≡ no_faults self.old)
            × (no_faults self.new ≡ no_faults self.old) }
        ensures sink_fault { OnErr result (Rose (no_faults self.old) (no_faults self.new)) }
        ensures intact { OnOk result (never_failed self.new ≡ false) }
        ensures fails { OnErr result (never_failed self.new ≡ true) }
        ensures still { self.new.fits ≡ true → self.old.fits ≡ true }
        ensures told { self.new.fits ≡ true
            → Gave (steady_view self.old) (steady_view self.new) bytes.now result }
        ensures stays { Stays self.old self.new (FitsGive self.old.log (length bytes.now)) }
    {
        if !self.has_call() || !self.log.fits_output(bytes.len()) {
            self.fits = false;
            return Ok(bytes.len());
        }
        match self.log.note_give(bytes) {
            Ok(()) => Ok(bytes.len()),
            Err(NoMemory) => {
                self.fits = false;
                Ok(bytes.len())
            }
        }
    }

    fn size(&mut self, file: FileName) -> Result<u64, Failed>
        ensures later { no_faults self.old ≤ no_faults self.new }
        ensures others { (no_faults self.new ≡ no_faults self.old)
            × (no_faults self.new ≡ no_faults self.old) }
        ensures disk_fault { OnErr result (Rose (no_faults self.old) (no_faults self.new)) }
        ensures intact { OnOk result (never_failed self.new ≡ false) }
        ensures fails { OnErr result (never_failed self.new ≡ true) }
        ensures still { self.new.fits ≡ true → self.old.fits ≡ true }
        ensures told { self.new.fits ≡ true
            → Sized (steady_view self.old) (steady_view self.new) file result }
        ensures stays { Stays self.old self.new (FitsCall self.old.log) }
    {
        self.look();
        Ok(self.log.file(file).len() as u64)
    }

    fn read_at(&mut self, file: FileName, at: u64, buf: &mut [u8]) -> Result<usize, Failed>
        ensures within { IfOk result (λ n. n ≤ length buf.old) }
        ensures later { no_faults self.old ≤ no_faults self.new }
        ensures others { (no_faults self.new ≡ no_faults self.old)
            × (no_faults self.new ≡ no_faults self.old) }
        ensures disk_fault { OnErr result (Rose (no_faults self.old) (no_faults self.new)) }
        ensures intact { OnOk result (never_failed self.new ≡ false) }
        ensures fails { OnErr result (never_failed self.new ≡ true) }
        ensures still { self.new.fits ≡ true → self.old.fits ≡ true }
        ensures told { self.new.fits ≡ true
            → Read (steady_view self.old) (steady_view self.new) file at buf.new result }
        ensures stays { Stays self.old self.new (FitsCall self.old.log) }
    {
        self.look();
        Ok(fill(buf, behind(self.log.file(file), at)))
    }

    fn write_at(&mut self, file: FileName, at: u64, bytes: &[u8]) -> Result<(), Failed>
        requires fits { at + length bytes.now < 2 ^ 64 }
        requires within { self.old.fits ≡ true → at ≤ length ((steady_view self.old).reads file) }
        ensures later { no_faults self.old ≤ no_faults self.new }
        ensures others { (no_faults self.new ≡ no_faults self.old)
            × (no_faults self.new ≡ no_faults self.old) }
        ensures disk_fault { OnErr result (Rose (no_faults self.old) (no_faults self.new)) }
        ensures intact { OnOk result (never_failed self.new ≡ false) }
        ensures fails { OnErr result (never_failed self.new ≡ true) }
        ensures still { self.new.fits ≡ true → self.old.fits ≡ true }
        ensures told { self.new.fits ≡ true
            → Wrote (steady_view self.old) (steady_view self.new) file at bytes.now result }
        ensures stays { Stays self.old self.new (FitsWrite self.old.log file at (length bytes.now)) }
    {
        if !self.has_call() || !self.has_room(file, at, bytes.len()) {
            self.fits = false;
            return Ok(());
        }
        match self.log.note_write(file, at, bytes) {
            Ok(()) => Ok(()),
            Err(NoMemory) => {
                self.fits = false;
                Ok(())
            }
        }
    }

    fn sync(&mut self, file: FileName) -> Result<(), Failed>
        ensures later { no_faults self.old ≤ no_faults self.new }
        ensures others { (no_faults self.new ≡ no_faults self.old)
            × (no_faults self.new ≡ no_faults self.old) }
        ensures disk_fault { OnErr result (Rose (no_faults self.old) (no_faults self.new)) }
        ensures intact { OnOk result (never_failed self.new ≡ false) }
        ensures fails { OnErr result (never_failed self.new ≡ true) }
        ensures still { self.new.fits ≡ true → self.old.fits ≡ true }
        ensures told { self.new.fits ≡ true
            → Synced (steady_view self.old) (steady_view self.new) file result }
        ensures stays { Stays self.old self.new (FitsCall self.old.log) }
    {
        if !self.has_call() {
            self.fits = false;
            return Ok(());
        }
        match self.log.note_sync(file) {
            Ok(()) => Ok(()),
            Err(NoMemory) => {
                self.fits = false;
                Ok(())
            }
        }
    }
}

impl SteadyWorld {
    // Whether all fitted so far, and one call more does.
    fn has_call(&self) -> bool
        ensures told { result ≡ true → self.now.fits ≡ true }
        ensures fits { self.now.fits ≡ true → FitsCall self.now.log → result ≡ true }
    {
        self.fits && self.log.fits_call()
    }

    // Whether a write of so many bytes fits.
    fn has_room(&self, file: FileName, at: u64, size: usize) -> bool
        requires fits { at + size < 2 ^ 64 }
        ensures fits { FitsWrite self.now.log file at size → result ≡ true }
    {
        let end = (at + size as u64).max(self.log.file(file).len() as u64);
        if !self.log.fits_written(size) {
            return false;
        }
        self.log.fits_file(file, end)
    }

    // Notes a call that only asks.
    fn look(&mut self)
        ensures notes { Notes self.old self.new Looked }
        ensures stays { Stays self.old self.new (FitsCall self.old.log) }
    {
        if !self.has_call() {
            self.fits = false;
            return;
        }
        match self.log.note_look() {
            Ok(()) => {}
            Err(NoMemory) => {
                self.fits = false;
            }
        }
    }
}
