//! The real world: standard input, standard output, and two files of the current folder. It is the trusted
//! edge: what the system does with files isn't told to any contract, so no clause on their content speaks of this
//! world. It counts how often a call failed.
ghost use Rattle.std.specs.Prelude.{◌≡◌, ◌≤◌, ◌++◌, true, false, length, codes, IfOk, OnOk, OnErr};
ghost use Rattle.std.specs.Io.KnownBytes.{ReadConsumes};
ghost use Rattle.outside_world.specs.Counts.{Rose};
ghost use Rattle.outside_world.specs.declared.world.FileName.{FileName};
ghost use Rattle.process_world.specs.Opened.{IsOpen, letter};
ghost use Rattle.process_world.specs.Untold.{untold};

use crate::locking::{HeldFile, TryLock};
use crate::real_file::{read_from, size_of, sync_of, write_to};
use outside_world::{Failed, FileName, Outside};
use std::io::Read;
use std::os::unix::fs::FileExt;
use std::rt::Files;

/// The letter of a file, with which its name ends.
pub fn letter_of(file: FileName) -> &'static str
    ensures { result.now ≡ letter file }
{
    match file {
        FileName::A => "a",
        FileName::B => "b",
    }
}

// The name of a file in the current folder.
fn name_of(file: FileName) -> &'static str
    ensures { result.now ≡ codes "realm." ++ letter file }
{
    match file {
        FileName::A => "realm.a",
        FileName::B => "realm.b",
    }
}

/// Standard input, standard output and the two files, with counts of their faults, and whether there was one. A
/// file is opened at its first use, made where it is missing, and held from then on: a file that another program
/// holds can't be opened.
#[derive(Drop)]
pub struct FileWorld<R: Files + Input + Print + Drop>
where
    <R as Files>::File: TryLock,
{
    rt: R,
    input: <R as Input>::Reader,
    a: Option<HeldFile<<R as Files>::File>>,
    b: Option<HeldFile<<R as Files>::File>>,
    source_faults: u64,
    sink_faults: u64,
    disk_faults: u64,
    failed: bool,
}

impl<R: Files + Input + Print + Drop> FileWorld<R>
where
    <R as Files>::File: TryLock,
{
    /// The world of this runtime. Nothing is read before the first take, and no file is opened before its
    /// first use.
    pub fn new(rt: R) -> FileWorld<R>
        ensures shut { (file : FileName) → IsOpen file result.a result.b → ⊥ }
        ensures no_fault { (result.source_faults ≡ 0) × (result.sink_faults ≡ 0) × (result.disk_faults ≡ 0) }
        ensures intact { result.failed ≡ false }
    {
        let input = rt.reader();
        FileWorld {
            rt,
            input,
            a: None,
            b: None,
            source_faults: 0,
            sink_faults: 0,
            disk_faults: 0,
            failed: false,
        }
    }

    /// Whether a call has failed, so that no more may be made.
    pub fn has_failed(&self) -> bool
        ensures failed { result ≡ self.now.failed }
    {
        self.failed
    }
}

impl<R: Files + Input + Print + Drop> Outside for FileWorld<R>
where
    <R as Files>::File: FileExt + TryLock,
{
    ghost tells = { λ _. ⊥ };

    ghost view = { λ _. untold };

    ghost source_faults = { λ w. w.source_faults };

    ghost sink_faults = { λ w. w.sink_faults };

    ghost disk_faults = { λ w. w.disk_faults };

    ghost failed = { λ w. w.failed };

    ghost reads_an_image = { λ w f told. absurd told };

    ghost byte_by_byte = { λ w told. absurd told };

    ghost counts_now = { λ w t m told le may. absurd told };

    ghost only_now = { λ w m told left. absurd told };

    ghost none_asked = { λ w a told asked. absurd told };

    fn take(&mut self, buf: &mut [u8]) -> Result<usize, Failed>
        requires intact { self.old.failed ≡ false }
        ensures within { IfOk result (λ n. n ≤ length buf.old) }
        ensures later { self.old.source_faults ≤ self.new.source_faults }
        ensures others { (self.new.sink_faults ≡ self.old.sink_faults)
            × (self.new.disk_faults ≡ self.old.disk_faults) }
        ensures source_fault { OnErr result (Rose self.old.source_faults self.new.source_faults) }
        ensures intact { OnOk result (self.new.failed ≡ false) }
        ensures fails { OnErr result (self.new.failed ≡ true) }
        ensures read { ReadConsumes (R.Reader.remaining self.old.input) (R.Reader.remaining self.new.input)
            result buf.new }
    {
        match self.input.read(buf) {
            Ok(count) => Ok(count),
            Err(_) => {
                self.source_faults = risen(self.source_faults);
                self.failed = true;
                Err(Failed)
            }
        }
    }

    fn give(&mut self, bytes: &[u8]) -> Result<usize, Failed> {
        match self.rt.write_some(bytes) {
            Ok(count) if count > 0 || bytes.is_empty() => Ok(count),
            _ => {
                self.sink_faults = risen(self.sink_faults);
                self.failed = true;
                Err(Failed)
            }
        }
    }

    fn size(&mut self, file: FileName) -> Result<u64, Failed>
        requires intact { self.old.failed ≡ false }
        ensures later { self.old.disk_faults ≤ self.new.disk_faults }
        ensures others { (self.new.source_faults ≡ self.old.source_faults)
            × (self.new.sink_faults ≡ self.old.sink_faults) }
        ensures disk_fault { OnErr result (Rose self.old.disk_faults self.new.disk_faults) }
        ensures intact { OnOk result (self.new.failed ≡ false) }
        ensures fails { OnErr result (self.new.failed ≡ true) }
        ensures opened { OnOk result (IsOpen file self.new.a self.new.b) }
    {
        let name = name_of(file);
        let done = match file {
            FileName::A => size_of(&self.rt, &mut self.a, name),
            FileName::B => size_of(&self.rt, &mut self.b, name),
        };
        counted(done, &mut self.disk_faults, &mut self.failed)
    }

    fn read_at(&mut self, file: FileName, at: u64, buf: &mut [u8]) -> Result<usize, Failed>
        requires intact { self.old.failed ≡ false }
        ensures within { IfOk result (λ n. n ≤ length buf.old) }
        ensures later { self.old.disk_faults ≤ self.new.disk_faults }
        ensures others { (self.new.source_faults ≡ self.old.source_faults)
            × (self.new.sink_faults ≡ self.old.sink_faults) }
        ensures disk_fault { OnErr result (Rose self.old.disk_faults self.new.disk_faults) }
        ensures intact { OnOk result (self.new.failed ≡ false) }
        ensures fails { OnErr result (self.new.failed ≡ true) }
        ensures opened { OnOk result (IsOpen file self.new.a self.new.b) }
    {
        let name = name_of(file);
        let done = match file {
            FileName::A => read_from(&self.rt, &mut self.a, name, at, buf),
            FileName::B => read_from(&self.rt, &mut self.b, name, at, buf),
        };
        counted(done, &mut self.disk_faults, &mut self.failed)
    }

    fn write_at(&mut self, file: FileName, at: u64, bytes: &[u8]) -> Result<(), Failed>
        requires intact { self.old.failed ≡ false }
        ensures later { self.old.disk_faults ≤ self.new.disk_faults }
        ensures others { (self.new.source_faults ≡ self.old.source_faults)
            × (self.new.sink_faults ≡ self.old.sink_faults) }
        ensures disk_fault { OnErr result (Rose self.old.disk_faults self.new.disk_faults) }
        ensures intact { OnOk result (self.new.failed ≡ false) }
        ensures fails { OnErr result (self.new.failed ≡ true) }
        ensures opened { OnOk result (IsOpen file self.new.a self.new.b) }
    {
        let name = name_of(file);
        let done = match file {
            FileName::A => write_to(&self.rt, &mut self.a, name, at, bytes),
            FileName::B => write_to(&self.rt, &mut self.b, name, at, bytes),
        };
        counted(done, &mut self.disk_faults, &mut self.failed)
    }

    fn sync(&mut self, file: FileName) -> Result<(), Failed>
        requires intact { self.old.failed ≡ false }
        ensures later { self.old.disk_faults ≤ self.new.disk_faults }
        ensures others { (self.new.source_faults ≡ self.old.source_faults)
            × (self.new.sink_faults ≡ self.old.sink_faults) }
        ensures disk_fault { OnErr result (Rose self.old.disk_faults self.new.disk_faults) }
        ensures intact { OnOk result (self.new.failed ≡ false) }
        ensures fails { OnErr result (self.new.failed ≡ true) }
        ensures opened { OnOk result (IsOpen file self.new.a self.new.b) }
    {
        let name = name_of(file);
        let done = match file {
            FileName::A => sync_of(&self.rt, &mut self.a, name),
            FileName::B => sync_of(&self.rt, &mut self.b, name),
        };
        counted(done, &mut self.disk_faults, &mut self.failed)
    }
}

// The same answer, whose failure is counted.
fn counted<T>(done: Result<T, Failed>, faults: &mut u64, failed: &mut bool) -> Result<T, Failed>
    ensures same { result ≡ done }
    ensures later { faults.old ≤ faults.new }
    ensures rose { OnErr result (Rose faults.old faults.new) }
    ensures intact { OnOk result (failed.new ≡ failed.old) }
    ensures fails { OnErr result (failed.new ≡ true) }
{
    if done.is_err() {
        *faults = risen(*faults);
        *failed = true;
    }
    done
}

// A count with one fault more. At the end of its type it stays.
fn risen(count: u64) -> u64
    ensures rose { Rose count result }
    ensures later { count ≤ result }
{
    count.saturating_add(1)
}
