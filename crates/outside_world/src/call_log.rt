//! The log of a world in memory: each call, the bytes that it moved, and what the files read as by now. What
//! a crash may leave of the files is read off it.
ghost use Rattle.std.specs.Prelude.{◌≡◌, ◌≤◌, ◌<◌, ◌+◌, ◌^◌, ◌↔◌, length, min, IfOk, OnOk, OnErr, IsOk};
ghost use Rattle.std.specs.Prelude.{IsTrue};
ghost use Rattle.outside_world.specs.Events.{Taken, Given, Written, Tried, Flushed, Looked, given_by};
ghost use Rattle.outside_world.specs.Events.{size_written_by};
ghost use Rattle.outside_world.specs.Log.{empty_log, with_event, first_of, log_view, now_of, left_by};
ghost use Rattle.outside_world.specs.Log.{file_then};
ghost use Rattle.outside_world.specs.Log.{with_room, file_room, FitsCall, FitsGive, FitsWrite};

use crate::filling::overwrite;
use crate::leave::Leave;
use crate::replaying::replay;
use crate::world::FileName;
use grid_base::NoMemory;
use std::alloc::Global;
use std::marker::Model;

/// A call, with how many bytes it moved and where.
#[derive(Clone, Copy)]
pub(crate) enum Call {
    Take(usize),
    Give(usize),
    Write(FileName, u64, usize),
    Try(FileName, u64, usize),
    Sync(FileName),
    Look,
}

/// For how many calls, bytes of output, bytes of each file and written bytes memory is reserved.
#[derive(Clone, Copy)]
pub(crate) struct Room {
    pub(crate) calls: usize,
    pub(crate) output: usize,
    pub(crate) a: usize,
    pub(crate) b: usize,
    pub(crate) written: usize,
}

/// What a world in memory began with, and all calls on it. A call that can't be noted for want of memory
/// leaves all as it was.
#[derive(Drop)]
pub(crate) struct CallLog {
    alloc: Global,
    input: Vec<u8>,
    taken: usize,
    output: Vec<u8>,
    first_a: Vec<u8>,
    first_b: Vec<u8>,
    a: Vec<u8>,
    b: Vec<u8>,
    written: Vec<u8>,
    calls: Vec<Call>,
    room: Room,
}

impl Model for CallLog {
    ghost use Rattle.outside_world.specs.Log.{Log};
    ghost use Rattle.outside_world.specs.LogFields.{log_of, Agrees};

    ghost Value = { Log };

    ghost view = { log_of };

    ghost invariant = { Agrees };
}

impl CallLog {
    /// The log of no call, of this input and these two files.
    pub(crate) fn new(
        alloc: Global,
        input: Vec<u8>,
        a: Vec<u8>,
        b: Vec<u8>,
    ) -> Result<CallLog, NoMemory>
        ensures empty { IfOk result (λ log. log ≡ empty_log input.items a.items b.items) }
    {
        let now_a = a.to_vec(alloc)?;
        let now_b = b.to_vec(alloc)?;
        Ok(CallLog {
            alloc,
            input,
            taken: 0,
            output: Vec::new(alloc),
            first_a: a,
            first_b: b,
            a: now_a,
            b: now_b,
            written: Vec::new(alloc),
            calls: Vec::new(alloc),
            room: Room {
                calls: 0,
                output: 0,
                a: 0,
                b: 0,
                written: 0,
            },
        })
    }

    /// Makes this room.
    pub(crate) fn reserve(&mut self, room: Room) -> Result<(), NoMemory>
        ensures ok { OnOk result (self.new ≡ with_room self.old room) }
        ensures err { OnErr result (self.new ≡ self.old) }
    {
        self.calls.reserve(room.calls)?;
        self.output.reserve(room.output)?;
        self.a.reserve(room.a)?;
        self.b.reserve(room.b)?;
        self.written.reserve(room.written)?;
        self.room = room;
        Ok(())
    }

    /// Whether a call more fits.
    pub(crate) fn fits_call(&self) -> bool
        ensures { IsTrue result ↔ FitsCall self.now }
    {
        self.calls.len() < self.room.calls
    }

    /// Whether so many bytes of output fit.
    pub(crate) fn fits_output(&self, size: usize) -> bool
        ensures { IsTrue result ↔ (length (given_by self.now.calls) + size ≤ self.now.room.output) }
    {
        self.output.len() as u128 + size as u128 <= self.room.output as u128
    }

    /// Whether so many written bytes fit.
    pub(crate) fn fits_written(&self, size: usize) -> bool
        ensures { IsTrue result ↔ (size_written_by self.now.calls + size ≤ self.now.room.written) }
    {
        self.written.len() as u128 + size as u128 <= self.room.written as u128
    }

    /// Whether a file with so many bytes fits.
    pub(crate) fn fits_file(&self, file: FileName, size: u64) -> bool
        ensures { IsTrue result ↔ (size ≤ file_room self.now file) }
    {
        match file {
            FileName::A => size <= self.room.a as u64,
            FileName::B => size <= self.room.b as u64,
        }
    }

    /// How many calls there were.
    pub(crate) fn count(&self) -> usize
        ensures count { result ≡ length self.now.calls }
        ensures fits { result < 2 ^ 63 }
    {
        self.calls.len()
    }

    /// The input that is left.
    pub(crate) fn left(&self) -> &[u8]
        ensures left { result.now ≡ (log_view self.now).left }
    {
        &self.input[self.taken..]
    }

    /// The output.
    pub(crate) fn given(&self) -> &[u8]
        ensures given { result.now ≡ (log_view self.now).given }
    {
        &self.output
    }

    /// What a file reads as.
    pub(crate) fn file(&self, file: FileName) -> &[u8]
        ensures reads { result.now ≡ now_of self.now file }
    {
        match file {
            FileName::A => &self.a,
            FileName::B => &self.b,
        }
    }

    /// What is asked of a file after the first calls.
    pub(crate) fn image(
        &self,
        file: FileName,
        moment: usize,
        leave: Leave,
    ) -> Result<Vec<u8>, NoMemory>
        requires past { moment ≤ length self.now.calls }
        ensures left { IfOk result (λ left. left.items ≡ left_by leave (file_then self.now moment file)) }
    {
        replay(
            self.alloc,
            file,
            self.first(file),
            &self.calls[..moment],
            &self.written,
            leave,
        )
    }

    /// What a file held at the beginning.
    pub(crate) fn first(&self, file: FileName) -> &[u8]
        ensures first { result.now ≡ first_of self.now file }
    {
        match file {
            FileName::A => &self.first_a,
            FileName::B => &self.first_b,
        }
    }

    /// Notes a take of so many bytes.
    pub(crate) fn note_take(&mut self, size: usize) -> Result<(), NoMemory>
        requires within { size ≤ length (log_view self.old).left }
        ensures ok { OnOk result (self.new ≡ with_event self.old (Taken size)) }
        ensures err { OnErr result (self.new ≡ self.old) }
        ensures fits { FitsCall self.old → IsOk result }
    {
        self.calls.push(Call::Take(size))?;
        self.taken += size;
        Ok(())
    }

    /// Appends these bytes to the output, and notes that.
    pub(crate) fn note_give(&mut self, bytes: &[u8]) -> Result<(), NoMemory>
        ensures ok { OnOk result (self.new ≡ with_event self.old (Given bytes.now)) }
        ensures err { OnErr result (self.new ≡ self.old) }
        ensures fits { FitsGive self.old (length bytes.now) → IsOk result }
    {
        self.calls.reserve(1)?;
        self.output.extend_from_slice(bytes)?;
        self.calls.push(Call::Give(bytes.len())).unwrap();
        Ok(())
    }

    /// Puts these bytes into a file, and notes that.
    pub(crate) fn note_write(
        &mut self,
        file: FileName,
        at: u64,
        bytes: &[u8],
    ) -> Result<(), NoMemory>
        ensures ok { OnOk result (self.new ≡ with_event self.old (Written file at bytes.now)) }
        ensures err { OnErr result (self.new ≡ self.old) }
        ensures fits { FitsWrite self.old file at (length bytes.now) → IsOk result }
    {
        match file {
            FileName::A => self.write_a(at, bytes),
            FileName::B => self.write_b(at, bytes),
        }
    }

    fn write_a(&mut self, at: u64, bytes: &[u8]) -> Result<(), NoMemory>
        ensures ok { OnOk result (self.new ≡ with_event self.old (Written FileName.A at bytes.now)) }
        ensures err { OnErr result (self.new ≡ self.old) }
        ensures fits { FitsWrite self.old FileName.A at (length bytes.now) → IsOk result }
    {
        self.calls.reserve(1)?;
        self.written.reserve(bytes.len())?;
        let begin = begin_within(at, &self.a);
        overwrite(&mut self.a, begin, bytes)?;
        self.written.extend_from_slice(bytes).unwrap();
        self.calls
            .push(Call::Write(FileName::A, at, bytes.len()))
            .unwrap();
        Ok(())
    }

    fn write_b(&mut self, at: u64, bytes: &[u8]) -> Result<(), NoMemory>
        ensures ok { OnOk result (self.new ≡ with_event self.old (Written FileName.B at bytes.now)) }
        ensures err { OnErr result (self.new ≡ self.old) }
        ensures fits { FitsWrite self.old FileName.B at (length bytes.now) → IsOk result }
    {
        self.calls.reserve(1)?;
        self.written.reserve(bytes.len())?;
        let begin = begin_within(at, &self.b);
        overwrite(&mut self.b, begin, bytes)?;
        self.written.extend_from_slice(bytes).unwrap();
        self.calls
            .push(Call::Write(FileName::B, at, bytes.len()))
            .unwrap();
        Ok(())
    }

    /// Notes a write of so many bytes that failed.
    pub(crate) fn note_try(&mut self, file: FileName, at: u64, size: usize) -> Result<(), NoMemory>
        ensures ok { OnOk result (self.new ≡ with_event self.old (Tried file at size)) }
        ensures err { OnErr result (self.new ≡ self.old) }
        ensures fits { FitsCall self.old → IsOk result }
    {
        self.calls.push(Call::Try(file, at, size))?;
        Ok(())
    }

    /// Notes a sync.
    pub(crate) fn note_sync(&mut self, file: FileName) -> Result<(), NoMemory>
        ensures ok { OnOk result (self.new ≡ with_event self.old (Flushed file)) }
        ensures err { OnErr result (self.new ≡ self.old) }
        ensures fits { FitsCall self.old → IsOk result }
    {
        self.calls.push(Call::Sync(file))?;
        Ok(())
    }

    /// Notes a call of which nothing came.
    pub(crate) fn note_look(&mut self) -> Result<(), NoMemory>
        ensures ok { OnOk result (self.new ≡ with_event self.old Looked) }
        ensures err { OnErr result (self.new ≡ self.old) }
        ensures fits { FitsCall self.old → IsOk result }
    {
        self.calls.push(Call::Look)?;
        Ok(())
    }
}

/// Where a write begins: at its place, or at the file's end where that is before it.
pub(crate) fn begin_within(at: u64, file: &[u8]) -> usize
    ensures begin { result ≡ min at (length file.now) }
{
    at.min(file.len() as u64) as usize
}
