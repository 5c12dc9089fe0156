//! What a crash leaves of a file: the calls are made again, over what the file held at the beginning.
ghost use Rattle.std.specs.Prelude.{◌≡◌, ◌≤◌, ℕ, List, length, IfOk, OnOk};
ghost use Rattle.outside_world.specs.Calls.{overwritten};
ghost use Rattle.outside_world.specs.Files.{FileState, is_same_file, write, try_write, file_after};
ghost use Rattle.outside_world.specs.Files.{after_event};
ghost use Rattle.outside_world.specs.Log.{Covers, left_by};
ghost use Rattle.outside_world.specs.LogFields.{event_of, events_of, size_written, written_in};

use crate::call_log::{Call, begin_within};
use crate::filling::{behind, copies, overwrite};
use crate::leave::Leave;
use crate::world::FileName;
use grid_base::NoMemory;
use std::alloc::Global;

/// What is asked of a file after these calls, whose writes wrote these bytes in order.
pub(crate) fn replay(
    alloc: Global,
    file: FileName,
    first: &[u8],
    calls: &[Call],
    written: &[u8],
    leave: Leave,
) -> Result<Vec<u8>, NoMemory>
    requires fits { size_written calls.now ≤ length written.now }
    ensures left { IfOk result (λ left. (output : List ℕ)
        → left.items ≡ left_by leave (file_after file first.now (events_of output written.now calls.now))) }
{
    let mut now = first.to_vec(alloc)?;
    let mut left = first.to_vec(alloc)?;
    let mut rest = written;
    for call in calls {
        repeat(alloc, file, &mut now, &mut left, call, rest, leave)?;
        rest = behind(rest, size_in(call) as u64);
    }
    Ok(left)
}

// How many bytes a call wrote.
fn size_in(call: &Call) -> usize
    ensures { result ≡ written_in call.now }
{
    match call {
        Call::Write(_, _, size) => *size,
        _ => 0,
    }
}

// Whether these are the same file.
fn is_for(file: FileName, name: FileName) -> bool
    ensures { result ≡ is_same_file file name }
{
    match file {
        FileName::A => match name {
            FileName::A => true,
            FileName::B => false,
        },
        FileName::B => match name {
            FileName::A => false,
            FileName::B => true,
        },
    }
}

// Makes one call again, on what the file read as and on what a crash would have left. What it wrote comes
// next in these bytes.
fn repeat(
    alloc: Global,
    file: FileName,
    now: &mut Vec<u8>,
    left: &mut Vec<u8>,
    call: &Call,
    bytes: &[u8],
    leave: Leave,
) -> Result<(), NoMemory>
    requires fits { written_in call.now ≤ length bytes.now }
    ensures { OnOk result ((s : FileState) (output : List ℕ) → Covers s → now.old.items ≡ s.now
        → left.old.items ≡ left_by leave s
        → (now.new.items ≡ (after_event file s (event_of output bytes.now call.now)).now)
        × (left.new.items ≡ left_by leave (after_event file s (event_of output bytes.now call.now)))) }
{
    match *call {
        Call::Write(name, at, size) => {
            if is_for(file, name) {
                return repeat_write(alloc, now, left, at, &bytes[..size], leave);
            }
            Ok(())
        }
        Call::Try(name, at, size) => {
            if is_for(file, name) {
                return repeat_try(alloc, now, left, at, size, leave);
            }
            Ok(())
        }
        Call::Sync(name) => {
            if is_for(file, name) {
                *left = now.to_vec(alloc)?;
            }
            Ok(())
        }
        _ => Ok(()),
    }
}

fn repeat_write(
    alloc: Global,
    now: &mut Vec<u8>,
    left: &mut Vec<u8>,
    at: u64,
    bytes: &[u8],
    leave: Leave,
) -> Result<(), NoMemory>
    ensures now { OnOk result ((s : FileState) → now.old.items ≡ s.now
        → now.new.items ≡ (write at bytes.now s).now) }
    ensures left { OnOk result ((s : FileState) → Covers s → now.old.items ≡ s.now
        → left.old.items ≡ left_by leave s
        → left.new.items ≡ left_by leave (write at bytes.now s)) }
{
    let begin = begin_within(at, now);
    match leave {
        Leave::Old => {}
        Leave::New => put(left, begin, bytes)?,
        Leave::Fill(byte) => put(left, begin, &copies(alloc, byte, bytes.len())?)?,
    }
    overwrite(now, begin, bytes)
}

fn repeat_try(
    alloc: Global,
    now: &[u8],
    left: &mut Vec<u8>,
    at: u64,
    size: usize,
    leave: Leave,
) -> Result<(), NoMemory>
    ensures left { OnOk result ((s : FileState) → Covers s → now.now ≡ s.now
        → left.old.items ≡ left_by leave s
        → left.new.items ≡ left_by leave (try_write at size s)) }
{
    if let Leave::Fill(byte) = leave {
        let begin = begin_within(at, now);
        return put(left, begin, &copies(alloc, byte, size)?);
    }
    Ok(())
}

// Puts bytes over those of a file, from a place that is within it.
fn put(file: &mut Vec<u8>, begin: usize, bytes: &[u8]) -> Result<(), NoMemory>
    ensures { OnOk result (begin ≤ length file.old.items
        → file.new.items ≡ overwritten begin bytes.now file.old.items) }
{
    let begin = begin.min(file.len());
    overwrite(file, begin, bytes)
}
