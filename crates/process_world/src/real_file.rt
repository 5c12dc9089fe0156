//! A file of the real world. It is opened and locked at its first use, and stays so.
ghost use Rattle.std.specs.Prelude.{◌≡◌, ◌≤◌, length, IfOk, IsSome, OnOk, OnErr};

use crate::locking::{HeldFile, TryLock};
use outside_world::Failed;
use std::fs::{OpenFile, OpenOptions};
use std::os::unix::fs::FileExt;
use std::rt::Files;

/// The length of the file of this name, once it is opened.
pub(crate) fn size_of<R: Files>(
    rt: &R,
    slot: &mut Option<HeldFile<<R as Files>::File>>,
    name: &str,
) -> Result<u64, Failed>
where
    <R as Files>::File: TryLock,
    ensures opened { OnOk result (IsSome slot.new) }
{
    open(rt, slot, name)?;
    let held = slot.as_ref().ok_or(Failed)?;
    match held.file().metadata() {
        Ok(data) => Ok(data.len()),
        Err(_) => Err(Failed),
    }
}

/// Fills the buffer from a place on, as far as the file goes.
pub(crate) fn read_from<R: Files>(
    rt: &R,
    slot: &mut Option<HeldFile<<R as Files>::File>>,
    name: &str,
    at: u64,
    buf: &mut [u8],
) -> Result<usize, Failed>
where
    <R as Files>::File: FileExt + TryLock,
    ensures within { IfOk result (λ n. n ≤ length buf.old) }
    ensures opened { OnOk result (IsSome slot.new) }
{
    open(rt, slot, name)?;
    let held = slot.as_ref().ok_or(Failed)?;
    let mut filled = 0;
    while filled < buf.len() {
        let place = at.saturating_add(filled as u64);
        match held.file().read_at(&mut buf[filled..], place) {
            Ok(0) => return Ok(filled),
            Ok(n) => filled += n,
            Err(_) => return Err(Failed),
        }
    }
    Ok(filled)
}

/// Writes all the bytes from a place on.
pub(crate) fn write_to<R: Files>(
    rt: &R,
    slot: &mut Option<HeldFile<<R as Files>::File>>,
    name: &str,
    at: u64,
    bytes: &[u8],
) -> Result<(), Failed>
where
    <R as Files>::File: FileExt + TryLock,
    ensures opened { OnOk result (IsSome slot.new) }
{
    open(rt, slot, name)?;
    let held = slot.as_ref().ok_or(Failed)?;
    match held.file().write_all_at(bytes, at) {
        Ok(()) => Ok(()),
        Err(_) => Err(Failed),
    }
}

/// Waits until the system says that the file's bytes and its length are on the disk.
pub(crate) fn sync_of<R: Files>(
    rt: &R,
    slot: &mut Option<HeldFile<<R as Files>::File>>,
    name: &str,
) -> Result<(), Failed>
where
    <R as Files>::File: TryLock,
    ensures opened { OnOk result (IsSome slot.new) }
{
    open(rt, slot, name)?;
    let held = slot.as_ref().ok_or(Failed)?;
    match held.file().sync_data() {
        Ok(()) => Ok(()),
        Err(_) => Err(Failed),
    }
}

// Opens the file of this name in the current folder, where it isn't open yet. It is made where it is missing, and
// stays shut where another program holds it.
fn open<R: Files>(
    rt: &R,
    slot: &mut Option<HeldFile<<R as Files>::File>>,
    name: &str,
) -> Result<(), Failed>
where
    <R as Files>::File: TryLock,
    ensures opened { OnOk result (IsSome slot.new) }
    ensures shut { OnErr result (slot.new ≡ slot.old) }
{
    if slot.is_none() {
        *slot = Some(open_or_make(rt, name)?);
    }
    Ok(())
}

// The lock comes first, so that nothing is read or written of a file that another program holds. The folder is synced
// before anything is written, since a file that was made is lost with its name.
fn open_or_make<R: Files>(rt: &R, name: &str) -> Result<HeldFile<<R as Files>::File>, Failed>
where
    <R as Files>::File: TryLock,
{
    let made = OpenOptions::new()
        .read(true)
        .write(true)
        .create(true)
        .open(rt, name);
    match made {
        Ok(file) => {
            let held = HeldFile::hold(file)?;
            sync_folder(rt)?;
            Ok(held)
        }
        Err(_) => Err(Failed),
    }
}

fn sync_folder<R: Files>(rt: &R) -> Result<(), Failed> {
    match OpenOptions::new().read(true).open(rt, ".") {
        Ok(folder) => match folder.sync_all() {
            Ok(()) => Ok(()),
            Err(_) => Err(Failed),
        },
        Err(_) => Err(Failed),
    }
}
