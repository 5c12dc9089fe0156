//! Switches and readings over worlds in memory. The sizes and places are those of docs/formats/FILES.md; what is
//! told of each file was worked out by hand.
ghost use Rattle.std.specs.Prelude.{◌≡◌, false};
ghost use Rattle.outside_world.specs.Memory.{has_failed};

use crate::paper::{LEAVES, TWO_ORIGINALS, world_on};
use outside_world::{FileName, Leave, MemoryWorld};
use realm_pages::{Damage, PagesError, newest, prepare_pages, switch_to};
use std::alloc::Global;
use std::test::Fail;

// The payload of no state.
const NO_STATE: [u8; 225] = [7; 225];

// Puts generation 1 or 2 with this payload on file A or B.
fn switched(
    alloc: Global,
    world: &mut MemoryWorld,
    file: FileName,
    second: bool,
    payload: &[u8],
) -> Result<u64, Fail>
    requires intact { has_failed world.old ≡ false }
{
    let generation = if second { 2 } else { 1 };
    let p = prepare_pages(alloc, generation, payload)?;
    Ok(switch_to(world, file, &p)?)
}

// The bytes of both files.
fn files_of(world: &MemoryWorld) -> Result<(Vec<u8>, Vec<u8>), Fail> {
    Ok(world.images(world.calls(), Leave::New)?)
}

// A file with generation 1 or 2 and this payload, and the place of its first record's gate.
fn file_with(alloc: Global, second: bool, payload: &[u8]) -> Result<(Vec<u8>, u64), Fail> {
    let mut world = world_on(alloc, b"?", &[], &[])?;
    let gate = switched(alloc, &mut world, FileName::A, second, payload)?;
    let (a, _) = files_of(&world)?;
    Ok((a, gate))
}

// File A of generation 1 with no byte of payload, and file B of generation 2 with the state of two changes.
fn two_files(alloc: Global) -> Result<(Vec<u8>, Vec<u8>), Fail> {
    let (a, _) = file_with(alloc, false, &[])?;
    let (b, _) = file_with(alloc, true, &TWO_ORIGINALS)?;
    Ok((a, b))
}

// What is told of two files: a word, and two numbers that show it. Of a state the second is that of its changes.
fn told(alloc: Global, world: &mut MemoryWorld) -> (&'static str, u64, u64)
    requires intact { has_failed world.old ≡ false }
{
    match newest(alloc, world) {
        Ok(None) => ("none", 0, 0),
        Ok(Some(found)) => (letter(found.file), found.generation, found.snapshot.changes),
        Err(PagesError::Disk) => ("disk", 0, 0),
        Err(PagesError::NoMemory) => ("memory", 0, 0),
        Err(PagesError::Damaged(damage)) => told_of(&damage),
    }
}

fn told_of(damage: &Damage) -> (&'static str, u64, u64) {
    match *damage {
        Damage::Digest { page, .. } => ("digest", page, 0),
        Damage::BadPage {
            file: FileName::A,
            page,
        } => ("page A", page, 0),
        Damage::BadPage {
            file: FileName::B,
            page,
        } => ("page B", page, 0),
        Damage::BadSnapshot { file: FileName::A } => ("snapshot A", 0, 0),
        Damage::BadSnapshot { file: FileName::B } => ("snapshot B", 0, 0),
        Damage::BadRecord { number, .. } => ("record", number, 0),
        Damage::Twins { generation } => ("twins", generation, 0),
    }
}

fn letter(file: FileName) -> &'static str {
    match file {
        FileName::A => "A",
        FileName::B => "B",
    }
}

// The length of a file that holds a payload of so many bytes, and the place of its first record's gate.
fn sizes_of(alloc: Global, size: usize) -> Result<(usize, u64), Fail> {
    let mut payload = Vec::new(alloc);
    payload.resize(size, 7)?;
    let (file, gate) = file_with(alloc, false, &payload)?;
    Ok((file.len(), gate))
}

#[test]
fn a_file_has_a_page_for_each_part(rt: HostRuntime) -> Result<(), Fail> {
    let table = [
        (0, (4_097, 4_096)),
        (1, (8_193, 8_192)),
        (225, (8_193, 8_192)),
        (4_054, (8_193, 8_192)),
        (4_055, (12_289, 12_288)),
    ];
    for (size, wanted) in table {
        let sizes = sizes_of(rt.alloc(), size)?;
        assert_eq!(rt; sizes, wanted, "{size} bytes");
    }
    Ok(())
}

// Cuts a file off at a place, and sets this byte of it, where it has one.
fn change(bytes: &mut Vec<u8>, cut: usize, at: usize, byte: u8) {
    bytes.truncate(cut);
    if at < bytes.len() {
        bytes[at] = byte;
    }
}

// What is told of the two files once one of them is changed.
fn told_after(
    alloc: Global,
    file: FileName,
    cut: usize,
    at: usize,
    byte: u8,
) -> Result<(&'static str, u64, u64), Fail> {
    let (mut a, mut b) = two_files(alloc)?;
    match file {
        FileName::A => change(&mut a, cut, at, byte),
        FileName::B => change(&mut b, cut, at, byte),
    }
    let mut world = world_on(alloc, &a, &b, &[])?;
    Ok(told(alloc, &mut world))
}

#[test]
fn the_fault_that_decides_is_told(rt: HostRuntime) -> Result<(), Fail> {
    let table = [
        // nothing is changed, and then what stands where no byte is read
        (FileName::A, 9_000, 9_000, 0, ("B", 2, 2)),
        (FileName::A, 9_000, 4_096, 165, ("B", 2, 2)),
        (FileName::B, 9_000, 8_192, 165, ("B", 2, 2)),
        (FileName::B, 8_192, 9_000, 0, ("B", 2, 2)),
        // files that don't count
        (FileName::B, 9_000, 0, 0, ("A", 1, 0)),
        (FileName::B, 1, 9_000, 0, ("A", 1, 0)),
        (FileName::A, 1, 9_000, 0, ("B", 2, 2)),
        // heads
        (FileName::A, 2, 9_000, 0, ("page A", 0, 0)),
        (FileName::A, 9_000, 1, 0, ("page A", 0, 0)),
        (FileName::B, 4_095, 9_000, 0, ("page B", 0, 0)),
        // their versions
        (FileName::B, 9_000, 9, 0, ("page B", 0, 0)),
        (FileName::B, 9_000, 9, 1, ("B", 2, 2)),
        (FileName::B, 9_000, 9, 3, ("page B", 0, 0)),
        (FileName::B, 9_000, 8, 1, ("page B", 0, 0)),
        // generation 1 in both files
        (FileName::B, 9_000, 17, 1, ("twins", 1, 0)),
        // pages
        (FileName::B, 4_096, 9_000, 0, ("page B", 1, 0)),
        (FileName::B, 8_191, 9_000, 0, ("page B", 1, 0)),
        (FileName::B, 9_000, 4_106, 8, ("digest", 1, 0)),
        (FileName::B, 9_000, 8_191, 0, ("digest", 1, 0)),
    ];
    for (file, cut, at, byte, wanted) in table {
        let found = told_after(rt.alloc(), file, cut, at, byte)?;
        assert_eq!(rt;
            found,
            wanted,
            "{file:?} cut at {cut}, and byte {at} set to {byte}"
        );
    }
    Ok(())
}

// The version of the newest of two files; none where none is found.
fn version_told(alloc: Global, a: &[u8], b: &[u8]) -> Result<Option<u64>, Fail> {
    let mut world = world_on(alloc, a, b, &[])?;
    match newest(alloc, &mut world) {
        Ok(Some(found)) => Ok(Some(found.version)),
        _ => Ok(None),
    }
}

#[test]
fn version_2_is_written_and_version_1_is_read_too(rt: HostRuntime) -> Result<(), Fail> {
    let (a, mut b) = two_files(rt.alloc())?;
    assert_eq!(rt; b.get(9), Some(&2));
    assert_eq!(rt; version_told(rt.alloc(), &a, &b)?, Some(2));
    change(&mut b, 9_000, 9, 1);
    assert_eq!(rt; version_told(rt.alloc(), &a, &b)?, Some(1));
    Ok(())
}

// What is told of two files with these payloads, of which B is cut off at a place.
fn told_of_payloads(
    alloc: Global,
    a: &[u8],
    b: &[u8],
    cut: usize,
) -> Result<(&'static str, u64, u64), Fail> {
    let (a, _) = file_with(alloc, false, a)?;
    let (mut b, _) = file_with(alloc, true, b)?;
    b.truncate(cut);
    let mut world = world_on(alloc, &a, &b, &[])?;
    Ok(told(alloc, &mut world))
}

// Pages come first, and the payload of the older file isn't looked at.
#[test]
fn a_payload_of_no_state_is_told(rt: HostRuntime) -> Result<(), Fail> {
    let table: [(&[u8], &[u8], usize, (&str, u64, u64)); 5] = [
        (&[], &NO_STATE, 9_000, ("snapshot B", 0, 0)),
        (&NO_STATE, &NO_STATE, 1, ("snapshot A", 0, 0)),
        (&NO_STATE, &NO_STATE, 8_191, ("page B", 1, 0)),
        (&NO_STATE, &TWO_ORIGINALS, 9_000, ("B", 2, 2)),
        (&NO_STATE, &[], 9_000, ("B", 2, 0)),
    ];
    for (a, b, cut, wanted) in table {
        let found = told_of_payloads(rt.alloc(), a, b, cut)?;
        assert_eq!(rt; found, wanted, "B cut at {cut}");
    }
    Ok(())
}

// What is told after so many calls of a switch of file B, where the crash leaves that.
fn told_during(alloc: Global, moment: u64, leave: Leave) -> Result<(&'static str, u64, u64), Fail> {
    let (a, _) = two_files(alloc)?;
    let mut world = world_on(alloc, &a, b"\xa5old", &[])?;
    switched(alloc, &mut world, FileName::B, true, &TWO_ORIGINALS)?;
    if moment > world.calls() {
        return Err(Fail::new("no such moment"));
    }
    let (a, b) = world.images(moment, leave)?;
    let mut crashed = world_on(alloc, &a, &b, &[])?;
    Ok(told(alloc, &mut crashed))
}

// File B counts before, and has no head.
#[test]
fn a_switch_is_whole_or_absent_at_each_moment(rt: HostRuntime) -> Result<(), Fail> {
    let bad = ("page B", 0, 0);
    let first = ("A", 1, 0);
    let second = ("B", 2, 2);
    let table = [
        (1, [bad, bad, bad, bad]),
        // gate 0 is written closed, and then synced
        (2, [bad, first, first, bad]),
        (3, [first; 4]),
        // all that stands behind it is written, and then synced
        (4, [first; 4]),
        (5, [first; 4]),
        // gate 0 is written open, and then synced
        (6, [first, second, first, second]),
        (7, [second; 4]),
    ];
    for (moment, wanted) in table {
        for (leave, wanted) in LEAVES.iter().zip(wanted.iter()) {
            let found = told_during(rt.alloc(), moment, *leave)?;
            assert_eq!(rt; found, *wanted, "at moment {moment}, {leave:?}");
        }
    }
    Ok(())
}

// What is told where this call fails, and how many calls there were.
fn told_with_fault(alloc: Global, call: u64) -> Result<((&'static str, u64, u64), u64), Fail> {
    let (a, b) = two_files(alloc)?;
    let mut world = world_on(alloc, &a, &b, &[call])?;
    let found = told(alloc, &mut world);
    Ok((found, world.calls()))
}

#[test]
fn three_calls_find_the_newest(rt: HostRuntime) -> Result<(), Fail> {
    let table = [
        (1, (("disk", 0, 0), 1)),
        (2, (("disk", 0, 0), 2)),
        (3, (("disk", 0, 0), 3)),
        (4, (("B", 2, 2), 3)),
    ];
    for (call, wanted) in table {
        let found = told_with_fault(rt.alloc(), call)?;
        assert_eq!(rt; found, wanted, "where call {call} fails");
    }
    Ok(())
}
