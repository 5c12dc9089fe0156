//! Appends, scans and gates over worlds in memory. The record is the example of docs/formats/RECORDS.md; what
//! each crash leaves was written down by hand.
ghost use Rattle.std.specs.Prelude.{◌≡◌, false, OnOk};

use crate::paper::{LEAVES, POINT, world_on};
use outside_world::{FileName, Leave, MemoryWorld, Outside};
use realm_journal::{
    Block, JournalError, Prepared, Records, append, append_block, begin_block, prepare, read_from,
    scan, shut_gate,
};
use record_codec::decode;
use std::alloc::Global;
use std::test::Fail;

// The record behind each of these gates, but for so many bytes at the end.
fn records_behind(alloc: Global, gates: &[u8], cut: usize) -> Result<Vec<u8>, Fail> {
    let mut bytes = Vec::new(alloc);
    for gate in gates {
        bytes.push(*gate)?;
        bytes.extend_from_slice(&POINT)?;
    }
    let length = bytes.len().saturating_sub(cut);
    bytes.truncate(length);
    Ok(bytes)
}

fn prepared(alloc: Global) -> Result<Prepared, Fail> {
    match decode(alloc, &POINT)? {
        Some((record, _)) => Ok(prepare(alloc, &record)?),
        None => Err(Fail::new("no record")),
    }
}

// Three calls that shut the first gate, and four that append behind it.
fn shut_and_append<W: Outside>(world: &mut W, p: &Prepared) -> Result<u64, JournalError>
    requires intact { W.failed world.old ≡ false }
{
    shut_gate(world, FileName::A, 0)?;
    append(world, FileName::A, 0, p)
}

fn shut_and_append_block<W: Outside>(world: &mut W, block: &Block) -> Result<u64, JournalError>
    requires intact { W.failed world.old ≡ false }
    ensures intact { OnOk result (W.failed world.new ≡ false) }
{
    shut_gate(world, FileName::A, 0)?;
    append_block(world, FileName::A, 0, block)
}

// How many records a scan finds in a file with these bytes, from a place on, where it ends, and whether at an
// open gate.
fn found_from(alloc: Global, bytes: &[u8], at: u64) -> Result<(usize, u64, bool), Fail> {
    let mut world = world_on(alloc, bytes, &[], &[])?;
    let found = scan(alloc, &mut world, FileName::A, at)?;
    Ok((found.list.items().len(), found.end, found.bad))
}

fn found_in(alloc: Global, bytes: &[u8]) -> Result<(usize, u64, bool), Fail> {
    found_from(alloc, bytes, 0)
}

// What is found after so many calls, where the crash leaves that.
fn found_after(
    alloc: Global,
    world: &MemoryWorld,
    moment: u64,
    leave: Leave,
) -> Result<(usize, u64, bool), Fail> {
    if moment > world.calls() {
        return Err(Fail::new("no such moment"));
    }
    let (a, _) = world.images(moment, leave)?;
    found_in(alloc, &a)
}

const NONE: (usize, u64, bool) = (0, 0, false);

const ONE: (usize, u64, bool) = (1, 38, false);

#[test]
fn a_record_is_whole_or_absent_at_each_moment(rt: HostRuntime) -> Result<(), Fail> {
    let table = [
        (3, [NONE; 4]),
        // the record is written behind its gate, and then synced
        (4, [NONE; 4]),
        (5, [NONE; 4]),
        // its gate is written, and then synced
        (6, [NONE, ONE, NONE, ONE]),
        (7, [ONE; 4]),
    ];
    let alloc = rt.alloc();
    let mut world = world_on(alloc, &[], &[], &[])?;
    let p = prepared(alloc)?;
    assert_eq!(rt; shut_and_append(&mut world, &p), Ok(38));
    for (moment, wanted) in table {
        for (leave, wanted) in LEAVES.iter().zip(wanted.iter()) {
            let found = found_after(alloc, &world, moment, *leave)?;
            assert_eq!(rt; found, *wanted, "at moment {moment}, {leave:?}");
        }
    }
    Ok(())
}

#[test]
fn a_fault_ends_an_append(rt: HostRuntime) -> Result<(), Fail> {
    let table = [
        (4, [NONE; 4]),
        (5, [NONE; 4]),
        (6, [NONE, NONE, NONE, ONE]),
        (7, [NONE, ONE, NONE, ONE]),
    ];
    let alloc = rt.alloc();
    for (call, wanted) in table {
        let mut world = world_on(alloc, &[], &[], &[call])?;
        let p = prepared(alloc)?;
        assert_eq!(rt; shut_and_append(&mut world, &p), Err(JournalError::Disk));
        for (leave, wanted) in LEAVES.iter().zip(wanted.iter()) {
            let found = found_after(alloc, &world, call, *leave)?;
            assert_eq!(rt; found, *wanted, "at call {call}, {leave:?}");
        }
    }
    Ok(())
}

#[test]
fn a_text_stands_between_its_gates(rt: HostRuntime) -> Result<(), Fail> {
    let alloc = rt.alloc();
    let mut world = world_on(alloc, b"?", &[], &[])?;
    let mut begun = begin_block(alloc, 4)?;
    begun.extend_from_slice(b"text")?;
    let block = Block::close(begun)?;
    assert_eq!(rt; shut_and_append_block(&mut world, &block)?, 5);
    let file = read_from(alloc, &mut world, FileName::A, 0)?;
    assert_eq!(rt; file.as_slice(), b"\xa5text\0".as_slice());
    for (at, wanted) in [(5, b"\0".as_slice()), (6, b""), (7, b"")] {
        assert!(rt; !world.has_failed());
        let rest = read_from(alloc, &mut world, FileName::A, at)?;
        assert_eq!(rt; rest.as_slice(), wanted, "from {at} on");
    }
    Ok(())
}

// The gates of a file, each with the record behind it, and how many bytes of that are cut off at the end.
#[test]
fn a_scan_ends_at_the_first_gate_with_no_record(rt: HostRuntime) -> Result<(), Fail> {
    let table: [(&[u8], usize, (usize, u64, bool)); 7] = [
        (b"", 0, NONE),
        (b"\0", 0, NONE),
        (b"\xa5", 0, ONE),
        (b"\xa5\0\xa5", 0, ONE),
        (b"\xa5\xa5\0", 37, (2, 76, false)),
        (b"\xa5\xa5", 1, (1, 38, true)),
        (b"\xa5", 37, (0, 0, true)),
    ];
    let alloc = rt.alloc();
    for (gates, cut, wanted) in table {
        let file = records_behind(alloc, gates, cut)?;
        assert_eq!(rt; found_in(alloc, &file)?, wanted, "{gates:?} but {cut}");
    }
    Ok(())
}

// The gates of bytes, each with the record behind it, how many bytes of that are cut off at the end, and how many records
// are handed out.
#[test]
fn records_are_handed_out_one_after_another(rt: HostRuntime) -> Result<(), Fail> {
    let table: [(&[u8], usize, usize); 4] = [
        (b"", 0, 0),
        (b"\xa5", 0, 1),
        (b"\xa5\xa5\0", 37, 2),
        (b"\xa5\xa5", 1, 1),
    ];
    let alloc = rt.alloc();
    for (gates, cut, wanted) in table {
        let bytes = records_behind(alloc, gates, cut)?;
        let mut records = Records::new(bytes);
        let first = records.next_record(alloc)?.is_some();
        assert_eq!(rt; first, wanted > 0, "{gates:?} but {cut}");
        let rest = records.into_list(alloc)?;
        assert_eq!(rt; rest.len(), wanted.saturating_sub(1), "{gates:?} but {cut}");
    }
    Ok(())
}

// A file of one byte more than a record, and where nothing stands behind the place, nothing is found.
#[test]
fn no_record_stands_behind_the_end(rt: HostRuntime) -> Result<(), Fail> {
    let file = records_behind(rt.alloc(), b"\xa5\0", 37)?;
    for at in [38, 39, 40, 9_223_372_036_854_775_808, u64::MAX] {
        let found = found_from(rt.alloc(), &file, at)?;
        assert_eq!(rt; found, (0, at, false), "from {at} on");
    }
    Ok(())
}

// What a file holds, and again with its first gate shut, and how many calls that took: a read, a sync, and a
// write where the gate is missing or open.
#[test]
fn a_gate_that_reads_as_closed_is_not_written(rt: HostRuntime) -> Result<(), Fail> {
    let table: [(&[u8], &[u8], u64); 5] = [
        (b"", b"\0", 3),
        (b"\xa5", b"\0", 3),
        (b"\xa5old", b"\0old", 3),
        (b"\0", b"\0", 2),
        (b"?\xa5", b"?\xa5", 2),
    ];
    let alloc = rt.alloc();
    for (before, after, calls) in table {
        let mut world = world_on(alloc, before, &[], &[])?;
        shut_gate(&mut world, FileName::A, 0)?;
        assert_eq!(rt; world.calls(), calls, "{before:?}");
        let file = read_from(alloc, &mut world, FileName::A, 0)?;
        assert_eq!(rt; file.as_slice(), after, "{before:?}");
    }
    Ok(())
}
