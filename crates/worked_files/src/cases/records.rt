//! Records, heads and payloads whose bytes were made by an independent model of the formats.
ghost use Rattle.std.specs.Prelude.{◌≡◌, length, IfOk};

use crate::paper::{POINT, TWO_ORIGINALS};
use grid_base::{Point, Reply, Segment, Step};
use record_codec::{
    Entries, Entry, Header, KeptParts, LINE_LIMIT, ListOf, Trace, decode, decode_header,
    decode_snapshot, encode, encode_header, encode_snapshot, no_record_begins_another,
    no_two_states_have_one_payload,
};
use std::alloc::Global;
use std::test::Fail;

// Change 2, `segment 6 0 6 9`, with the step at a meet point.
const MEET: [u8; 84] = [
    0x00, 0x00, 0x00, 0x00, 0x00, 0x00, 0x00, 0x4c, 0x00, 0x00, 0x00, 0x00, 0x00, 0x00, 0x00, 0x02,
    0x00, 0x00, 0x00, 0x0f, 0x73, 0x65, 0x67, 0x6d, 0x65, 0x6e, 0x74, 0x20, 0x36, 0x20, 0x30, 0x20,
    0x36, 0x20, 0x39, 0x00, 0x00, 0x00, 0x00, 0x00, 0x00, 0x00, 0x01, 0x02, 0x00, 0x00, 0x00, 0x00,
    0x00, 0x00, 0x00, 0x00, 0x00, 0x00, 0x00, 0x0a, 0x00, 0x00, 0x00, 0x04, 0x00, 0x00, 0x00, 0x06,
    0x00, 0x00, 0x00, 0x00, 0x00, 0x00, 0x00, 0x06, 0x00, 0x00, 0x00, 0x09, 0x00, 0x00, 0x00, 0x06,
    0x00, 0x00, 0x00, 0x02,
];

// Change 2, `segment 0 1 1 0`, with the step at the centre of a cell.
const CORNER: [u8; 76] = [
    0x00, 0x00, 0x00, 0x00, 0x00, 0x00, 0x00, 0x44, 0x00, 0x00, 0x00, 0x00, 0x00, 0x00, 0x00, 0x02,
    0x00, 0x00, 0x00, 0x0f, 0x73, 0x65, 0x67, 0x6d, 0x65, 0x6e, 0x74, 0x20, 0x30, 0x20, 0x31, 0x20,
    0x31, 0x20, 0x30, 0x00, 0x00, 0x00, 0x00, 0x00, 0x00, 0x00, 0x01, 0x03, 0x00, 0x00, 0x00, 0x00,
    0x00, 0x00, 0x00, 0x00, 0x00, 0x00, 0x00, 0x01, 0x00, 0x00, 0x00, 0x01, 0x00, 0x00, 0x00, 0x00,
    0x00, 0x00, 0x00, 0x01, 0x00, 0x00, 0x00, 0x01, 0x00, 0x00, 0x00, 0x00,
];

// Change 3, `point 5 0`, with the step at a point inside a piece.
const SPLIT: [u8; 62] = [
    0x00, 0x00, 0x00, 0x00, 0x00, 0x00, 0x00, 0x36, 0x00, 0x00, 0x00, 0x00, 0x00, 0x00, 0x00, 0x03,
    0x00, 0x00, 0x00, 0x09, 0x70, 0x6f, 0x69, 0x6e, 0x74, 0x20, 0x35, 0x20, 0x30, 0x00, 0x00, 0x00,
    0x00, 0x00, 0x00, 0x00, 0x01, 0x01, 0x00, 0x00, 0x00, 0x05, 0x00, 0x00, 0x00, 0x00, 0x00, 0x00,
    0x00, 0x00, 0x00, 0x00, 0x00, 0x00, 0x00, 0x00, 0x00, 0x06, 0x00, 0x00, 0x00, 0x00,
];

// Changes 1 and 2, `segment 0 0 4 0` and `segment 0 0 0 4`, with no step: a group.
const GROUP: [u8; 86] = [
    0x00, 0x00, 0x00, 0x00, 0x00, 0x00, 0x00, 0x4e, 0x00, 0x00, 0x00, 0x00, 0x00, 0x00, 0x00, 0x00,
    0x00, 0x00, 0x00, 0x00, 0x00, 0x00, 0x00, 0x01, 0x00, 0x00, 0x00, 0x00, 0x00, 0x00, 0x00, 0x02,
    0x00, 0x00, 0x00, 0x0f, 0x73, 0x65, 0x67, 0x6d, 0x65, 0x6e, 0x74, 0x20, 0x30, 0x20, 0x30, 0x20,
    0x34, 0x20, 0x30, 0x00, 0x00, 0x00, 0x00, 0x00, 0x00, 0x00, 0x00, 0x00, 0x00, 0x00, 0x0f, 0x73,
    0x65, 0x67, 0x6d, 0x65, 0x6e, 0x74, 0x20, 0x30, 0x20, 0x30, 0x20, 0x30, 0x20, 0x34, 0x00, 0x00,
    0x00, 0x00, 0x00, 0x00, 0x00, 0x00,
];

// A state with one change, one point and its empty trace.
const ONE_POINT: [u8; 72] = [
    0x00, 0x00, 0x00, 0x00, 0x00, 0x00, 0x00, 0x01, 0x00, 0x00, 0x00, 0x00, 0x00, 0x00, 0x00, 0x01,
    0x00, 0x00, 0x00, 0x00, 0x00, 0x00, 0x00, 0x01, 0x00, 0x00, 0x00, 0x03, 0x00, 0x00, 0x00, 0x00,
    0x00, 0x00, 0x00, 0x00, 0x00, 0x00, 0x00, 0x00, 0x00, 0x00, 0x00, 0x00, 0x00, 0x00, 0x00, 0x00,
    0x00, 0x00, 0x00, 0x00, 0x00, 0x00, 0x00, 0x01, 0x00, 0x00, 0x00, 0x00, 0x00, 0x00, 0x00, 0x01,
    0x00, 0x00, 0x00, 0x00, 0x00, 0x00, 0x00, 0x00,
];

// A state with a lines value, a points value and a regions value.
const THREE_VALUES: [u8; 127] = [
    0x00, 0x00, 0x00, 0x00, 0x00, 0x00, 0x00, 0x04, 0x00, 0x00, 0x00, 0x00, 0x00, 0x00, 0x00, 0x09,
    0x00, 0x00, 0x00, 0x00, 0x00, 0x00, 0x00, 0x01, 0x00, 0x00, 0x00, 0x05, 0x00, 0x00, 0x00, 0x07,
    0x00, 0x00, 0x00, 0x00, 0x00, 0x00, 0x00, 0x00, 0x00, 0x00, 0x00, 0x00, 0x00, 0x00, 0x00, 0x03,
    0x04, 0x72, 0x6f, 0x61, 0x64, 0x02, 0x00, 0x00, 0x00, 0x00, 0x00, 0x00, 0x00, 0x02, 0x00, 0x00,
    0x00, 0x01, 0x00, 0x00, 0x00, 0x02, 0x04, 0x77, 0x65, 0x6c, 0x6c, 0x01, 0x00, 0x00, 0x00, 0x00,
    0x00, 0x00, 0x00, 0x01, 0x00, 0x00, 0x00, 0x05, 0x00, 0x00, 0x00, 0x07, 0x05, 0x66, 0x69, 0x65,
    0x6c, 0x64, 0x03, 0x00, 0x00, 0x00, 0x00, 0x00, 0x00, 0x00, 0x03, 0x00, 0x00, 0x00, 0x03, 0x00,
    0x00, 0x00, 0x04, 0x00, 0x00, 0x00, 0x05, 0x00, 0x00, 0x00, 0x00, 0x00, 0x00, 0x00, 0x00,
];

// A state with a points value whose parts are (1, 0) and (0, 0), in this order.
const TURNED_PARTS: [u8; 107] = [
    0x00, 0x00, 0x00, 0x00, 0x00, 0x00, 0x00, 0x01, 0x00, 0x00, 0x00, 0x00, 0x00, 0x00, 0x00, 0x01,
    0x00, 0x00, 0x00, 0x00, 0x00, 0x00, 0x00, 0x02, 0x00, 0x00, 0x00, 0x00, 0x00, 0x00, 0x00, 0x00,
    0x00, 0x00, 0x00, 0x01, 0x00, 0x00, 0x00, 0x00, 0x00, 0x00, 0x00, 0x00, 0x00, 0x00, 0x00, 0x00,
    0x00, 0x00, 0x00, 0x00, 0x00, 0x00, 0x00, 0x01, 0x01, 0x70, 0x01, 0x00, 0x00, 0x00, 0x00, 0x00,
    0x00, 0x00, 0x02, 0x00, 0x00, 0x00, 0x01, 0x00, 0x00, 0x00, 0x00, 0x00, 0x00, 0x00, 0x00, 0x00,
    0x00, 0x00, 0x00, 0x00, 0x00, 0x00, 0x00, 0x00, 0x00, 0x00, 0x01, 0x00, 0x00, 0x00, 0x00, 0x00,
    0x00, 0x00, 0x01, 0x00, 0x00, 0x00, 0x00, 0x00, 0x00, 0x00, 0x00,
];

fn point(x: u64, y: u64) -> Result<Point, Fail> {
    Ok(Point::new(x, y)?)
}

fn segment(ax: u64, ay: u64, bx: u64, by: u64) -> Result<Segment, Fail> {
    Ok(Segment::new(point(ax, ay)?, point(bx, by)?).ok_or("one point")?)
}

// Whether these are the lines and the steps of the entries.
fn are(entries: &[Entry], expected: &[(&str, &[Step])]) -> bool {
    for (entry, (line, steps)) in entries.iter().zip(expected) {
        let same_line = entry.line.bytes() == line.as_bytes();
        if !same_line || entry.trace.steps() != *steps {
            return false;
        }
    }
    entries.len() == expected.len()
}

// Whether the bytes are read as this record, and the record is written as these bytes.
fn stands_for(
    alloc: Global,
    bytes: &[u8],
    number: u64,
    entries: &[(&str, &[Step])],
) -> Result<bool, Fail> {
    let Some((record, taken)) = decode(alloc, bytes)? else {
        return Ok(false);
    };
    let again = encode(alloc, &record)?;
    let same_number = taken == bytes.len() && record.number == number;
    let same_entries = are(record.entries.entries(), entries);
    Ok(same_number && same_entries && again.as_slice() == bytes)
}

#[test]
fn records_are_read_and_written(rt: HostRuntime) -> Result<(), Fail> {
    no_record_begins_another();
    let alloc = rt.alloc();
    assert!(rt; stands_for(alloc, &POINT, 1, &[("point 3 0", &[])])?);
    let meet = Step::Meet {
        t: segment(0, 0, 10, 4)?,
        u: segment(6, 0, 6, 9)?,
        x: point(6, 2)?,
    };
    assert!(rt; stands_for(alloc, &MEET, 2, &[("segment 6 0 6 9", &[meet])])?);
    let corner = Step::Corner {
        t: segment(0, 0, 1, 1)?,
        u: segment(0, 1, 1, 0)?,
    };
    assert!(rt; stands_for(alloc, &CORNER, 2, &[("segment 0 1 1 0", &[corner])])?);
    let split = Step::Split {
        p: point(5, 0)?,
        t: segment(0, 0, 6, 0)?,
    };
    assert!(rt; stands_for(alloc, &SPLIT, 3, &[("point 5 0", &[split])])?);
    let lines: [(&str, &[Step]); 2] = [("segment 0 0 4 0", &[]), ("segment 0 0 0 4", &[])];
    assert!(rt; stands_for(alloc, &GROUP, 1, &lines)?);
    Ok(())
}

// One byte of a record, and what another byte there makes of it.
const CHANGED: [(&[u8], usize, u8, bool); 21] = [
    // the length is one more, one less, and near 2^64
    (&POINT, 7, 0x1e, false),
    (&POINT, 7, 0x1c, false),
    (&POINT, 0, 0xff, false),
    // the number is 0, and 2
    (&POINT, 15, 0x00, false),
    (&POINT, 15, 0x02, true),
    // the line is one byte longer, `point 350`, and `point 3 1`
    (&POINT, 19, 0x0a, false),
    (&POINT, 27, 0x35, false),
    (&POINT, 28, 0x31, true),
    // one step, none there, and 2^56 of them
    (&POINT, 36, 0x01, false),
    (&POINT, 29, 0x01, false),
    // another kind of step
    (&MEET, 43, 0x03, false),
    (&MEET, 43, 0x04, false),
    // a column off the grid, and the greater end of the first piece before its lesser end
    (&MEET, 76, 0x40, false),
    (&MEET, 47, 0x0b, false),
    // the first piece begins at (0, 1), and at (7, 0), behind the second
    (&MEET, 51, 0x01, true),
    (&MEET, 47, 0x07, false),
    // the 0 before a group is a 1, and the group begins with change 2
    (&GROUP, 15, 0x01, false),
    (&GROUP, 23, 0x02, true),
    // one entry, three entries, and the second is `segment 0 0 0 9`
    (&GROUP, 31, 0x01, false),
    (&GROUP, 31, 0x03, false),
    (&GROUP, 77, 0x39, true),
];

// The bytes with another one at this place.
fn changed(alloc: Global, bytes: &[u8], place: usize, byte: u8) -> Result<Vec<u8>, Fail> {
    let mut changed = Vec::from_slice(alloc, bytes)?;
    if let Some(there) = changed.get_mut(place) {
        *there = byte;
    }
    Ok(changed)
}

// The place and the byte of the first row for which that isn't so.
fn other_record(
    alloc: Global,
    table: &[(&[u8], usize, u8, bool)],
) -> Result<Option<(usize, u8)>, Fail> {
    for (bytes, place, byte, is_record) in table {
        let bytes = changed(alloc, bytes, *place, *byte)?;
        if decode(alloc, &bytes)?.is_some() != *is_record {
            return Ok(Some((*place, *byte)));
        }
    }
    Ok(None)
}

#[test]
fn a_changed_byte_is_told(rt: HostRuntime) -> Result<(), Fail> {
    assert_eq!(rt; other_record(rt.alloc(), &CHANGED)?, None);
    Ok(())
}

#[test]
fn a_record_may_be_followed_and_not_cut(rt: HostRuntime) -> Result<(), Fail> {
    let mut bytes = Vec::from_slice(rt.alloc(), &POINT)?;
    bytes.extend_from_slice(&MEET)?;
    let taken = decode(rt.alloc(), &bytes)?.map(|found| found.1);
    assert_eq!(rt; taken, Some(POINT.len()));
    for length in 0..POINT.len() {
        let found = decode(rt.alloc(), &POINT[..length])?;
        assert!(rt; found.is_none(), "{length}");
    }
    Ok(())
}

#[test]
fn the_line_of_a_record_has_a_limit(rt: HostRuntime) -> Result<(), Fail> {
    for (points, is_record) in [(262_142, true), (262_143, false)] {
        let mut line = Vec::from_slice(rt.alloc(), b"points p")?;
        for _ in 0..points {
            line.extend_from_slice(b" 1 1")?;
        }
        assert_eq!(rt; line.len() <= LINE_LIMIT, is_record, "{points}");
        let mut bytes = Vec::new(rt.alloc());
        bytes.extend_from_slice(&(line.len() as u64 + 20).to_be_bytes())?;
        bytes.extend_from_slice(&7u64.to_be_bytes())?;
        let length = u32::try_from(line.len()).ok().ok_or("a long line")?;
        bytes.extend_from_slice(&length.to_be_bytes())?;
        bytes.extend_from_slice(&line)?;
        bytes.extend_from_slice(&0u64.to_be_bytes())?;
        let found = decode(rt.alloc(), &bytes)?;
        assert_eq!(rt; found.is_some(), is_record, "{points}");
    }
    Ok(())
}

// The text of a group with this number, this count and these lines, each with no step.
fn group(alloc: Global, number: u64, count: u64, lines: &[&str]) -> Result<Vec<u8>, Fail> {
    let mut body = Vec::new(alloc);
    body.extend_from_slice(&0u64.to_be_bytes())?;
    body.extend_from_slice(&number.to_be_bytes())?;
    body.extend_from_slice(&count.to_be_bytes())?;
    for line in lines {
        let length = u32::try_from(line.len()).ok().ok_or("a long line")?;
        body.extend_from_slice(&length.to_be_bytes())?;
        body.extend_from_slice(line.as_bytes())?;
        body.extend_from_slice(&0u64.to_be_bytes())?;
    }
    let mut bytes = Vec::new(alloc);
    bytes.extend_from_slice(&(body.len() as u64).to_be_bytes())?;
    bytes.extend_from_slice(&body)?;
    Ok(bytes)
}

// Groups: the number, the count, the lines, and whether they are a record.
const GROUPS: [(u64, u64, &[&str], bool); 9] = [
    (1, 2, &["point 1 1", "point 2 2"], true),
    (u64::MAX, 3, &["point 1 1", "unpoint 1 1", "delete 7"], true),
    // one change and none, which have no such text
    (1, 1, &["point 1 1"], false),
    (1, 0, &[], false),
    // no number
    (0, 2, &["point 1 1", "point 2 2"], false),
    // a count that the lines don't have
    (1, 1, &["point 1 1", "point 2 2"], false),
    (1, 3, &["point 1 1", "point 2 2"], false),
    // the first line, and the last, is no change
    (1, 2, &["realm", "point 2 2"], false),
    (1, 3, &["point 1 1", "point 2 2", "realm"], false),
];

#[test]
fn a_group_has_two_changes_or_more(rt: HostRuntime) -> Result<(), Fail> {
    for (place, (number, count, lines, is_record)) in GROUPS.iter().enumerate() {
        let bytes = group(rt.alloc(), *number, *count, lines)?;
        let found = decode(rt.alloc(), &bytes)?;
        assert_eq!(rt; found.is_some(), *is_record, "{place}");
    }
    Ok(())
}

#[test]
fn a_group_may_have_a_thousand_changes(rt: HostRuntime) -> Result<(), Fail> {
    let lines = ["point 1 1"; 1_000];
    let bytes = group(rt.alloc(), 7, 1_000, &lines)?;
    let (record, taken) = decode(rt.alloc(), &bytes)?.ok_or("no record")?;
    assert_eq!(rt; (record.number, taken), (7, bytes.len()));
    assert_eq!(rt; record.entries.entries().len(), 1_000);
    let again = encode(rt.alloc(), &record)?;
    assert!(rt; again.as_slice() == bytes.as_slice());
    Ok(())
}

// A change with no step, whose line is one of a few bytes.
fn entry(alloc: Global, line: [u8; 9]) -> Result<Entry, Fail>
    ensures { IfOk result (λ entry. length entry.line ≡ 9) }
{
    Ok(Entry {
        line: Reply::new(Vec::from_slice(alloc, &line)?),
        trace: Trace::new(alloc),
    })
}

#[test]
fn changes_are_put_one_behind_another(rt: HostRuntime) -> Result<(), Fail> {
    let alloc = rt.alloc();
    assert!(rt; Entries::new(alloc).entries().is_empty());
    let mut entries = Entries::one(alloc, entry(alloc, *b"point 1 1")?)?;
    entries.push(entry(alloc, *b"point 2 2")?)?;
    let expected: [(&str, &[Step]); 2] = [("point 1 1", &[]), ("point 2 2", &[])];
    assert!(rt; are(entries.entries(), &expected));
    Ok(())
}

// Heads: the version, the generation, the pages, the length, and whether they may stand together.
const HEADS: [(u16, u64, u64, u64, bool); 14] = [
    (1, 1, 0, 0, true),
    (2, 1, 0, 0, true),
    (1, 2, 1, 225, true),
    (2, 2, 1, 4_054, true),
    (2, 2, 2, 4_055, true),
    (2, 9_223_372_036_854_775_808, 0, 0, true),
    (0, 1, 0, 0, false),
    (3, 1, 0, 0, false),
    (256, 1, 0, 0, false),
    (2, 0, 0, 0, false),
    (2, 9_223_372_036_854_775_809, 0, 0, false),
    (2, 1, 1, 0, false),
    (2, 1, 1, 4_055, false),
    (1, 1, 2, 4_054, false),
];

fn head(version: u16, generation: u64, pages: u64, length: u64) -> [u8; 4095] {
    let mut bytes = [0; 4095];
    bytes[..7].copy_from_slice(&[0x52, 0x4f, 0x53, 0x45, 0x52, 0x45, 0x4c]);
    bytes[7..9].copy_from_slice(&version.to_be_bytes());
    bytes[9..17].copy_from_slice(&generation.to_be_bytes());
    bytes[17..25].copy_from_slice(&pages.to_be_bytes());
    bytes[25..33].copy_from_slice(&length.to_be_bytes());
    bytes
}

// The first row for which that isn't so, or whose head is written otherwise.
fn other_head(table: &[(u16, u64, u64, u64, bool)]) -> Option<Header> {
    for (version, generation, pages, length, is_head) in table {
        let header = Header {
            version: u64::from(*version),
            generation: *generation,
            pages: *pages,
            length: *length,
        };
        let bytes = head(*version, *generation, *pages, *length);
        let found = decode_header(&bytes);
        if found != is_head.then_some(header) {
            return Some(header);
        }
        if let Some(read) = found
            && encode_header(&read) != bytes
        {
            return Some(header);
        }
    }
    None
}

#[test]
fn heads_are_read_and_written(rt: HostRuntime) {
    assert_eq!(rt; other_head(&HEADS), None);
    let bytes = head(2, 1, 0, 0);
    for place in [0, 6, 7, 33, 4_094] {
        let mut changed = bytes;
        changed[place] = 2;
        assert!(rt; decode_header(&changed).is_none(), "{place}");
    }
    let (front, _) = bytes.split_at(4_094);
    assert!(rt; decode_header(front).is_none());
}

// Whether the bytes are read as a state, and the state is written as these bytes.
fn stands_for_state(alloc: Global, bytes: &[u8]) -> Result<bool, Fail> {
    let Some(snapshot) = decode_snapshot(alloc, bytes)? else {
        return Ok(false);
    };
    let again = encode_snapshot(alloc, &snapshot)?;
    Ok(again.as_slice() == bytes)
}

#[test]
fn payloads_are_read_and_written(rt: HostRuntime) -> Result<(), Fail> {
    no_two_states_have_one_payload();
    assert!(rt; stands_for_state(rt.alloc(), &[])?);
    assert!(rt; stands_for_state(rt.alloc(), &ONE_POINT)?);
    assert!(rt; stands_for_state(rt.alloc(), &TWO_ORIGINALS)?);
    assert!(rt; stands_for_state(rt.alloc(), &THREE_VALUES)?);
    let mut long = [0; 48];
    assert!(rt; decode_snapshot(rt.alloc(), &long)?.is_some());
    long[15] = 1;
    assert!(rt; decode_snapshot(rt.alloc(), &long)?.is_none());
    Ok(())
}

#[test]
fn a_state_is_read_part_by_part(rt: HostRuntime) -> Result<(), Fail> {
    let Some(snapshot) = decode_snapshot(rt.alloc(), &TWO_ORIGINALS)? else {
        return Err(Fail::new("no payload"));
    };
    assert_eq!(rt; (snapshot.changes, snapshot.next_id), (2, 3));
    assert!(rt; snapshot.points.is_empty());
    let [first, second] = snapshot.originals.items() else {
        return Err(Fail::new("other originals"));
    };
    assert_eq!(rt; (first.id, second.id), (1, 2));
    assert_eq!(rt; second.a, point(0, 1)?);
    assert_eq!(rt;
        first.chain.points(),
        [point(0, 0)?, point(2, 1)?, point(3, 1)?].as_slice()
    );
    let [_, last] = snapshot.traces.items() else {
        return Err(Fail::new("other traces"));
    };
    assert_eq!(rt; last.number, 2);
    assert_eq!(rt; last.steps.steps().len(), 1);
    Ok(())
}

#[test]
fn parts_of_a_value_stand_in_any_order(rt: HostRuntime) -> Result<(), Fail> {
    assert!(rt; stands_for_state(rt.alloc(), &TURNED_PARTS)?);
    let Some(snapshot) = decode_snapshot(rt.alloc(), &TURNED_PARTS)? else {
        return Err(Fail::new("no payload"));
    };
    let [named] = snapshot.values.items() else {
        return Err(Fail::new("other values"));
    };
    let KeptParts::Points(parts) = &named.value.parts else {
        return Err(Fail::new("other parts"));
    };
    assert_eq!(rt; parts.items(), [point(1, 0)?, point(0, 0)?].as_slice());
    Ok(())
}

// One byte of a payload, and whether another byte there leaves it a payload.
const TURNED: [(&[u8], usize, u8, bool); 10] = [
    // the number of changes, and the number of points
    (&ONE_POINT, 7, 0x09, true),
    (&ONE_POINT, 23, 0x02, false),
    (&ONE_POINT, 16, 0xff, false),
    // a column off the grid, and one of its last
    (&ONE_POINT, 24, 0x40, false),
    (&ONE_POINT, 24, 0x3f, true),
    // a name of another length, and another kind
    (&THREE_VALUES, 48, 0x05, false),
    (&THREE_VALUES, 53, 0x03, true),
    (&THREE_VALUES, 53, 0x01, false),
    (&THREE_VALUES, 53, 0x04, false),
    // ids that don't ascend, which are no ids of a valid state
    (&THREE_VALUES, 69, 0x01, true),
];

// The place and the byte of the first row for which that isn't so.
fn other_payload(
    alloc: Global,
    table: &[(&[u8], usize, u8, bool)],
) -> Result<Option<(usize, u8)>, Fail> {
    for (bytes, place, byte, is_payload) in table {
        let bytes = changed(alloc, bytes, *place, *byte)?;
        if decode_snapshot(alloc, &bytes)?.is_some() != *is_payload {
            return Ok(Some((*place, *byte)));
        }
    }
    Ok(None)
}

#[test]
fn a_turned_byte_of_a_payload_is_told(rt: HostRuntime) -> Result<(), Fail> {
    assert_eq!(rt; other_payload(rt.alloc(), &TURNED)?, None);
    Ok(())
}

#[test]
fn lists_give_back_what_they_were_made_of(rt: HostRuntime) -> Result<(), Fail> {
    let list = ListOf::new(Vec::from_slice(rt.alloc(), &[point(1, 2)?, point(3, 4)?])?);
    assert_eq!(rt; list.into_items().len(), 2);
    let trace = Trace::new(rt.alloc());
    assert!(rt; trace.steps().is_empty());
    assert!(rt; trace.into_steps().is_empty());
    Ok(())
}
