//! Lines that are frames, and lines beside them that are none.
use crate::paper::{FOUR, GREATEST, GROUP, LAST, NOTHING, ONE_POINT, POINT, SECOND, SPLIT, WELL};
use record_codec::Entry;
use standby_core::{
    Frame, no_frame_holds_a_line_end, no_two_frames_have_one_line, read_frame, write_frame,
};
use std::alloc::Global;
use std::test::Fail;

const FRAMES: [&[u8]; 10] = [
    POINT, SECOND, WELL, GROUP, SPLIT, LAST, NOTHING, ONE_POINT, FOUR, GREATEST,
];

// Whether the line is read as a frame, which is written as this line again.
fn stands(alloc: Global, line: &[u8]) -> Result<bool, Fail> {
    let Some(frame) = read_frame(alloc, line)? else {
        return Ok(false);
    };
    let again = write_frame(alloc, &frame)?;
    Ok(again.bytes() == line)
}

#[test]
fn frames_are_read_and_written(rt: HostRuntime) -> Result<(), Fail> {
    no_two_frames_have_one_line();
    no_frame_holds_a_line_end();
    for (place, line) in FRAMES.iter().enumerate() {
        assert!(rt; stands(rt.alloc(), line)?, "{place}");
    }
    Ok(())
}

// What a frame has: the number and the lines of a record, or the changes of a state.
const PARTS: [(&[u8], u64, &[&str]); 8] = [
    (POINT, 1, &["point 3 0"]),
    (SECOND, 2, &["point 3 0"]),
    (
        GROUP,
        2,
        &["lines road 0 0 4 0 8 0", "regions field 20 0 24 0 20 4"],
    ),
    (SPLIT, 4, &["point 2 0"]),
    (
        LAST,
        18_446_744_073_709_551_614,
        &["point 1 1", "point 2 2", "unpoint 1 1"],
    ),
    (NOTHING, 0, &[]),
    (FOUR, 4, &[]),
    (GREATEST, 18_446_744_073_709_551_615, &[]),
];

// Whether these are the lines of the entries.
fn are(entries: &[Entry], lines: &[&str]) -> bool {
    for (entry, line) in entries.iter().zip(lines) {
        if entry.line.bytes() != line.as_bytes() {
            return false;
        }
    }
    entries.len() == lines.len()
}

// Whether the line is a frame with these parts.
fn has(alloc: Global, line: &[u8], number: u64, lines: &[&str]) -> Result<bool, Fail> {
    match read_frame(alloc, line)? {
        Some(Frame::Rec(r)) => Ok(r.number == number && are(r.entries.entries(), lines)),
        Some(Frame::Snap(s)) => Ok(s.changes == number && lines.is_empty()),
        None => Ok(false),
    }
}

#[test]
fn a_frame_has_what_its_line_says(rt: HostRuntime) -> Result<(), Fail> {
    for (place, (line, number, lines)) in PARTS.iter().enumerate() {
        assert!(rt; has(rt.alloc(), line, *number, lines)?, "{place}");
    }
    Ok(())
}

const NO_FRAMES: [&[u8]; 29] = [
    b"",
    b"hello",
    b"rec",
    b"rec ",
    b"snap",
    b"snap 0",
    b"snap 00",
    // no word, and words that are none
    b"000000000000001d000000000000000100000009706f696e74203320300000000000000000",
    b"REC 000000000000001d000000000000000100000009706f696e74203320300000000000000000",
    b"ack 000000000000001d000000000000000100000009706f696e74203320300000000000000000",
    // a space too many, in front, between and behind, and another end
    b" rec 000000000000001d000000000000000100000009706f696e74203320300000000000000000",
    b"rec  000000000000001d000000000000000100000009706f696e74203320300000000000000000",
    b"rec 000000000000001d000000000000000100000009706f696e74203320300000000000000000 ",
    b"rec 000000000000001d000000000000000100000009706f696e74203320300000000000000000\r",
    b"rec 000000000000001d000000000000000100000009706f696e74203320300000000000000000\n",
    // a record as a state
    b"snap 000000000000001d000000000000000100000009706f696e74203320300000000000000000",
    // a digit in upper case, and what is no digit
    b"rec 000000000000001D000000000000000100000009706f696e74203320300000000000000000",
    b"rec 000000000000001g000000000000000100000009706f696e74203320300000000000000000",
    // a byte behind the record
    b"rec 000000000000001d000000000000000100000009706f696e7420332030000000000000000000",
    // half a byte less, and a byte less
    b"rec 000000000000001d000000000000000100000009706f696e7420332030000000000000000",
    b"rec 000000000000001d000000000000000100000009706f696e742033203000000000000000",
    // a length of the body that lies, and one of the line
    b"rec 000000000000001e000000000000000100000009706f696e74203320300000000000000000",
    b"rec 000000000000001d00000000000000010000000a706f696e74203320300000000000000000",
    // the number 0
    b"rec 000000000000001d000000000000000000000009706f696e74203320300000000000000000",
    // a line that is no change, and one in which a number has a zero in front
    b"rec 000000000000001d000000000000000100000009706f696e74203330300000000000000000",
    b"rec 000000000000001e00000000000000010000000a706f696e7420303320300000000000000000",
    // one change in the form of a group
    b"rec 000000000000002d000000000000000000000000000000010000000000000001\
00000009706f696e74203320300000000000000000",
    // two records in one line
    b"rec 000000000000001d000000000000000100000009706f696e74203320300000000000000000\
000000000000001d000000000000000200000009706f696e74203320300000000000000000",
    // the empty state in the long form
    b"snap 00000000000000000000000000000001\
0000000000000000000000000000000000000000000000000000000000000000",
];

#[test]
fn other_lines_are_no_frames(rt: HostRuntime) -> Result<(), Fail> {
    for (place, line) in NO_FRAMES.iter().enumerate() {
        assert!(rt; read_frame(rt.alloc(), line)?.is_none(), "{place}");
    }
    Ok(())
}
