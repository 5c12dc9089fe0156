//! What `follow` answers, and what it leaves in the files.
use crate::carrying::look_at_files;
use crate::file_bytes::Short;
use crate::follow_crashes::{REPLIES, SIX};
use crate::frame_lines::{
    CROSSING, GROUP, NOTHING, ONE, OTHER_THREE, OTHER_TWO, POINT, THREE, THREE_POINTS, TWO,
    UNDONE_GROUP, UNMET_CROSSING, joined,
};
use crate::old_files;
use crate::old_files::{
    CARRIED, CROSSING_PAGE, LAST, LAST_NEW, LAST_OLD, NO_FILE, OLD, POINT_PAGE,
};
use crate::running::{look_at_run, place_byte_by_byte, place_of};
use crate::shipped::{FIRST, GROUP_BEHIND, TWO_BEHIND};
use grid_base::NoMemory;
use std::alloc::Global;
use std::process::Abort;
use std::thread::Threads;

// File A with change 1, `segment 0 0 3 1`; and a file with the crossing behind it, and change 3.
const RISEN: Short = Short::Records(
    2,
    1,
    b"\xa5\0\0\0\0\0\0\0\x23\0\0\0\0\0\0\0\x01\0\0\0\x0fsegment 0 0 3 1\0\0\0\0\0\0\0\0\0",
);

const CROSSED: Short = Short::Paged(2, 2, CROSSING_PAGE, old_files::THREE);

// File A and file B; frames and the replies to them; and both files behind them.
static FOLLOWED: [(Short, Short, &[&str], &str, Short, Short); 13] = [
    (
        NO_FILE,
        NO_FILE,
        &[ONE, ONE, "hello"],
        "ack 1\nack 1\nno frame\n",
        FIRST,
        NO_FILE,
    ),
    (NO_FILE, NO_FILE, &[OTHER_TWO], "ack 0\n", NO_FILE, NO_FILE),
    (NO_FILE, NO_FILE, SIX, REPLIES, RISEN, CROSSED),
    // A state in place of two empty files, and states that bring nothing new.
    (
        NO_FILE,
        NO_FILE,
        &[NOTHING, CROSSING, THREE],
        "ack 0\nack 2\nack 3\n",
        Short::Paged(2, 1, CROSSING_PAGE, old_files::THREE),
        NO_FILE,
    ),
    (
        FIRST,
        NO_FILE,
        &[NOTHING, POINT],
        "ack 1\nack 1\n",
        FIRST,
        NO_FILE,
    ),
    // A state that isn't valid is no frame, whether or not it would bring something new.
    (
        NO_FILE,
        NO_FILE,
        &[UNMET_CROSSING],
        "no frame\n",
        NO_FILE,
        NO_FILE,
    ),
    (
        OLD,
        TWO_BEHIND,
        &[UNMET_CROSSING, CROSSING],
        "no frame\nack 3\n",
        OLD,
        TWO_BEHIND,
    ),
    // A record carries a file of version 1 over, and so does a group; parts of the group are there then.
    (
        OLD,
        NO_FILE,
        &[TWO, OTHER_THREE],
        "ack 2\nack 3\n",
        OLD,
        TWO_BEHIND,
    ),
    (
        OLD,
        NO_FILE,
        &[GROUP, TWO, THREE],
        "ack 3\nack 3\nack 3\n",
        OLD,
        GROUP_BEHIND,
    ),
    // A group is refused whole, and nothing is carried over before.
    (OLD, NO_FILE, &[UNDONE_GROUP], "no record\n", OLD, NO_FILE),
    (
        OLD,
        NO_FILE,
        &[UNDONE_GROUP, TWO],
        "no record\nack 2\n",
        OLD,
        CARRIED,
    ),
    // Behind the greatest generation there is none for a record, fitting or not, nor for a state; other causes are told before.
    (
        NO_FILE,
        LAST_OLD,
        &[TWO, UNDONE_GROUP, THREE_POINTS, THREE, POINT, "hello"],
        "no generations\nno generations\nno generations\nack 1\nack 1\nno frame\n",
        NO_FILE,
        LAST_OLD,
    ),
    // In a file of version 2 a record needs none.
    (
        NO_FILE,
        LAST_NEW,
        &[THREE_POINTS, UNDONE_GROUP, TWO],
        "no generations\nno record\nack 2\n",
        NO_FILE,
        Short::Paged(2, LAST, POINT_PAGE, old_files::TWO),
    ),
];

// These frames get these replies, and leave both files so.
fn look_at_frames<R: Threads + Sync + Abort>(
    rt: &R,
    alloc: Global,
    files: (Short, Short),
    frames: &[&str],
    replies: &str,
    wanted: (Short, Short),
) -> Result<(), NoMemory> {
    let lines = joined(alloc, frames)?;
    look_at_files(rt, alloc, "follow", files, &lines, replies, wanted)
}

#[test]
fn each_frame_is_answered(rt: HostRuntime) {
    for (a, b, frames, replies, a_wanted, b_wanted) in FOLLOWED.iter() {
        let wanted = (*a_wanted, *b_wanted);
        let done = look_at_frames(&rt, rt.alloc(), (*a, *b), frames, replies, wanted);
        assert!(rt; done.is_ok(), "no memory");
    }
}

// A take and a give move one byte.
fn look_byte_by_byte<R: Threads + Sync + Abort>(rt: &R, alloc: Global) -> Result<(), NoMemory> {
    let lines = joined(alloc, SIX)?;
    let mut place = place_byte_by_byte(alloc, &lines)?;
    look_at_run(rt, alloc, "follow", &mut place.world, REPLIES, 0)
}

#[test]
fn frames_may_come_byte_by_byte(rt: HostRuntime) {
    assert!(rt; look_byte_by_byte(&rt, rt.alloc()).is_ok(), "no memory");
}

// A line of 2,200,004 bytes, which is no frame, and a frame without a line feed behind it.
fn long_line(alloc: Global) -> Result<String, NoMemory> {
    let mut text = String::from_str(alloc, "rec ")?;
    for _ in 0..100_000u32 {
        text.push_str("0000000000000000000000")?;
    }
    text.push_str("\n")?;
    text.push_str(ONE)?;
    Ok(text)
}

// Both are answered.
fn look_at_long_line<R: Threads + Sync + Abort>(rt: &R, alloc: Global) -> Result<(), NoMemory> {
    let lines = long_line(alloc)?;
    let mut place = place_of(alloc, &lines, b"", &[])?;
    look_at_run(
        rt,
        alloc,
        "follow",
        &mut place.world,
        "no frame\nack 1\n",
        0,
    )
}

#[test]
fn a_frame_may_have_more_than_two_mebibytes(rt: HostRuntime) {
    assert!(rt; look_at_long_line(&rt, rt.alloc()).is_ok(), "no memory");
}
