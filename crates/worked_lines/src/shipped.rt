//! What `ship` gives, and that it takes nothing and writes no file.
use crate::carrying::{look_at_files, look_at_left, place_in_full};
use crate::crashes::{look_at_end, status_at};
use crate::file_bytes::Short;
use crate::frame_lines::{
    CROSSING, GROUP, ONE, OTHER_THREE, POINT, THREE, THREE_POINTS, TWO, joined,
};
use crate::old_files;
use crate::old_files::{CROSSING_PAGE, NO_FILE, NOTHING, OLD, OLD_PAGE, POINT_PAGE};
use grid_base::NoMemory;
use std::alloc::Global;
use std::process::Abort;
use std::thread::Threads;

/// File A with change 1, in version 2; and file B with changes 2 and 3 behind the state, one by one and as a group.
pub(crate) const FIRST: Short = Short::Records(2, 1, old_files::ONE);

pub(crate) const TWO_BEHIND: Short = Short::Paged(2, 2, POINT_PAGE, old_files::TWO_AND_THREE);

pub(crate) const GROUP_BEHIND: Short = Short::Paged(2, 2, POINT_PAGE, &old_files::GROUP);

// File A and file B, words, and the frames that are given.
static SHIPPED: [(Short, Short, &str, &[&str]); 17] = [
    (NO_FILE, NO_FILE, "ship 0", &[]),
    (FIRST, NO_FILE, "ship 0", &[ONE]),
    (FIRST, NO_FILE, "ship 1", &[]),
    (FIRST, NO_FILE, "ship 9999999999999999999", &[]),
    // Of version 1 as well.
    (OLD, NO_FILE, "ship 0", &[ONE]),
    // A state with no record behind it, and a checkpoint of nothing.
    (NO_FILE, OLD_PAGE, "ship 0", &[POINT]),
    (NO_FILE, OLD_PAGE, "ship 1", &[]),
    (Short::Records(2, 3, NOTHING), FIRST, "ship 0", &[]),
    // The records from the first on that is lacked, or the state where one before them is.
    (OLD, TWO_BEHIND, "ship 0", &[THREE_POINTS]),
    (OLD, TWO_BEHIND, "ship 1", &[TWO, OTHER_THREE]),
    (OLD, TWO_BEHIND, "ship 2", &[OTHER_THREE]),
    (OLD, TWO_BEHIND, "ship 3", &[]),
    // A group where its last change is lacked.
    (OLD, GROUP_BEHIND, "ship 1", &[GROUP]),
    (OLD, GROUP_BEHIND, "ship 2", &[GROUP]),
    (OLD, GROUP_BEHIND, "ship 3", &[]),
    // A state with chains and steps, alone and with a record behind it.
    (
        Short::Paged(2, 5, CROSSING_PAGE, NOTHING),
        NO_FILE,
        "ship 1",
        &[CROSSING],
    ),
    (
        Short::Paged(2, 5, CROSSING_PAGE, old_files::THREE),
        NO_FILE,
        "ship 2",
        &[THREE],
    ),
];

// These frames are given, and both files stay.
fn look_at_shipment<R: Threads + Sync + Abort>(
    rt: &R,
    alloc: Global,
    files: (Short, Short),
    words: &str,
    frames: &[&str],
) -> Result<(), NoMemory> {
    let given = joined(alloc, frames)?;
    look_at_files(rt, alloc, words, files, "realm\n", &given, files)
}

#[test]
fn a_second_store_is_sent_what_it_lacks(rt: HostRuntime) {
    for (a, b, words, frames) in SHIPPED.iter() {
        let done = look_at_shipment(&rt, rt.alloc(), (*a, *b), words, frames);
        assert!(rt; done.is_ok(), "no memory");
    }
}

// The status where each call fails in turn, of a run that sends two records. Seven calls are made at the start, and one gives
// each of the two; nothing is taken.
static STATUSES: &str = "444444433";

// So it ends where the call after so many fails, and both files stay.
fn fail_after<R: Threads + Sync + Abort>(
    rt: &R,
    alloc: Global,
    call: u64,
    number: u8,
) -> Result<(), NoMemory> {
    let given = joined(alloc, &[TWO, OTHER_THREE])?;
    let files = (NO_FILE, TWO_BEHIND);
    let mut place = place_in_full(alloc, "realm\n", files, &[call.saturating_add(1)])?;
    look_at_end(rt, alloc, "ship 1", &mut place.world, &given, call, number)?;
    look_at_left(rt, alloc, &place.world, "ship 1", files)
}

#[test]
fn a_fault_ends_what_is_sent(rt: HostRuntime) {
    for call in 0..=STATUSES.len() as u64 {
        let done = fail_after(&rt, rt.alloc(), call, status_at(STATUSES, call));
        assert!(rt; done.is_ok(), "no memory");
    }
}
