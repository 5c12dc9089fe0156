//! Files of version 1 of the format: they are read as they stand, and the first commit carries them over to version 2.
ghost use Rattle.std.specs.Prelude.{◌≡◌, false, IfOk};
ghost use Rattle.outside_world.specs.Memory.{has_failed};

use crate::crashes::{look_at_fault, look_at_moments};
use crate::file_bytes::{Short, file_in_full};
use crate::old_files::{
    CARRIED, CROSSING, CROSSING_PAGE, FAR, GATES, GROUP, LAST, LAST_NEW, LAST_OLD, NO_FILE,
    NOTHING, OLD, OLD_CUT, OLD_PAGE, ONE, POINT_PAGE, THREE, TORN, TWO, TWO_AND_THREE,
};
use crate::running::{Place, left, look_at_run, place_of_two, told};
use grid_base::NoMemory;
use outside_world::{Leave, MemoryWorld};
use std::alloc::Global;
use std::process::Abort;
use std::thread::Threads;

// ---- what a run leaves

// File A and file B; lines and their replies; and both files behind them.
static RUNS: [(Short, Short, &str, &str, Short, Short); 16] = [
    // The first change, and a group that is the first change.
    (
        OLD,
        NO_FILE,
        "point 5 5\n",
        "ok 2 steps 0 first 1 new 0\n",
        OLD,
        CARRIED,
    ),
    (
        OLD,
        NO_FILE,
        "begin\npoint 5 5\npoint 6 6\ncommit\n",
        "ok begin\nok 2 steps 0 first 1 new 0\nok 3 steps 0 first 1 new 0\nok commit 2\n",
        OLD,
        Short::Paged(2, 2, POINT_PAGE, &GROUP),
    ),
    // A group of two changes with a step, whose state is carried over whole.
    (
        Short::Records(1, 1, &CROSSING),
        NO_FILE,
        "point 5 5\n",
        "ok 3 steps 0 first 3 new 0\n",
        Short::Records(1, 1, &CROSSING),
        Short::Paged(2, 2, CROSSING_PAGE, THREE),
    ),
    // A file without a change: nothing is carried over but the version.
    (
        Short::Records(1, 1, NOTHING),
        NO_FILE,
        "point 3 0\n",
        "ok 1 steps 0 first 1 new 0\n",
        Short::Records(1, 1, NOTHING),
        Short::Records(2, 2, ONE),
    ),
    // It is done once: for two changes, and for one more when the store is started again, with version 1 in the older file alone.
    (
        OLD,
        NO_FILE,
        "point 5 5\npoint 6 6\n",
        "ok 2 steps 0 first 1 new 0\nok 3 steps 0 first 1 new 0\n",
        OLD,
        Short::Paged(2, 2, POINT_PAGE, TWO_AND_THREE),
    ),
    (
        OLD,
        CARRIED,
        "point 6 6\n",
        "ok 3 steps 0 first 1 new 0\n",
        OLD,
        Short::Paged(2, 2, POINT_PAGE, TWO_AND_THREE),
    ),
    // A checkpoint before leaves a file of version 2, behind which the change goes at once.
    (
        OLD,
        NO_FILE,
        "checkpoint\npoint 5 5\n",
        "ok checkpoint\nok 2 steps 0 first 1 new 0\n",
        OLD,
        CARRIED,
    ),
    // The byte of the next gate is missing, and isn't added.
    (
        OLD_CUT,
        NO_FILE,
        "point 5 5\n",
        "ok 2 steps 0 first 1 new 0\n",
        OLD_CUT,
        CARRIED,
    ),
    // The other way, from file B with a page.
    (
        NO_FILE,
        OLD_PAGE,
        "point 5 5\n",
        "ok 2 steps 0 first 1 new 0\n",
        Short::Paged(2, 5, POINT_PAGE, TWO),
        OLD_PAGE,
    ),
    // The older file is written over, whichever version it has.
    (
        Short::Records(1, 3, ONE),
        Short::Records(1, 2, NOTHING),
        "point 5 5\n",
        "ok 2 steps 0 first 1 new 0\n",
        Short::Records(1, 3, ONE),
        Short::Paged(2, 4, POINT_PAGE, TWO),
    ),
    (
        Short::Records(1, 3, ONE),
        Short::Records(2, 2, NOTHING),
        "point 5 5\n",
        "ok 2 steps 0 first 1 new 0\n",
        Short::Records(1, 3, ONE),
        Short::Paged(2, 4, POINT_PAGE, TWO),
    ),
    // What makes no commit leaves both files.
    (
        OLD,
        NO_FILE,
        "realm\nbegin\npoint 7 7\nabandon\nbegin\ncommit\nunpoint 7 7\ndelete 1\nbegin\npoint 7 7\n",
        "realm 1 0\n3 0\nok begin\nok 2 steps 0 first 1 new 0\nok abandon\nok begin\n\
         ok commit 0\nno no-point\nno no-id\nok begin\nok 2 steps 0 first 1 new 0\n",
        OLD,
        NO_FILE,
    ),
    (OLD_CUT, NO_FILE, "trace 1\n", "trace 0\n", OLD_CUT, NO_FILE),
    (NO_FILE, OLD_PAGE, "", "", NO_FILE, OLD_PAGE),
    // Behind the greatest generation there is none for a change, nor for a checkpoint; another cause is told before.
    (
        NO_FILE,
        LAST_OLD,
        "point 5 5\ncheckpoint\nunpoint 9 9\nbegin\npoint 5 5\ncommit\nrealm\n",
        "no generations\nno generations\nno no-point\nok begin\nno generations\nok commit 0\n\
         realm 1 0\n3 0\n",
        NO_FILE,
        LAST_OLD,
    ),
    // In a file of version 2 a change needs none.
    (
        NO_FILE,
        LAST_NEW,
        "point 5 5\ncheckpoint\n",
        "ok 2 steps 0 first 1 new 0\nno generations\n",
        NO_FILE,
        Short::Paged(2, LAST, POINT_PAGE, TWO),
    ),
];

/// Both files stand there then.
pub(crate) fn look_at_left<R: Threads + Sync + Abort>(
    rt: &R,
    alloc: Global,
    world: &MemoryWorld,
    lines: &str,
    wanted: (Short, Short),
) -> Result<(), NoMemory> {
    let a = file_in_full(alloc, wanted.0)?;
    let b = file_in_full(alloc, wanted.1)?;
    let (left_a, left_b) = left(world, world.calls(), Leave::New)?;
    assert!(rt; left_a == a, "file a behind {lines:?}");
    assert!(rt; left_b == b, "file b behind {lines:?}");
    Ok(())
}

/// A world with these lines and these two files, in which the calls of these numbers fail.
pub(crate) fn place_in_full(
    alloc: Global,
    lines: &str,
    files: (Short, Short),
    failing: &[u64],
) -> Result<Place, NoMemory>
    ensures intact { IfOk result (λ place. has_failed place.world ≡ false) }
{
    let a = file_in_full(alloc, files.0)?;
    let b = file_in_full(alloc, files.1)?;
    place_of_two(alloc, lines, &a, &b, failing)
}

/// A run with these words over these lines gives these replies, and leaves both files so.
pub(crate) fn look_at_files<R: Threads + Sync + Abort>(
    rt: &R,
    alloc: Global,
    words: &str,
    files: (Short, Short),
    lines: &str,
    replies: &str,
    wanted: (Short, Short),
) -> Result<(), NoMemory> {
    let mut place = place_in_full(alloc, lines, files, &[])?;
    look_at_run(rt, alloc, words, &mut place.world, replies, 0)?;
    look_at_left(rt, alloc, &place.world, lines, wanted)
}

#[test]
fn the_first_commit_carries_files_over(rt: HostRuntime) {
    for (a, b, lines, replies, a_wanted, b_wanted) in RUNS.iter() {
        let wanted = (*a_wanted, *b_wanted);
        let done = look_at_files(&rt, rt.alloc(), "run", (*a, *b), lines, replies, wanted);
        assert!(rt; done.is_ok(), "no memory");
    }
}

// ---- what files stand for

// File A beside no file B: what is told of it, a status, and the number of changes or of the page.
static TOLD: [(Short, u8, u64); 8] = [
    (OLD, 0, 1),
    (OLD_CUT, 0, 1),
    (Short::Records(1, 1, &CROSSING), 0, 2),
    // Both versions have one grid.
    (Short::Records(1, 1, FAR), 0, 1),
    (Short::Records(2, 1, FAR), 0, 1),
    // No head has another version.
    (Short::Records(0, 1, ONE), 5, 0),
    (Short::Records(3, 1, ONE), 5, 0),
    (Short::Records(256, 1, ONE), 5, 0),
];

// A start tells this of the file.
fn look_at_told<R: Threads + Sync + Abort>(
    rt: &R,
    alloc: Global,
    file: Short,
    wanted: (u8, u64),
) -> Result<(), NoMemory> {
    let bytes = file_in_full(alloc, file)?;
    assert_eq!(rt; told(rt, alloc, &bytes, b""), wanted, "of {file:?}");
    Ok(())
}

#[test]
fn both_versions_are_read(rt: HostRuntime) {
    for (file, status, number) in TOLD.iter() {
        let done = look_at_told(&rt, rt.alloc(), *file, (*status, *number));
        assert!(rt; done.is_ok(), "no memory");
    }
}

// ---- crashes and faults

// File A and file B, in which one change is found, and lines; after how many calls the gate of their record is written, how many
// calls there are, and how many changes are found then. Six calls are made at the start, one more where a page is read, and one takes.
// Three shut the first gate of the other file, or two where it reads as closed; four append the generation, and four the record.
static MOMENTS: [(Short, Short, &str, u64, u64, u64); 5] = [
    (OLD, NO_FILE, "point 5 5\n", 17, 20, 2),
    (OLD_CUT, NO_FILE, "point 5 5\n", 17, 20, 2),
    (NO_FILE, OLD_PAGE, "point 5 5\n", 18, 21, 2),
    // Three replies are given before a group is written, and one between a checkpoint and the change.
    (
        OLD,
        NO_FILE,
        "begin\npoint 5 5\npoint 6 6\ncommit\n",
        20,
        23,
        3,
    ),
    (OLD, NO_FILE, "checkpoint\npoint 5 5\n", 18, 21, 2),
];

// The same where something lies in file B before: an open gate alone, what was left of an earlier try, and an older generation.
static OVER: [(Short, Short, &str, u64, u64, u64); 4] = [
    (OLD, Short::Bytes(b"\xa5"), "point 5 5\n", 17, 20, 2),
    (OLD, TORN, "point 5 5\n", 16, 19, 2),
    (OLD, GATES, "point 5 5\n", 16, 19, 2),
    (
        Short::Records(1, 3, ONE),
        Short::Records(1, 2, TWO_AND_THREE),
        "point 5 5\n",
        17,
        20,
        2,
    ),
];

// So it is of these two files.
fn look_at_crashes<R: Threads + Sync + Abort>(
    rt: &R,
    alloc: Global,
    files: (Short, Short),
    lines: &str,
    gate: u64,
    calls: u64,
    after: u64,
) -> Result<(), NoMemory> {
    let mut place = place_in_full(alloc, lines, files, &[])?;
    look_at_moments(rt, alloc, &mut place.world, gate, calls, (1, after))
}

#[test]
fn no_crash_while_files_are_carried_over_loses_a_change(rt: HostRuntime) {
    for (a, b, lines, gate, calls, after) in MOMENTS.iter() {
        let done = look_at_crashes(&rt, rt.alloc(), (*a, *b), lines, *gate, *calls, *after);
        assert!(rt; done.is_ok(), "no memory");
    }
}

#[test]
fn nor_does_one_over_what_lies_there(rt: HostRuntime) {
    for (a, b, lines, gate, calls, after) in OVER.iter() {
        let done = look_at_crashes(&rt, rt.alloc(), (*a, *b), lines, *gate, *calls, *after);
        assert!(rt; done.is_ok(), "no memory");
    }
}

// The first of these runs: the call that fails, the status, and how many changes each crash leaves then.
static FAULTS: [(u64, u8, [u64; 4]); 19] = [
    (1, 4, [1, 1, 1, 1]),
    (2, 4, [1, 1, 1, 1]),
    (3, 4, [1, 1, 1, 1]),
    (4, 4, [1, 1, 1, 1]),
    (5, 4, [1, 1, 1, 1]),
    (6, 4, [1, 1, 1, 1]),
    (7, 2, [1, 1, 1, 1]),
    (8, 4, [1, 1, 1, 1]),
    (9, 4, [1, 1, 1, 1]),
    (10, 4, [1, 1, 1, 1]),
    (11, 4, [1, 1, 1, 1]),
    (12, 4, [1, 1, 1, 1]),
    (13, 4, [1, 1, 1, 1]),
    (14, 4, [1, 1, 1, 1]),
    (15, 4, [1, 1, 1, 1]),
    (16, 4, [1, 1, 1, 1]),
    (17, 4, [1, 1, 1, 2]),
    (18, 4, [1, 2, 1, 2]),
    (19, 3, [2, 2, 2, 2]),
];

// So it is where this call fails.
fn look_at_failing<R: Threads + Sync + Abort>(
    rt: &R,
    alloc: Global,
    call: u64,
    number: u8,
    changes: &[u64],
) -> Result<(), NoMemory> {
    let mut place = place_in_full(alloc, "point 5 5\n", (OLD, NO_FILE), &[call])?;
    look_at_fault(rt, alloc, &mut place.world, call, number, changes)
}

#[test]
fn a_fault_while_files_are_carried_over_leaves_before_or_after(rt: HostRuntime) {
    for (call, number, changes) in FAULTS.iter() {
        let done = look_at_failing(&rt, rt.alloc(), *call, *number, changes);
        assert!(rt; done.is_ok(), "no memory");
    }
}
