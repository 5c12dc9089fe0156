//! What is found again after a crash, and after a fault of each call in turn.
ghost use Rattle.std.specs.Prelude.{◌≡◌, false};
ghost use Rattle.outside_world.specs.Memory.{has_failed};

use crate::running::{left, look_at_run, place_byte_by_byte, place_of, run_words, told};
use grid_base::NoMemory;
use outside_world::{Leave, MemoryWorld};
use std::alloc::Global;
use std::process::Abort;
use std::thread::Threads;

// Four of the files that a crash may leave.
static LEAVES: [Leave; 4] = [Leave::Old, Leave::New, Leave::Fill(0), Leave::Fill(165)];

// So many changes are found in what a crash leaves after these calls, or so many.
fn look_at_leave<R: Threads + Sync + Abort>(
    rt: &R,
    alloc: Global,
    world: &MemoryWorld,
    moment: u64,
    leave: Leave,
    either: (u64, u64),
) -> Result<(), NoMemory> {
    let (a, b) = left(world, moment, leave)?;
    let (status, changes) = told(rt, alloc, &a, &b);
    assert_eq!(rt; status, 0, "at {moment} and {leave:?}");
    assert!(rt;
        changes == either.0 || changes == either.1,
        "at {moment} and {leave:?}: {changes}"
    );
    Ok(())
}

/// So many changes are found, or so many, in each of the four ways.
pub(crate) fn look_at_either<R: Threads + Sync + Abort>(
    rt: &R,
    alloc: Global,
    world: &MemoryWorld,
    moment: u64,
    either: (u64, u64),
) -> Result<(), NoMemory> {
    for leave in LEAVES.iter() {
        look_at_leave(rt, alloc, world, moment, *leave, either)?;
    }
    Ok(())
}

// These changes are found in what a crash leaves after so many calls, in each of the four ways.
fn look_at_leaves<R: Threads + Sync + Abort>(
    rt: &R,
    alloc: Global,
    world: &MemoryWorld,
    moment: u64,
    changes: &[u64],
) -> Result<(), NoMemory> {
    for (leave, wanted) in LEAVES.iter().zip(changes.iter()) {
        look_at_leave(rt, alloc, world, moment, *leave, (*wanted, *wanted))?;
    }
    Ok(())
}

// The first change on an empty file: the call that fails, the status, and how many changes each crash leaves then. Four calls
// come before, those of the start, and then a take. Three shut the first gate, four append the head, and four the record;
// the last gives the reply.
static FIRST: [(u64, u8, [u64; 4]); 13] = [
    (5, 2, [0, 0, 0, 0]),
    (6, 4, [0, 0, 0, 0]),
    (7, 4, [0, 0, 0, 0]),
    (8, 4, [0, 0, 0, 0]),
    (9, 4, [0, 0, 0, 0]),
    (10, 4, [0, 0, 0, 0]),
    (11, 4, [0, 0, 0, 0]),
    (12, 4, [0, 0, 0, 0]),
    (13, 4, [0, 0, 0, 0]),
    (14, 4, [0, 0, 0, 0]),
    (15, 4, [0, 0, 0, 1]),
    (16, 4, [0, 1, 0, 1]),
    (17, 3, [1, 1, 1, 1]),
];

// So it is on an empty file.
fn look_at_first<R: Threads + Sync + Abort>(
    rt: &R,
    alloc: Global,
    call: u64,
    number: u8,
    changes: &[u64],
) -> Result<(), NoMemory> {
    let mut place = place_of(alloc, "point 3 0\n", b"", &[call])?;
    look_at_fault(rt, alloc, &mut place.world, call, number, changes)
}

/// A run over one line, in which this call fails, gives nothing and ends with this number, and these changes are found in what each
/// crash leaves then.
pub(crate) fn look_at_fault<R: Threads + Sync + Abort>(
    rt: &R,
    alloc: Global,
    world: &mut MemoryWorld,
    call: u64,
    number: u8,
    changes: &[u64],
) -> Result<(), NoMemory>
    requires intact { has_failed world.old ≡ false }
{
    let status = run_words(rt, alloc, "run", world)?;
    assert_eq!(rt; status.number(), number, "at call {call}");
    assert!(rt; world.given().is_empty(), "at call {call}");
    look_at_leaves(rt, alloc, world, call, changes)
}

#[test]
fn the_first_commit_leaves_before_or_after(rt: HostRuntime) {
    for (call, number, changes) in FIRST.iter() {
        assert!(rt;
            look_at_first(&rt, rt.alloc(), *call, *number, changes).is_ok(),
            "no memory"
        );
    }
}

// The same where no call fails: the lines, after how many calls the gate of their first record is written, how many calls
// there are, and how many changes that record has. It is written and synced before; one call opens its gate, one syncs this,
// and the reply begins. A `begin` and the changes of a group are answered before the first write.
static MOMENTS: [(&str, u64, u64, u64); 2] = [
    ("point 3 0\n", 15, 18, 1),
    (
        "begin\nsegment 0 0 4 0\nsegment 0 0 0 4\ncommit\n\
         begin\nsegment 9 9 8 8\nabandon\nrealm\ncommit\n",
        18,
        26,
        2,
    ),
];

// So it is on an empty file.
fn look_at_first_moments<R: Threads + Sync + Abort>(
    rt: &R,
    alloc: Global,
    lines: &str,
    gate: u64,
    calls: u64,
    changes: u64,
) -> Result<(), NoMemory> {
    let mut place = place_of(alloc, lines, b"", &[])?;
    look_at_moments(rt, alloc, &mut place.world, gate, calls, (0, changes))
}

/// A run makes so many calls. As many changes as before it are found up to the call that writes the gate of its last record, as many as
/// after it from the sync of this gate on, and between the two the one or the other.
pub(crate) fn look_at_moments<R: Threads + Sync + Abort>(
    rt: &R,
    alloc: Global,
    world: &mut MemoryWorld,
    gate: u64,
    calls: u64,
    changes: (u64, u64),
) -> Result<(), NoMemory>
    requires intact { has_failed world.old ≡ false }
{
    let (before, after) = changes;
    let status = run_words(rt, alloc, "run", world)?;
    assert_eq!(rt; status.number(), 0);
    assert_eq!(rt; world.calls(), calls, "to {after} changes");
    for moment in 0..gate {
        look_at_leaves(rt, alloc, world, moment, &[before; 4])?;
    }
    look_at_leaves(rt, alloc, world, gate, &[before, after, before, after])?;
    for moment in gate..calls {
        look_at_leaves(rt, alloc, world, moment.saturating_add(1), &[after; 4])?;
    }
    Ok(())
}

#[test]
fn the_first_commit_stands_from_its_gate_on(rt: HostRuntime) {
    for (lines, gate, calls, changes) in MOMENTS.iter() {
        let done = look_at_first_moments(&rt, rt.alloc(), lines, *gate, *calls, *changes);
        assert!(rt; done.is_ok(), "no memory");
    }
}

// Sessions: the lines, the replies, and the status where each call fails in turn, the first one first; then a letter that
// the replies have once for each change that is in the files, and how many changes each commit has. Four calls are made at the
// start, and two take; eleven write the first commit, four each other, and seven a checkpoint; and each reply is given by
// one.
static SESSIONS: [(&str, &str, &str, u8, u64); 4] = [
    (
        "segment 0 0 3 1\ncheckpoint\nsegment 0 1 3 0\nrealm\n",
        "ok 1 steps 0 first 1 new 1\nok checkpoint\nok 2 steps 1 first 2 new 1\nrealm 5 4\n\
         0 0\n0 1\n2 1\n3 0\n3 1\n0 0 2 1\n0 1 2 1\n2 1 3 0\n2 1 3 1\n",
        "44442\
         444444444443\
         44444443\
         44443\
         32",
        b'f',
        1,
    ),
    (
        "point 1 0\npoint 2 0\npoint 3 0\npoint 4 0\npoint 5 0\ncheckpoint\n\
         point 6 0\npoint 7 0\npoint 8 0\npoint 9 0\npoint 10 0\n",
        "ok 1 steps 0 first 1 new 0\nok 2 steps 0 first 1 new 0\n\
         ok 3 steps 0 first 1 new 0\nok 4 steps 0 first 1 new 0\n\
         ok 5 steps 0 first 1 new 0\nok checkpoint\n\
         ok 6 steps 0 first 1 new 0\nok 7 steps 0 first 1 new 0\n\
         ok 8 steps 0 first 1 new 0\nok 9 steps 0 first 1 new 0\n\
         ok 10 steps 0 first 1 new 0\n",
        "44442\
         444444444443\
         44443444434444344443\
         44444443\
         4444344443444434444344443\
         2",
        b'f',
        1,
    ),
    // Two groups with a checkpoint between them, and one that is given up.
    (
        "begin\npoint 1 1\npoint 2 2\ncommit\ncheckpoint\n\
         begin\npoint 3 3\npoint 4 4\ncommit\n",
        "ok begin\nok 1 steps 0 first 1 new 0\nok 2 steps 0 first 1 new 0\nok commit 2\n\
         ok checkpoint\n\
         ok begin\nok 3 steps 0 first 1 new 0\nok 4 steps 0 first 1 new 0\nok commit 2\n",
        "44442\
         333444444444443\
         44444443\
         33344443\
         2",
        b'm',
        2,
    ),
    (
        "begin\nsegment 0 0 4 0\nsegment 0 0 0 4\ncommit\nbegin\nsegment 9 9 8 8\nabandon\nchain 3\ncommit\n",
        "ok begin\nok 1 steps 0 first 1 new 1\nok 2 steps 0 first 2 new 1\nok commit 2\n\
         ok begin\nok 3 steps 0 first 3 new 1\nok abandon\nno no-id\nno no-group\n",
        "44442\
         333444444444443\
         333332",
        b'm',
        2,
    ),
];

/// The status where the call after so many fails.
pub(crate) fn status_at(statuses: &str, call: u64) -> u8 {
    match statuses.as_bytes().get(call as usize) {
        Some(digit) => digit.wrapping_sub(b'0'),
        None => 0,
    }
}

// The files have as many changes as this letter was given, or those of one commit more.
fn find_again<R: Threads + Sync + Abort>(
    rt: &R,
    alloc: Global,
    world: &MemoryWorld,
    moment: u64,
    letter: u8,
    more: u64,
) -> Result<(), NoMemory> {
    let begun = world.given().iter().filter(|b| **b == letter).count() as u64;
    let either = (begun, begun.saturating_add(more));
    look_at_either(rt, alloc, world, moment, either)
}

/// A run with these words ends with this number at a fault of the call after so many, and gives a front of the replies, or all
/// where no call fails.
pub(crate) fn look_at_end<R: Threads + Sync + Abort>(
    rt: &R,
    alloc: Global,
    words: &str,
    world: &mut MemoryWorld,
    replies: &str,
    call: u64,
    number: u8,
) -> Result<(), NoMemory>
    requires intact { has_failed world.old ≡ false }
{
    let status = run_words(rt, alloc, words, world)?;
    let calls = world.calls();
    assert_eq!(rt; status.number(), number, "at call {call} of {calls}");
    assert!(rt; (number == 0) == (calls <= call), "at call {call}");
    let given = world.given();
    assert!(rt; replies.as_bytes().starts_with(given), "at call {call}");
    assert!(rt;
        number != 0 || given.len() == replies.len(),
        "at call {call}"
    );
    Ok(())
}

// So the run ends. What a crash leaves just before this call, and at the end, is found again.
fn fail_after<R: Threads + Sync + Abort>(
    rt: &R,
    alloc: Global,
    lines: &str,
    replies: &str,
    call: u64,
    number: u8,
    commits: (u8, u64),
) -> Result<(), NoMemory> {
    let mut place = place_of(alloc, lines, b"", &[call.saturating_add(1)])?;
    look_at_end(rt, alloc, "run", &mut place.world, replies, call, number)?;
    let (letter, more) = commits;
    find_again(rt, alloc, &place.world, call, letter, more)?;
    find_again(rt, alloc, &place.world, place.world.calls(), letter, more)
}

// At each call in turn, and where none fails.
#[test]
fn no_crash_and_no_fault_loses_a_change(rt: HostRuntime) {
    for (lines, replies, statuses, letter, more) in SESSIONS.iter() {
        for call in 0..=statuses.len() as u64 {
            let number = status_at(statuses, call);
            let commits = (*letter, *more);
            let done = fail_after(&rt, rt.alloc(), lines, replies, call, number, commits);
            assert!(rt; done.is_ok(), "no memory");
        }
    }
}

// A take and a give move one byte.
fn look_byte_by_byte<R: Threads + Sync + Abort>(
    rt: &R,
    alloc: Global,
    lines: &str,
    replies: &str,
) -> Result<(), NoMemory> {
    let mut place = place_byte_by_byte(alloc, lines)?;
    look_at_run(rt, alloc, "run", &mut place.world, replies, 0)
}

#[test]
fn single_bytes_make_the_same_session(rt: HostRuntime) {
    for (lines, replies, _, _, _) in SESSIONS.iter() {
        let done = look_byte_by_byte(&rt, rt.alloc(), lines, replies);
        assert!(rt; done.is_ok(), "no memory");
    }
}
