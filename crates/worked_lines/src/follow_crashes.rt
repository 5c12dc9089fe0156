//! What `follow` leaves after a crash, and after a fault of each call in turn.
use crate::crashes::{look_at_either, look_at_end, status_at};
use crate::frame_lines::{CROSSING, FALLING_UNMET, RISING, THREE, joined};
use crate::running::place_of;
use grid_base::NoMemory;
use outside_world::MemoryWorld;
use std::alloc::Global;
use std::process::Abort;
use std::thread::Threads;

/// Six frames, and the replies to them from empty files on: a record, the same again, one that comes too early, one of another
/// history, a state, and the one that came too early.
pub(crate) const SIX: &[&str] = &[RISING, RISING, THREE, FALLING_UNMET, CROSSING, THREE];

pub(crate) const REPLIES: &str = "ack 1\nack 1\nack 1\nno record\nack 2\nack 3\n";

// The status where each call fails in turn. Four calls are made at the start, and one takes. Eleven write the first record, six start the
// store again, seven write the state and four the last record. One gives each reply, and one finds that the input is over.
static STATUSES: &str = "44442\
         444444444443\
         33\
         4444443\
         44444443\
         44443\
         2";

// How many changes there are before the first reply, and after each.
static CHANGES: [u64; 7] = [0, 1, 1, 1, 1, 2, 3];

// How many there are after so many replies.
fn changes_after(replies: usize) -> u64 {
    match CHANGES.get(replies) {
        Some(changes) => *changes,
        None => 3,
    }
}

// The files have the changes that there are after the replies that were given, or those after one more.
fn find_again<R: Threads + Sync + Abort>(
    rt: &R,
    alloc: Global,
    world: &MemoryWorld,
    moment: u64,
) -> Result<(), NoMemory> {
    let begun = world.given().iter().filter(|b| **b == b'\n').count();
    let either = (changes_after(begun), changes_after(begun.saturating_add(1)));
    look_at_either(rt, alloc, world, moment, either)
}

// The run ends with this number where the call after so many fails. What a crash leaves just before this call, and at the end,
// is found again.
fn fail_after<R: Threads + Sync + Abort>(
    rt: &R,
    alloc: Global,
    call: u64,
    number: u8,
) -> Result<(), NoMemory> {
    let lines = joined(alloc, SIX)?;
    let mut place = place_of(alloc, &lines, b"", &[call.saturating_add(1)])?;
    look_at_end(rt, alloc, "follow", &mut place.world, REPLIES, call, number)?;
    find_again(rt, alloc, &place.world, call)?;
    find_again(rt, alloc, &place.world, place.world.calls())
}

// At each call in turn, and where none fails.
#[test]
fn no_crash_and_no_fault_loses_a_frame(rt: HostRuntime) {
    for call in 0..=STATUSES.len() as u64 {
        let done = fail_after(&rt, rt.alloc(), call, status_at(STATUSES, call));
        assert!(rt; done.is_ok(), "no memory");
    }
}
