//! A second store that follows a first one: what is sent brings it to the same state.
use crate::running::{Place, left, place_of, place_of_bytes, run_words};
use grid_base::NoMemory;
use outside_world::Leave;
use std::alloc::Global;
use std::process::Abort;
use std::thread::Threads;

// Lines of the first store, and the last reply of the second to what is sent for no change; more lines of the first, for which
// number it sends then, and the last reply.
static PAIRS: [(&str, &str, &str, &str, &str); 4] = [
    // Records, two of which are groups; values, one by an operator, and one that is dropped.
    (
        "segment 0 0 4 0\nlines l 0 1 4 1\nbegin\nsegment 1 0 1 2\nlet p = vertices l\ncommit\n",
        "ack 4\n",
        "drop l\nregions r 10 10 14 10 10 14\nbegin\npoint 9 9\nunpoint 9 9\ncommit\n",
        "ship 4",
        "ack 8\n",
    ),
    // A checkpoint after what the second store has, so that it gets the state.
    (
        "segment 0 0 3 1\nsegment 0 1 3 0\n",
        "ack 2\n",
        "point 9 9\ncheckpoint\nbegin\npoint 8 8\ndelete 1\ncommit\n",
        "ship 2",
        "ack 5\n",
    ),
    // A state first, and a record behind it.
    (
        "lines l 0 0 3 0\nsegment 1 0 1 2\ncheckpoint\nlet p = vertices l\n",
        "ack 3\n",
        "drop p\n",
        "ship 3",
        "ack 4\n",
    ),
    // More changes than there are kept traces.
    (
        "begin\npoint 0 0\npoint 1 0\npoint 2 0\npoint 3 0\npoint 4 0\npoint 5 0\npoint 6 0\n\
         point 7 0\npoint 8 0\npoint 9 0\npoint 10 0\npoint 11 0\npoint 12 0\npoint 13 0\n\
         point 14 0\npoint 15 0\npoint 16 0\npoint 17 0\ncommit\n",
        "ack 18\n",
        "segment 0 0 20 0\n",
        "ship 18",
        "ack 19\n",
    ),
];

// A run with these words and this input, on the files that another left. It comes to its end.
fn run_behind<R: Threads + Sync + Abort>(
    rt: &R,
    alloc: Global,
    before: &Place,
    words: &str,
    input: &[u8],
) -> Result<Place, NoMemory> {
    let (a, b) = left(&before.world, before.world.calls(), Leave::Old)?;
    let mut place = place_of_bytes(alloc, input, &a, &b, &[])?;
    let status = run_words(rt, alloc, words, &mut place.world)?;
    assert_eq!(rt; status.number(), 0, "at {words:?}");
    Ok(place)
}

// The second store follows what the first sends by these words, and then follows it once more. The last reply is this.
fn follow_twice<R: Threads + Sync + Abort>(
    rt: &R,
    alloc: Global,
    first: &Place,
    words: &str,
    second: &Place,
    last: &str,
) -> Result<Place, NoMemory> {
    let sent = run_behind(rt, alloc, first, words, b"")?;
    let once = run_behind(rt, alloc, second, "follow", sent.world.given())?;
    let twice = run_behind(rt, alloc, &once, "follow", sent.world.given())?;
    assert!(rt;
        once.world.given().ends_with(last.as_bytes()),
        "at {last:?}"
    );
    assert!(rt;
        twice.world.given().ends_with(last.as_bytes()),
        "at {last:?}"
    );
    Ok(twice)
}

// What is sent of the state alone.
fn state_sent<R: Threads + Sync + Abort>(
    rt: &R,
    alloc: Global,
    store: &Place,
) -> Result<Place, NoMemory> {
    let checkpoint = run_behind(rt, alloc, store, "run", b"checkpoint\n")?;
    run_behind(rt, alloc, &checkpoint, "ship 0", b"")
}

// Both stores have the same state.
fn look_at_both<R: Threads + Sync + Abort>(
    rt: &R,
    alloc: Global,
    first: &Place,
    second: &Place,
    last: &str,
) -> Result<(), NoMemory> {
    let wanted = state_sent(rt, alloc, first)?;
    let found = state_sent(rt, alloc, second)?;
    assert!(rt; found.world.given().starts_with(b"snap "), "at {last:?}");
    assert!(rt; found.world.given() == wanted.world.given(), "at {last:?}");
    Ok(())
}

// So it is behind the first lines, and behind more.
fn look_at_pair<R: Threads + Sync + Abort>(
    rt: &R,
    alloc: Global,
    lines: &str,
    last: &str,
    more: (&str, &str, &str),
) -> Result<(), NoMemory> {
    let empty = place_of(alloc, "", b"", &[])?;
    let first = run_behind(rt, alloc, &empty, "run", lines.as_bytes())?;
    let second = follow_twice(rt, alloc, &first, "ship 0", &empty, last)?;
    look_at_both(rt, alloc, &first, &second, last)?;
    let (lines, words, last) = more;
    let first = run_behind(rt, alloc, &first, "run", lines.as_bytes())?;
    let second = follow_twice(rt, alloc, &first, words, &second, last)?;
    look_at_both(rt, alloc, &first, &second, last)
}

#[test]
fn what_is_sent_makes_the_same_state(rt: HostRuntime) {
    for (lines, last, more, words, last_of_more) in PAIRS.iter() {
        let more = (*more, *words, *last_of_more);
        let done = look_at_pair(&rt, rt.alloc(), lines, last, more);
        assert!(rt; done.is_ok(), "no memory");
    }
}
