//! What is drawn by one run, and by a run for each change: the store is started again before each, and the replies are the same.
use crate::running::{left, place_of_two, run_words};
use grid_base::NoMemory;
use outside_world::Leave;
use std::alloc::Global;
use std::process::Abort;
use std::thread::Threads;

// A field of segments, most of which cross most of the others.
static FIELD: [&str; 12] = [
    "segment 10 4 12 20\n",
    "segment 1 2 17 3\n",
    "segment 17 13 1 18\n",
    "segment 3 7 20 20\n",
    "segment 18 1 18 18\n",
    "segment 3 18 18 20\n",
    "segment 19 6 15 21\n",
    "segment 7 5 22 7\n",
    "segment 9 19 2 3\n",
    "segment 21 2 17 18\n",
    "segment 22 21 2 1\n",
    "segment 7 21 7 0\n",
];

// Adds what a run over these lines gives on these two files, and answers both files behind it.
fn run_on<R: Threads + Sync>(
    rt: &R,
    alloc: Global,
    lines: &str,
    a: &[u8],
    b: &[u8],
    given: &mut Vec<u8>,
) -> Result<(Vec<u8>, Vec<u8>), NoMemory> {
    let mut place = place_of_two(alloc, lines, a, b, &[])?;
    let _ = run_words(rt, alloc, "run", &mut place.world)?;
    given.extend_from_slice(place.world.given())?;
    left(&place.world, place.world.calls(), Leave::New)
}

// The replies to the field and to `realm`, in one run.
fn drawn_at_once<R: Threads + Sync>(rt: &R, alloc: Global) -> Result<Vec<u8>, NoMemory> {
    let mut lines = String::new(alloc);
    for line in FIELD.iter() {
        lines.push_str(line)?;
    }
    lines.push_str("realm\n")?;
    let mut given = Vec::new(alloc);
    let _ = run_on(rt, alloc, lines.as_str(), b"", b"", &mut given)?;
    Ok(given)
}

// The same with a run for each line, and a run over these lines between any two.
fn drawn_one_by_one<R: Threads + Sync>(
    rt: &R,
    alloc: Global,
    between: &str,
) -> Result<Vec<u8>, NoMemory> {
    let (mut a, mut b) = (Vec::new(alloc), Vec::new(alloc));
    let mut given = Vec::new(alloc);
    for line in FIELD.iter() {
        let drawn = run_on(rt, alloc, line, &a, &b, &mut given)?;
        let behind = run_on(rt, alloc, between, &drawn.0, &drawn.1, &mut Vec::new(alloc))?;
        a = behind.0;
        b = behind.1;
    }
    let _ = run_on(rt, alloc, "realm\n", &a, &b, &mut given)?;
    Ok(given)
}

// Both are the same.
fn look_at_field<R: Threads + Sync + Abort>(
    rt: &R,
    alloc: Global,
    between: &str,
) -> Result<(), NoMemory> {
    let wanted = drawn_at_once(rt, alloc)?;
    let given = drawn_one_by_one(rt, alloc, between)?;
    assert!(rt; given == wanted, "with {between:?} between");
    Ok(())
}

#[test]
fn a_drawing_does_not_depend_on_how_it_came_into_memory(rt: HostRuntime) {
    for between in ["", "checkpoint\n"].iter() {
        let done = look_at_field(&rt, rt.alloc(), between);
        assert!(rt; done.is_ok(), "no memory");
    }
}
