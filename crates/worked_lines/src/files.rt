//! File A: its bytes after a commit, what is found in it after a crash, and what is told of one that is damaged.
use crate::file_bytes::{change, file_of};
use crate::running::{Place, left, look, look_at_run, place_of_two, told};
use grid_base::NoMemory;
use outside_world::Leave;
use std::alloc::Global;
use std::process::Abort;
use std::thread::Threads;

// The numbers of the records in a file and the bytes behind them; the number of one change more, and its reply.
static COMMITS: [(&[u8], &[u8], u8, &str); 4] = [
    (b"", b"\0", 1, "ok 1 steps 0 first 1 new 0\n"),
    (b"\x01", b"\0", 2, "ok 2 steps 0 first 1 new 0\n"),
    // The byte of the next gate is missing.
    (b"\x01", b"", 2, "ok 2 steps 0 first 1 new 0\n"),
    (
        b"\x01\x02\x03\x04\x05\x06\x07\x08\x09",
        b"\0",
        10,
        "ok 10 steps 0 first 1 new 0\n",
    ),
];

// The change has its reply, and its record stands behind the others.
fn look_at_commit<R: Threads + Sync + Abort>(
    rt: &R,
    alloc: Global,
    numbers: &[u8],
    behind: &[u8],
    number: u8,
    reply: &str,
) -> Result<(), NoMemory> {
    let before = file_of(alloc, 1, numbers, behind)?;
    let place = look(rt, alloc, "point 3 0\n", &before, reply, 0)?;
    let (after, _) = left(&place.world, place.world.calls(), Leave::New)?;
    let mut more = Vec::from_slice(alloc, numbers)?;
    more.push(number)?;
    let wanted = file_of(alloc, 1, &more, b"\0")?;
    assert!(rt; after == wanted, "at {numbers:?} and {behind:?}");
    Ok(())
}

#[test]
fn a_commit_writes_its_record(rt: HostRuntime) {
    for (numbers, behind, number, reply) in COMMITS.iter() {
        let done = look_at_commit(&rt, rt.alloc(), numbers, behind, *number, reply);
        assert!(rt; done.is_ok(), "no memory");
    }
}

// The first change of all puts a first generation on file A, its record behind it, and nothing on file B.
fn look_at_first_commit<R: Threads + Sync + Abort>(rt: &R, alloc: Global) -> Result<(), NoMemory> {
    let place = look(
        rt,
        alloc,
        "point 3 0\n",
        b"",
        "ok 1 steps 0 first 1 new 0\n",
        0,
    )?;
    let (a, b) = left(&place.world, place.world.calls(), Leave::New)?;
    let wanted = file_of(alloc, 1, b"\x01", b"\0")?;
    assert_eq!(rt; a.len(), 4_135);
    assert!(rt; a == wanted);
    assert!(rt; b.is_empty());
    Ok(())
}

#[test]
fn the_first_commit_makes_file_a(rt: HostRuntime) {
    assert!(rt; look_at_first_commit(&rt, rt.alloc()).is_ok(), "no memory");
}

// What is told of a whole file: a status, and the number of changes, of the page or of the record.
static WHOLE: [(&[u8], u8, u64); 5] = [
    (b"", 0, 0),
    (b"\xa5", 0, 0),
    (b"\0", 0, 0),
    (b"\0R", 0, 0),
    (b"\xa5R", 5, 0),
];

// The same of a file of this generation, with records of these numbers and these bytes behind them.
static RECORDS: [(u8, &[u8], &[u8], u8, u64); 8] = [
    (0, b"", b"", 5, 0),
    (2, b"", b"", 0, 0),
    (1, b"", b"", 0, 0),
    (1, b"\x01", b"", 0, 1),
    (1, b"\x01", b"\0\xa5", 0, 1),
    (1, b"\x02", b"", 5, 1),
    (1, b"", b"\xa5\0\0\0\0\0\0\0\x1d", 5, 1),
    (1, b"\x01\x01", b"", 5, 2),
];

// A start tells this of the file, and a run on it gives nothing and ends with this status.
fn look_at_file<R: Threads + Sync + Abort>(
    rt: &R,
    alloc: Global,
    file: &[u8],
    status: u8,
    number: u64,
) -> Result<(), NoMemory> {
    let found = told(rt, alloc, file, b"");
    assert_eq!(rt; found, (status, number), "{file:?}");
    let _ = look(rt, alloc, "", file, "", status)?;
    Ok(())
}

// The same of a file with these records.
fn look_at_records<R: Threads + Sync + Abort>(
    rt: &R,
    alloc: Global,
    generation: u8,
    numbers: &[u8],
    behind: &[u8],
    status: u8,
    number: u64,
) -> Result<(), NoMemory> {
    let file = file_of(alloc, generation, numbers, behind)?;
    look_at_file(rt, alloc, &file, status, number)
}

#[test]
fn files_stand_for_states_or_are_damaged(rt: HostRuntime) {
    for (file, status, number) in WHOLE.iter() {
        let done = look_at_file(&rt, rt.alloc(), file, *status, *number);
        assert!(rt; done.is_ok(), "no memory");
    }
    for (generation, numbers, behind, status, number) in RECORDS.iter() {
        let done = look_at_records(
            &rt,
            rt.alloc(),
            *generation,
            numbers,
            behind,
            *status,
            *number,
        );
        assert!(rt; done.is_ok(), "no memory");
    }
}

// Generations and numbers of records of file A and of file B, and what is told of the two.
static PAIRS: [(u8, &[u8], u8, &[u8], u8, u64); 5] = [
    (1, b"\x01\x02", 2, b"\x01", 0, 1),
    (3, b"\x01\x02", 2, b"\x01", 0, 2),
    (2, b"\x01", 2, b"\x01", 5, 2),
    // The older file isn't read behind its head.
    (1, b"\x02", 2, b"", 0, 0),
    (1, b"\x01", 0, b"", 5, 0),
];

// A start tells this of the two files.
fn look_at_pair<R: Threads + Sync + Abort>(
    rt: &R,
    alloc: Global,
    a: (u8, &[u8]),
    b: (u8, &[u8]),
    wanted: (u8, u64),
) -> Result<(), NoMemory> {
    let first = file_of(alloc, a.0, a.1, b"\0")?;
    let second = file_of(alloc, b.0, b.1, b"\0")?;
    assert_eq!(rt; told(rt, alloc, &first, &second), wanted, "{a:?} and {b:?}");
    Ok(())
}

#[test]
fn the_newest_of_two_files_stands(rt: HostRuntime) {
    for (a, numbers_a, b, numbers_b, status, number) in PAIRS.iter() {
        let done = look_at_pair(
            &rt,
            rt.alloc(),
            (*a, numbers_a),
            (*b, numbers_b),
            (*status, *number),
        );
        assert!(rt; done.is_ok(), "no memory");
    }
}

// Lines on empty files and their replies; then the words of a run on the files that they leave, its lines and what it gives.
static AGAIN: [(&str, &str, &str, &str, &str); 6] = [
    // A checkpoint of nothing, one between two changes, and one behind another.
    (
        "checkpoint\npoint 3 0\n",
        "ok checkpoint\nok 1 steps 0 first 1 new 0\n",
        "run",
        "trace 1\npoint 4 0\n",
        "trace 0\nok 2 steps 0 first 1 new 0\n",
    ),
    (
        "segment 0 0 3 1\ncheckpoint\nsegment 0 1 3 0\n",
        "ok 1 steps 0 first 1 new 1\nok checkpoint\nok 2 steps 1 first 2 new 1\n",
        "check",
        "",
        "changes 2\noriginals 2\nvalues 0\npoints 5\npieces 4\n",
    ),
    (
        "lines l 0 0 3 0\nsegment 1 0 1 2\ncheckpoint\ncheckpoint\n",
        "ok 1 steps 0 first 1 new 1\nok 2 steps 1 first 2 new 1\nok checkpoint\nok checkpoint\n",
        "run",
        "show l\ntrace 2\ndrop l\nsegment 5 5 6 6\n",
        "lines 2\n0 0 1 0\n1 0 3 0\ntrace 1\nsplit 1 0 0 0 3 0\n\
         ok 3 steps 0 first 3 new 0\nok 4 steps 0 first 3 new 1\n",
    ),
    (
        "segment 0 0 3 1\nsegment 0 1 3 0\n",
        "ok 1 steps 0 first 1 new 1\nok 2 steps 1 first 2 new 1\n",
        "check",
        "",
        "changes 2\noriginals 2\nvalues 0\npoints 5\npieces 4\n",
    ),
    (
        "lines l 0 0 3 0\nsegment 1 0 1 2\ndrop l\n",
        "ok 1 steps 0 first 1 new 1\nok 2 steps 1 first 2 new 1\nok 3 steps 0 first 3 new 0\n",
        "run",
        "show l\nchain 1\ntrace 2\n",
        "no no-name\nchain 3\n0 0\n1 0\n3 0\ntrace 1\nsplit 1 0 0 0 3 0\n",
    ),
    // A value by an operator stands by itself.
    (
        "lines l 0 0 3 0\nlet p = vertices l\ndrop l\ndelete 1\n",
        "ok 1 steps 0 first 1 new 1\nok 2 steps 0 first 2 new 0\n\
         ok 3 steps 0 first 2 new 0\nok 4 steps 0 first 2 new 0\n",
        "run",
        "show p\ntrace 2\n",
        "points 2\n0 0\n3 0\ntrace 0\n",
    ),
];

// The second run gives this.
fn look_again<R: Threads + Sync + Abort>(
    rt: &R,
    alloc: Global,
    before: &Place,
    words: &str,
    lines: &str,
    given: &str,
) -> Result<(), NoMemory> {
    let (a, b) = left(&before.world, before.world.calls(), Leave::Old)?;
    let mut place = place_of_two(alloc, lines, &a, &b, &[])?;
    look_at_run(rt, alloc, words, &mut place.world, given, 0)
}

#[test]
fn what_was_made_is_found_again(rt: HostRuntime) {
    for (lines, replies, words, more, given) in AGAIN.iter() {
        match look(&rt, rt.alloc(), lines, b"", replies, 0) {
            Ok(place) => {
                let done = look_again(&rt, rt.alloc(), &place, words, more, given);
                assert!(rt; done.is_ok(), "no memory");
            }
            Err(NoMemory) => assert!(rt; false, "no memory"),
        }
    }
}

// The digest of a page that keeps no change and 4,294,967,295 as the next id.
static OF_LAST_ID: [u8; 32] = [
    0xf7, 0xb9, 0x15, 0x84, 0x50, 0x42, 0xae, 0x58, 0x1c, 0xc6, 0xbb, 0x24, 0xac, 0xfc, 0xd4, 0x0e,
    0xf6, 0x57, 0x22, 0x67, 0xc5, 0x1e, 0x6f, 0x10, 0x2f, 0xec, 0xcb, 0x3e, 0x80, 0xa8, 0xeb, 0xf5,
];

// Its head says one page and 48 bytes of payload, and so does the page, which has number 1.
static LAST_ID: [(usize, &[u8]); 5] = [
    (25, b"\x01"),
    (33, b"0"),
    (4_103, b"\x01"),
    (4_105, b"0"),
    (4_118, b"\xff\xff\xff\xff"),
];

// A file with this page.
fn file_at_last_id(alloc: Global) -> Result<Vec<u8>, NoMemory> {
    let mut file = file_of(alloc, 1, b"", b"")?;
    file.resize(8_160, 0)?;
    file.extend_from_slice(&OF_LAST_ID)?;
    change(&mut file, 8_192, &LAST_ID);
    Ok(file)
}

// One segment more gets its id, and the next none.
fn look_at_last_id<R: Threads + Sync + Abort>(rt: &R, alloc: Global) -> Result<(), NoMemory> {
    let file = file_at_last_id(alloc)?;
    let lines = "segment 0 0 1 1\nsegment 5 5 6 6\n";
    let replies = "ok 1 steps 0 first 4294967295 new 1\nno ids\n";
    let _ = look(rt, alloc, lines, &file, replies, 0)?;
    Ok(())
}

#[test]
fn the_last_id_is_given_once(rt: HostRuntime) {
    let done = look_at_last_id(&rt, rt.alloc());
    assert!(rt; done.is_ok(), "no memory");
}
