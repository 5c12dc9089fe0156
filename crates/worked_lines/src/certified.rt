//! What `certify` gives, that it is judged sound, and that nothing is taken and no file written. The certificates were worked out on
//! squared paper.
use crate::carrying::{look_at_files, look_at_left, place_in_full};
use crate::crashes::{look_at_end, status_at};
use crate::file_bytes::Short;
use crate::old_files;
use crate::old_files::{CROSSING_PAGE, NO_FILE, NOTHING, OLD, OLD_PAGE};
use crate::running::{left, look_at_run, place_of, place_of_two, run_words};
use crate::shipped::{FIRST, GROUP_BEHIND, TWO_BEHIND};
use grid_base::NoMemory;
use outside_world::Leave;
use std::alloc::Global;
use std::process::Abort;
use std::thread::Threads;

// The certificate of two changes behind the state with one point.
const THREE_POINTS: &str = "point 3 0\nchange\npoint 5 5\nchange\npoint 6 6\nend\n";

// File A and file B, their certificate, and the verdict on it.
static CERTIFIED: [(Short, Short, &str, &str); 10] = [
    (NO_FILE, NO_FILE, "end\n", "sound 0 0\n"),
    (FIRST, NO_FILE, "change\npoint 3 0\nend\n", "sound 1 0\n"),
    // Of version 1 as well.
    (OLD, NO_FILE, "change\npoint 3 0\nend\n", "sound 1 0\n"),
    // A state with no record behind it, and a checkpoint of nothing. The changes before it are in the older file.
    (NO_FILE, OLD_PAGE, "point 3 0\nend\n", "sound 0 0\n"),
    (Short::Records(2, 3, NOTHING), FIRST, "end\n", "sound 0 0\n"),
    // The changes of a group are told one by one.
    (OLD, TWO_BEHIND, THREE_POINTS, "sound 2 0\n"),
    (OLD, GROUP_BEHIND, THREE_POINTS, "sound 2 0\n"),
    (
        Short::Records(1, 1, &old_files::CROSSING),
        NO_FILE,
        "change\nsegment 1 0 0 3 1\nchange\nsegment 2 0 1 3 0\nmeet 0 0 3 1 0 1 3 0 2 1\nend\n",
        "sound 2 1\n",
    ),
    // A state with chains, alone and with a record behind it.
    (
        Short::Paged(2, 5, CROSSING_PAGE, NOTHING),
        NO_FILE,
        "original 1 0 0 2 1 3 1\noriginal 2 0 1 2 1 3 0\nend\n",
        "sound 0 0\n",
    ),
    (
        Short::Paged(2, 5, CROSSING_PAGE, old_files::THREE),
        NO_FILE,
        "original 1 0 0 2 1 3 1\noriginal 2 0 1 2 1 3 0\nchange\npoint 5 5\nend\n",
        "sound 1 0\n",
    ),
];

// This certificate is given, and judged so. Both files stay.
fn look_at_certificate<R: Threads + Sync + Abort>(
    rt: &R,
    alloc: Global,
    files: (Short, Short),
    certificate: &str,
    verdict: &str,
) -> Result<(), NoMemory> {
    look_at_files(rt, alloc, "certify", files, "realm\n", certificate, files)?;
    look_at_verdict(rt, alloc, certificate, verdict)
}

// The certificate is judged so.
fn look_at_verdict<R: Threads + Sync + Abort>(
    rt: &R,
    alloc: Global,
    certificate: &str,
    verdict: &str,
) -> Result<(), NoMemory> {
    let mut place = place_of(alloc, certificate, b"", &[])?;
    look_at_run(rt, alloc, "audit", &mut place.world, verdict, 0)
}

#[test]
fn files_have_a_sound_certificate(rt: HostRuntime) {
    for (a, b, certificate, verdict) in CERTIFIED.iter() {
        let done = look_at_certificate(&rt, rt.alloc(), (*a, *b), certificate, verdict);
        assert!(rt; done.is_ok(), "no memory");
    }
}

// Lines, the certificate of what they leave from empty files on, and the verdict on it.
static DRAWN: [(&str, &str, &str); 8] = [
    // The second segment crosses the first, whose chain holds the grid point (5, 2) too.
    (
        "segment 0 0 10 4\nsegment 6 0 6 9\n",
        "change\nsegment 1 0 0 10 4\nchange\nsegment 2 6 0 6 9\nmeet 0 0 10 4 6 0 6 9 6 2\nend\n",
        "sound 2 1\n",
    ),
    // A point that comes within a piece splits it, and leaves it so when it goes.
    (
        "segment 6 0 0 0\npoint 3 0\nunpoint 3 0\ndelete 1\n",
        "change\nsegment 1 0 0 6 0\nchange\npoint 3 0\nsplit 3 0 0 0 6 0\nchange\nunpoint 3 0\n\
         change\nremove 1\nend\n",
        "sound 4 1\n",
    ),
    // What is refused leaves no line, and an id is given once.
    (
        "segment 0 0 4 0\ndelete 2\ndelete 1\nunpoint 1 1\nsegment 1 1 2 2\n",
        "change\nsegment 1 0 0 4 0\nchange\nremove 1\nchange\nsegment 2 1 1 2 2\nend\n",
        "sound 3 0\n",
    ),
    // A piece stays as long as an original has it, and one that is gone is drawn again.
    (
        "segment 0 0 4 0\nsegment 4 0 0 0\ndelete 1\nsegment 0 0 4 0\ndelete 2\ndelete 3\nsegment 0 0 4 0\npoint 2 0\n",
        "change\nsegment 1 0 0 4 0\nchange\nsegment 2 0 0 4 0\nchange\nremove 1\nchange\nsegment 3 0 0 4 0\n\
         change\nremove 2\nchange\nremove 3\nchange\nsegment 4 0 0 4 0\nchange\npoint 2 0\nsplit 2 0 0 0 4 0\nend\n",
        "sound 8 1\n",
    ),
    // Points come in ascending order, those alone that weren't explicit before; and they stay when their name goes.
    (
        "point 1 1\npoints p 8 1 3 4 1 1\ndrop p\n",
        "change\npoint 1 1\nchange\npoint 3 4\npoint 8 1\nchange\nend\n",
        "sound 3 0\n",
    ),
    // The segments of a value come in the order of their ids.
    (
        "lines l 0 0 2 0 2 2\n",
        "change\nsegment 1 0 0 2 0\nsegment 2 2 0 2 2\nend\n",
        "sound 1 0\n",
    ),
    // A checkpoint leaves the state as the beginning. A group that is given up leaves nothing.
    (
        "segment 0 0 3 1\nsegment 0 1 3 0\npoint 7 7\ncheckpoint\nunpoint 7 7\n\
         begin\npoint 9 9\nabandon\nbegin\ndelete 1\npoint 1 9\ncommit\n",
        "point 7 7\noriginal 1 0 0 2 1 3 1\noriginal 2 0 1 2 1 3 0\n\
         change\nunpoint 7 7\nchange\nremove 1\nchange\npoint 1 9\nend\n",
        "sound 3 0\n",
    ),
    ("point 7 7\ncheckpoint\n", "point 7 7\nend\n", "sound 0 0\n"),
];

// So it is of what these lines leave.
fn look_at_drawn<R: Threads + Sync + Abort>(
    rt: &R,
    alloc: Global,
    lines: &str,
    certificate: &str,
    verdict: &str,
) -> Result<(), NoMemory> {
    let mut place = place_of(alloc, lines, b"", &[])?;
    let status = run_words(rt, alloc, "run", &mut place.world)?;
    assert_eq!(rt; status.number(), 0, "at {lines:?}");
    let (a, b) = left(&place.world, place.world.calls(), Leave::New)?;
    let mut place = place_of_two(alloc, "", &a, &b, &[])?;
    look_at_run(rt, alloc, "certify", &mut place.world, certificate, 0)?;
    look_at_verdict(rt, alloc, certificate, verdict)
}

#[test]
fn what_was_drawn_has_a_sound_certificate(rt: HostRuntime) {
    for (lines, certificate, verdict) in DRAWN.iter() {
        let done = look_at_drawn(&rt, rt.alloc(), lines, certificate, verdict);
        assert!(rt; done.is_ok(), "no memory");
    }
}

// A checkpoint of 300 originals, that with the number i from (0, 2 i) to (10, 2 i), and a change behind it that crosses the first.
fn look_at_many<R: Threads + Sync + Abort>(rt: &R, alloc: Global) -> Result<(), NoMemory> {
    let mut lines = String::from_str(alloc, "begin\n")?;
    let mut certificate = String::new(alloc);
    for id in 1..=300u32 {
        let y = 2 * id;
        write!(lines, "segment 10 {y} 0 {y}\n")?;
        write!(certificate, "original {id} 0 {y} 10 {y}\n")?;
    }
    lines.push_str("commit\ncheckpoint\nsegment 5 3 5 1\n")?;
    certificate.push_str("change\nsegment 301 5 1 5 3\nmeet 0 2 10 2 5 1 5 3 5 2\nend\n")?;
    look_at_drawn(
        rt,
        alloc,
        lines.as_str(),
        certificate.as_str(),
        "sound 1 1\n",
    )
}

#[test]
fn a_state_of_hundreds_of_originals_has_a_sound_certificate(rt: HostRuntime) {
    assert!(rt; look_at_many(&rt, rt.alloc()).is_ok(), "no memory");
}

// The status where each call fails in turn, of a run that gives six lines. Seven calls are made at the start, and one gives each
// line; nothing is taken.
static STATUSES: &str = "4444444333333";

// So it ends where the call after so many fails, and both files stay.
fn fail_after<R: Threads + Sync + Abort>(
    rt: &R,
    alloc: Global,
    call: u64,
    number: u8,
) -> Result<(), NoMemory> {
    let files = (NO_FILE, TWO_BEHIND);
    let mut place = place_in_full(alloc, "realm\n", files, &[call.saturating_add(1)])?;
    look_at_end(
        rt,
        alloc,
        "certify",
        &mut place.world,
        THREE_POINTS,
        call,
        number,
    )?;
    look_at_left(rt, alloc, &place.world, "certify", files)
}

#[test]
fn a_fault_ends_the_certificate(rt: HostRuntime) {
    for call in 0..=STATUSES.len() as u64 {
        let done = fail_after(&rt, rt.alloc(), call, status_at(STATUSES, call));
        assert!(rt; done.is_ok(), "no memory");
    }
}
