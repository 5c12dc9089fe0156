//! What the word `audit` gives for certificates, and what it leaves. The verdicts on the short ones were worked out on squared
//! paper.
use crate::running::{Place, left, look_at_run, place_byte_by_byte, place_of};
use grid_base::NoMemory;
use outside_world::{Leave, MemoryWorld};
use std::alloc::Global;
use std::fmt::Write;
use std::process::Abort;
use std::thread::Threads;

// Certificates, and the verdict on each.
static CERTIFICATES: [(&str, &str); 13] = [
    // The falling diagonal goes round the lower left corner of the cell.
    (
        "change\nsegment 1 0 0 1 1\nchange\nsegment 2 0 1 1 0\ncorner 0 0 1 1 0 1 1 0\nend\n",
        "sound 2 1\n",
    ),
    (
        "change\nsegment 1 0 0 1 1\nchange\nsegment 2 0 1 1 0\nend\n",
        "unsound 5\n",
    ),
    (
        "change\nsegment 1 0 0 1 1\nchange\nsegment 2 0 1 1 0\nmeet 0 0 1 1 0 1 1 0 0 0\nend\n",
        "unsound 5\n",
    ),
    // The grid point (5, 2) lies on the original.
    ("original 1 0 0 5 2 6 2 10 4\nend\n", "sound 0 0\n"),
    ("original 1 0 0 6 2 10 4\nend\n", "unsound 1\n"),
    // The end is missing.
    ("", "unsound 1\n"),
    ("change\n", "unsound 2\n"),
    ("change", "unsound 2\n"),
    // The last line needs no line feed, and an empty line is one.
    ("end", "sound 0 0\n"),
    ("\n", "unsound 1\n"),
    ("end\n\n", "unsound 2\n"),
    ("end\nend", "unsound 2\n"),
    // What stands behind a line that fails changes nothing.
    ("change\nend x\nsegment 1 0 0 1 1\nend\n", "unsound 2\n"),
];

// This is the verdict, whether the bytes come one by one or all at once.
fn look_at_audit<R: Threads + Sync + Abort>(
    rt: &R,
    alloc: Global,
    lines: &str,
    reply: &str,
) -> Result<(), NoMemory> {
    let mut place = place_of(alloc, lines, b"", &[])?;
    look_at_run(rt, alloc, "audit", &mut place.world, reply, 0)?;
    let mut place = place_byte_by_byte(alloc, lines)?;
    look_at_run(rt, alloc, "audit", &mut place.world, reply, 0)
}

#[test]
fn a_certificate_gets_its_verdict(rt: HostRuntime) {
    for (lines, reply) in CERTIFICATES.iter() {
        let done = look_at_audit(&rt, rt.alloc(), lines, reply);
        assert!(rt; done.is_ok(), "no memory");
    }
}

// An original with a chain of 52,500 points, and behind them a word too many: a line of 1,050,012 bytes. Then the end.
fn long_certificate(alloc: Global) -> Result<String, NoMemory> {
    let mut text = String::from_str(alloc, "original 1")?;
    for step in 0..52_500u32 {
        let x = 100_000_000 + step;
        write!(text, " {x} 100000000")?;
    }
    text.push_str(" x\nend\n")?;
    Ok(text)
}

// The line is heard whole: without its last word it would hold.
fn look_at_long_line<R: Threads + Sync + Abort>(rt: &R, alloc: Global) -> Result<(), NoMemory> {
    let text = long_certificate(alloc)?;
    let mut place = place_of(alloc, text.as_str(), b"", &[])?;
    look_at_run(rt, alloc, "audit", &mut place.world, "unsound 1\n", 0)
}

#[test]
fn a_line_of_a_certificate_may_have_more_than_a_mebibyte(rt: HostRuntime) {
    assert!(rt; look_at_long_line(&rt, rt.alloc()).is_ok(), "no memory");
}

// How many bytes a call moves at most, a certificate, the call that fails, what is given and the status. Where the first take has
// the whole certificate, the second finds that it is over, and the third call gives the reply.
static FAULTS: [(usize, &str, u64, &str, u8); 5] = [
    (1_000, "end\n", 1, "", 2),
    (1_000, "end\n", 2, "", 2),
    (1_000, "end\n", 3, "", 3),
    // Behind a line that fails, and within the reply.
    (2, "x\nend\n", 3, "", 2),
    (3, "end", 5, "sound ", 3),
];

// This audit ends so.
fn look_at_fault<R: Threads + Sync + Abort>(
    rt: &R,
    alloc: Global,
    piece: usize,
    lines: &str,
    call: u64,
    given: &str,
    number: u8,
) -> Result<(), NoMemory> {
    let input = Vec::from_slice(alloc, lines.as_bytes())?;
    let (a, b) = (Vec::new(alloc), Vec::new(alloc));
    let failing = Vec::from_slice(alloc, &[call])?;
    let world = MemoryWorld::in_pieces(alloc, input, a, b, failing, piece.max(1))?;
    let mut place = Place { world };
    look_at_run(rt, alloc, "audit", &mut place.world, given, number)
}

#[test]
fn a_fault_ends_the_audit(rt: HostRuntime) {
    for (piece, lines, call, given, number) in FAULTS.iter() {
        let done = look_at_fault(&rt, rt.alloc(), *piece, lines, *call, given, *number);
        assert!(rt; done.is_ok(), "no memory");
    }
}

// Certificates, the verdict on each, and how many calls it takes where each moves one byte: those that take the input to its
// end, one that finds it over, and those that give the reply.
static CALLS: [(&str, &str, u64); 3] = [
    ("", "unsound 1\n", 11),
    ("end\n", "sound 0 0\n", 15),
    ("x\nend\n", "unsound 1\n", 17),
];

// The audit makes so many calls, and a crash then leaves files that are no store as they were.
fn look_at_files<R: Threads + Sync + Abort>(
    rt: &R,
    alloc: Global,
    lines: &str,
    reply: &str,
    calls: u64,
) -> Result<(), NoMemory> {
    let input = Vec::from_slice(alloc, lines.as_bytes())?;
    let a = Vec::from_slice(alloc, b"one")?;
    let b = Vec::from_slice(alloc, b"two")?;
    let world = MemoryWorld::in_pieces(alloc, input, a, b, Vec::new(alloc), 1)?;
    let mut place = Place { world };
    look_at_run(rt, alloc, "audit", &mut place.world, reply, 0)?;
    assert_eq!(rt; place.world.calls(), calls, "at {lines:?}");
    let (a, b) = left(&place.world, calls, Leave::New)?;
    assert_eq!(rt; a.as_slice(), b"one".as_slice(), "a at {lines:?}");
    assert_eq!(rt; b.as_slice(), b"two".as_slice(), "b at {lines:?}");
    Ok(())
}

#[test]
fn an_audit_touches_no_file(rt: HostRuntime) {
    for (lines, reply, calls) in CALLS.iter() {
        let done = look_at_files(&rt, rt.alloc(), lines, reply, *calls);
        assert!(rt; done.is_ok(), "no memory");
    }
}
