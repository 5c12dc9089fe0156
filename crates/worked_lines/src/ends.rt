//! What words do, and how runs end: behind long lines, at faults and at budgets; what is said then, and with which exit.
use crate::running::{left, look_at_run, place_of, run_words, serve_within, told};
use grid_base::NoMemory;
use outside_world::{FileName, Leave};
use process_run::{exit_of, say, status_without_words};
use process_world::WordsError;
use realm_store::Damage;
use rose_shell::Status;
use std::alloc::Global;
use std::cell::RefCell;
use std::fmt::{Display, Write};
use std::io;
use std::io::ErrorKind;
use std::process::{Abort, ExitCode};
use std::thread::Threads;
use steady_run::run_steadily;

// Words, what they give over an empty file, and the status.
static WORDS: [(&str, &str, u8); 13] = [
    ("", "", 1),
    ("run x", "", 1),
    ("check check", "", 1),
    ("--help", "", 1),
    ("gen 100001 7", "", 1),
    ("run", "realm 0 0\n", 0),
    (
        "check",
        "changes 0\noriginals 0\nvalues 0\npoints 0\npieces 0\n",
        0,
    ),
    ("ship 0", "", 0),
    ("follow", "no frame\n", 0),
    ("certify", "end\n", 0),
    (
        "gen 0 7",
        "gen 0 7\noriginals 0\nvalues 0\npoints 0\npieces 0\nsteps 0\n",
        0,
    ),
    (
        "gen 1 7",
        "gen 1 7\noriginals 1\nvalues 0\npoints 2\npieces 1\nsteps 0\n",
        0,
    ),
    (
        "gen 1 9999999999999999999",
        "gen 1 9999999999999999999\noriginals 1\nvalues 0\npoints 2\npieces 1\nsteps 0\n",
        0,
    ),
];

// These words give this.
fn look_at_words<R: Threads + Sync + Abort>(
    rt: &R,
    alloc: Global,
    words: &str,
    given: &str,
    number: u8,
) -> Result<(), NoMemory> {
    let mut place = place_of(alloc, "realm\n", b"", &[])?;
    look_at_run(rt, alloc, words, &mut place.world, given, number)
}

#[test]
fn words_choose_what_is_done(rt: HostRuntime) {
    for (words, given, number) in WORDS.iter() {
        let done = look_at_words(&rt, rt.alloc(), words, given, *number);
        assert!(rt; done.is_ok(), "no memory");
    }
}

// What these words give begins so.
fn look_at_front<R: Threads + Sync + Abort>(
    rt: &R,
    alloc: Global,
    words: &str,
    front: &str,
) -> Result<(), NoMemory> {
    let mut place = place_of(alloc, "", b"", &[])?;
    let _ = run_words(rt, alloc, words, &mut place.world)?;
    assert!(rt;
        place.world.given().starts_with(front.as_bytes()),
        "at {words:?}"
    );
    Ok(())
}

// How many originals and values there are doesn't depend on the choice of steps.
#[test]
fn no_change_of_a_map_is_refused(rt: HostRuntime) {
    let front = "gen 2000 7\noriginals 3000\nvalues 500\n";
    let done = look_at_front(&rt, rt.alloc(), "gen 2000 7", front);
    assert!(rt; done.is_ok(), "no memory");
}

// Of sessions with one line of so many bytes: what stands before it and behind it, the budget and the replies.
static LONG_LINES: [(&str, usize, &str, u64, &str); 7] = [
    (
        "",
        1_048_576,
        "\nrealm\n",
        2_000_000,
        "no line 0\nrealm 0 0\n",
    ),
    (
        "",
        1_048_577,
        "\nrealm\n",
        2_000_000,
        "no too-long\nrealm 0 0\n",
    ),
    // What stands after the last line feed is a line only at the end of the input.
    ("", 1_048_577, "", 2_000_000, "no too-long\n"),
    ("", 1_048_578, "", 1_048_577, ""),
    // A line of a batch, once behind another, and once at the end of the input.
    (
        "batch 3\nrealm\n",
        1_048_577,
        "\nchain 1\nrealm\n",
        2_000_000,
        "realm 0 0\nno too-long\nno no-id\nrealm 0 0\n",
    ),
    (
        "batch 3\nrealm\n",
        1_048_577,
        "",
        2_000_000,
        "realm 0 0\nno too-long\n",
    ),
    // In a group.
    (
        "begin\n",
        1_048_577,
        "\npoint 1 1\ncommit\n",
        2_000_000,
        "ok begin\nno too-long\nok 1 steps 0 first 1 new 0\nok commit 1\n",
    ),
];

// This session gets its replies.
fn look_at_line<R: Threads + Sync + Abort>(
    rt: &R,
    alloc: Global,
    before: &str,
    size: usize,
    behind: &str,
    budget: u64,
    replies: &str,
) -> Result<(), NoMemory> {
    let mut input = String::from_str(alloc, before)?;
    input.push_str("x".repeat(alloc, size)?.as_str())?;
    input.push_str(behind)?;
    let mut place = place_of(alloc, input.as_str(), b"", &[])?;
    let _ = serve_within(rt, alloc, &mut place.world, budget);
    assert_eq!(rt; place.world.given(), replies.as_bytes(), "at {size} bytes");
    Ok(())
}

#[test]
fn a_line_has_a_mebibyte_at_most(rt: HostRuntime) {
    for (before, size, behind, budget, replies) in LONG_LINES.iter() {
        let done = look_at_line(&rt, rt.alloc(), before, *size, behind, *budget, replies);
        assert!(rt; done.is_ok(), "no memory");
    }
}

// Of sessions: the lines, the call that fails, the budget and the replies; then the status, how many changes the store has,
// where it can still be used and no group is open, and how many the files have. The start makes four calls, a sync and a read
// of each file; a take is the fifth, and each reply is given by one more. One call comes before the first write.
static FAULTS: [(&str, u64, u64, &str, (u8, Option<u64>, u64)); 13] = [
    ("realm\n", 1, 1_000, "", (4, None, 0)),
    ("realm\n", 2, 1_000, "", (4, None, 0)),
    ("realm\n", 4, 1_000, "", (4, None, 0)),
    ("realm\n", 5, 1_000, "", (2, Some(0), 0)),
    ("realm\n", 6, 1_000, "", (3, Some(0), 0)),
    ("realm\n", 7, 1_000, "realm 0 0\n", (2, Some(0), 0)),
    ("realm\n", 9, 0, "", (7, Some(0), 0)),
    ("realm\n", 9, 3, "", (7, Some(0), 0)),
    ("realm\n", 9, 5, "", (7, Some(0), 0)),
    ("realm\n", 9, 6, "realm 0 0\n", (0, Some(0), 0)),
    // The budget ends within a group; the first write of a group fails, and then the last reply.
    (
        "begin\npoint 1 1\ncommit\n",
        99,
        16,
        "ok begin\nok 1 steps 0 first 1 new 0\n",
        (7, Some(0), 0),
    ),
    (
        "begin\npoint 1 1\npoint 2 2\ncommit\n",
        10,
        1_000,
        "ok begin\nok 1 steps 0 first 1 new 0\nok 2 steps 0 first 1 new 0\n",
        (4, None, 0),
    ),
    (
        "begin\npoint 1 1\npoint 2 2\ncommit\n",
        20,
        1_000,
        "ok begin\nok 1 steps 0 first 1 new 0\nok 2 steps 0 first 1 new 0\n",
        (3, Some(2), 2),
    ),
];

// This session ends so.
fn look_at_fault<R: Threads + Sync + Abort>(
    rt: &R,
    alloc: Global,
    lines: &str,
    call: u64,
    budget: u64,
    replies: &str,
    wanted: (u8, Option<u64>, u64),
) -> Result<(), NoMemory> {
    let mut place = place_of(alloc, lines, b"", &[call])?;
    let (status, kept) = serve_within(rt, alloc, &mut place.world, budget);
    let given = place.world.given();
    assert_eq!(rt;
        given,
        replies.as_bytes(),
        "at call {call} and budget {budget}"
    );
    let (a, b) = left(&place.world, place.world.calls(), Leave::New)?;
    let (_, found) = told(rt, alloc, &a, &b);
    assert_eq!(rt;
        (status.number(), kept, found),
        wanted,
        "at call {call} and budget {budget}"
    );
    Ok(())
}

#[test]
fn a_fault_or_the_budget_ends_the_session(rt: HostRuntime) {
    for (lines, call, budget, replies, wanted) in FAULTS.iter() {
        let done = look_at_fault(&rt, rt.alloc(), lines, *call, *budget, replies, *wanted);
        assert!(rt; done.is_ok(), "no memory");
    }
}

// Lines on which no call fails, and their replies.
static STEADY: [(&str, &str); 2] = [
    (
        "segment 0 0 3 1\nsegment 0 1 3 0\nchain 1\n",
        "ok 1 steps 0 first 1 new 1\nok 2 steps 1 first 2 new 1\nchain 3\n0 0\n2 1\n3 1\n",
    ),
    (
        "begin\nsegment 0 0 3 1\ncommit\nbegin\nsegment 0 1 3 0\nabandon\nchain 1\ncommit\nbegin\npoint 1 1\n",
        "ok begin\nok 1 steps 0 first 1 new 1\nok commit 1\nok begin\n\
         ok 2 steps 1 first 2 new 1\nok abandon\nchain 2\n0 0\n3 1\nno no-group\nok begin\n\
         ok 2 steps 0 first 2 new 0\n",
    ),
];

// Whether they get these replies, and fit into the world.
fn are_answered_steadily<R: Threads + Sync>(
    rt: &R,
    alloc: Global,
    lines: &str,
    replies: &str,
) -> Result<bool, NoMemory> {
    let input = Vec::from_slice(alloc, lines.as_bytes())?;
    let (status, world) = run_steadily(rt, alloc, input)?;
    Ok(status == Status::Done && world.fits() && world.given() == replies.as_bytes())
}

#[test]
fn a_steady_run_answers_each_line(rt: HostRuntime) {
    for (lines, replies) in STEADY.iter() {
        let answered = are_answered_steadily(&rt, rt.alloc(), lines, replies);
        assert!(rt; answered.unwrap_or(false), "at {lines:?}");
    }
}

// A standard error whose text is kept.
#[derive(Drop)]
struct Heard {
    text: RefCell<String>,
}

impl Heard {
    // Keeps what is shown, with this end.
    fn keep<D: Display + Drop>(&self, value: D, end: &str) -> io::Result<()> {
        match self.text.try_borrow_mut() {
            Ok(mut text) => match write!(text, "{value}{end}") {
                Ok(()) => Ok(()),
                Err(_) => Err(io::Error::from(ErrorKind::OutOfMemory)),
            },
            Err(_) => Err(io::Error::from(ErrorKind::Other)),
        }
    }
}

impl Eprint for Heard {
    fn eprint<D: Display + Drop>(&self, value: D) -> io::Result<()> {
        self.keep(value, "")
    }

    fn eprintln<D: Display + Drop>(&self, value: D) -> io::Result<()> {
        self.keep(value, "\n")
    }
}

// What is said of each status on standard error.
static SAID: [(Status, &str); 12] = [
    (Status::Done, ""),
    (
        Status::Usage,
        "rose: usage: rose run | rose check | rose gen N START | rose ship K | rose follow | rose certify | rose audit\n",
    ),
    (Status::SourceFault, "rose: source fault\n"),
    (Status::SinkFault, "rose: sink fault\n"),
    (Status::DiskFault, "rose: disk fault\n"),
    (Status::NoMemory, "rose: no memory\n"),
    (Status::InputLimit, "rose: input limit\n"),
    (
        Status::Damaged(Damage::Digest {
            file: FileName::B,
            page: 12,
            kept: [10; 32],
            found: [240; 32],
        }),
        "rose: damaged: file b page 12 \
         kept 0a0a0a0a0a0a0a0a0a0a0a0a0a0a0a0a0a0a0a0a0a0a0a0a0a0a0a0a0a0a0a0a \
         found f0f0f0f0f0f0f0f0f0f0f0f0f0f0f0f0f0f0f0f0f0f0f0f0f0f0f0f0f0f0f0f0\n",
    ),
    (
        Status::Damaged(Damage::BadPage {
            file: FileName::A,
            page: 0,
        }),
        "rose: damaged: file a page 0\n",
    ),
    (
        Status::Damaged(Damage::BadSnapshot { file: FileName::B }),
        "rose: damaged: file b snapshot\n",
    ),
    (
        Status::Damaged(Damage::BadRecord {
            file: FileName::A,
            number: 7,
        }),
        "rose: damaged: file a record 7\n",
    ),
    (
        Status::Damaged(Damage::Twins { generation: 3 }),
        "rose: damaged: twins 3\n",
    ),
];

// Whether this is said of the status.
fn is_said(alloc: Global, status: Status, text: &str) -> bool {
    let heard = Heard {
        text: RefCell::new(String::new(alloc)),
    };
    say(&heard, status);
    match heard.text.try_borrow() {
        Ok(said) => said.as_str() == text,
        Err(_) => false,
    }
}

#[test]
fn each_status_but_done_has_its_line(rt: HostRuntime) {
    for (status, text) in SAID.iter() {
        let number = status.number();
        assert!(rt; is_said(rt.alloc(), *status, text), "at {number}: {text}");
    }
}

// Whether the program exits with this number where its first call on a file fails.
fn exits_with<R: Threads + Sync>(
    rt: &R,
    alloc: Global,
    words: &str,
    number: u8,
) -> Result<bool, NoMemory> {
    let mut place = place_of(alloc, "realm\n", b"", &[1])?;
    let status = run_words(rt, alloc, words, &mut place.world)?;
    Ok(exit_of(status) == ExitCode::from(number))
}

#[test]
fn the_program_ends_with_the_number_of_its_status(rt: HostRuntime) {
    assert!(rt; exits_with(&rt, rt.alloc(), "run", 4).unwrap_or(false));
    assert!(rt; exit_of(Status::SourceFault) == ExitCode::from(2));
    assert!(rt; exit_of(Status::SinkFault) == ExitCode::from(3));
}

#[test]
fn words_that_are_not_known_end_the_program(rt: HostRuntime) {
    assert!(rt; exit_of(status_without_words(WordsError::NotText)) == ExitCode::from(1));
    assert!(rt; exit_of(status_without_words(WordsError::NoMemory)) == ExitCode::from(6));
}
