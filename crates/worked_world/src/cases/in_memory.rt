//! Sessions with worlds in memory, whose answers were written down by hand. A fault ends each.
ghost use Rattle.std.specs.Prelude.{◌≡◌, false};
ghost use Rattle.outside_world.specs.Memory.{has_failed};

use outside_world::{Failed, FileName, Leave, MemoryWorld, Outside, SteadyWorld};

/// A call, and what it must answer: the bytes that it took, or how many it gave. None stands for a
/// fault, which ends the session.
#[derive(Clone, Copy)]
enum Step {
    Take(usize, Option<&'static [u8]>),
    Give(&'static [u8], Option<usize>),
}

/// The numbers of the calls that fail, the calls, and what they gave. The input has six bytes.
type Session = (&'static [u64], &'static [Step], &'static [u8]);

static SESSIONS: [Session; 3] = [
    (
        &[2],
        &[Step::Take(4, Some(b"abcd")), Step::Take(4, None)],
        b"",
    ),
    (
        &[7, 5, 7],
        &[
            Step::Take(4, Some(b"abcd")),
            Step::Take(0, Some(b"")),
            Step::Give(b"xy", Some(2)),
            Step::Take(3, Some(b"ef")),
            Step::Give(b"z", None),
        ],
        b"xy",
    ),
    (
        &[],
        &[
            Step::Take(4, Some(b"abcd")),
            Step::Take(3, Some(b"ef")),
            Step::Take(3, Some(b"")),
            Step::Give(b"xy", Some(2)),
            Step::Give(b"", Some(0)),
            Step::Give(b"zw", Some(2)),
        ],
        b"xyzw",
    ),
];

#[test]
fn calls_move_bytes_and_fail_by_their_numbers(rt: HostRuntime) {
    let alloc = rt.alloc();
    for (failing, steps, given) in SESSIONS.iter() {
        let input = b"abcdef".to_vec(alloc).expect(&rt, "memory");
        let numbers = failing.to_vec(alloc).expect(&rt, "memory");
        let mut world = MemoryWorld::new(
            alloc,
            input,
            Vec::new(alloc),
            Vec::new(alloc),
            numbers,
        ).expect(&rt, "no fault");
        for (place, step) in steps.iter().enumerate() {
            assert!(rt; !world.has_failed(), "before place {place}");
            assert!(rt; answers(&mut world, step), "at place {place}");
        }
        assert!(rt; world.given() == *given, "{failing:?}");
        assert!(rt; world.calls() == steps.len() as u64, "{failing:?}");
    }
}

// Whether the call answers what it must.
fn answers(world: &mut MemoryWorld, step: &Step) -> bool
    requires intact { has_failed world.old ≡ false }
{
    match *step {
        Step::Take(room, wanted) => {
            let mut buf = [0; 4];
            let room = room.min(buf.len());
            match world.take(&mut buf[..room]) {
                Ok(size) => wanted == Some(&buf[..size]),
                Err(Failed) => wanted.is_none(),
            }
        }
        Step::Give(bytes, wanted) => world.give(bytes).ok() == wanted,
    }
}

#[test]
fn a_take_and_a_give_move_a_piece(rt: HostRuntime) {
    let alloc = rt.alloc();
    let input = b"abc".to_vec(alloc).expect(&rt, "memory");
    let failing = Vec::new(alloc);
    let mut world = MemoryWorld::in_pieces(
        alloc,
        input,
        Vec::new(alloc),
        Vec::new(alloc),
        failing,
        2,
    ).expect(&rt, "no fault");
    let mut buf = [0; 4];
    assert!(rt; world.take(&mut buf).expect(&rt, "no fault") == 2);
    assert!(rt; &buf[..2] == b"ab".as_slice());
    assert!(rt; world.take(&mut buf).expect(&rt, "no fault") == 1);
    assert!(rt; world.take(&mut buf).expect(&rt, "no fault") == 0);
    assert!(rt; world.give(b"xyz").expect(&rt, "no fault") == 2);
    assert!(rt; world.given() == b"xy".as_slice());
}

#[test]
fn a_file_reads_as_it_was_written(rt: HostRuntime) {
    let alloc = rt.alloc();
    let failing = Vec::new(alloc);
    let mut world = MemoryWorld::new(
        alloc,
        Vec::new(alloc),
        Vec::new(alloc),
        Vec::new(alloc),
        failing,
    )
    .expect(&rt, "no fault");
    world
        .write_at(FileName::A, 0, b"abcd")
        .expect(&rt, "no fault");
    world
        .write_at(FileName::A, 0, b"xy")
        .expect(&rt, "no fault");
    assert!(rt; world.size(FileName::B).expect(&rt, "no fault") == 0);
    assert!(rt; world.size(FileName::A).expect(&rt, "no fault") == 4);
    let mut buf = [0; 8];
    let size = world
        .read_at(FileName::A, 1, &mut buf)
        .expect(&rt, "no fault");
    assert!(rt; &buf[..size] == b"ycd".as_slice());
}

/// A call on file A: a write over its front, or a sync.
#[derive(Clone, Copy)]
enum Change {
    Write(&'static [u8]),
    Sync,
}

/// Calls on an empty file, the number of the one that fails, and what a crash leaves of the file after so many
/// of them.
type Crashes = (
    &'static [Change],
    &'static [u64],
    &'static [(u64, Leave, &'static [u8])],
);

static CRASHES: [Crashes; 3] = [
    (
        &[
            Change::Write(b"abcd"),
            Change::Sync,
            Change::Write(b"xy"),
            Change::Write(b"123456"),
        ],
        &[4],
        &[
            (0, Leave::Fill(b'!'), b""),
            (1, Leave::Old, b""),
            (1, Leave::New, b"abcd"),
            (1, Leave::Fill(b'!'), b"!!!!"),
            (2, Leave::Old, b"abcd"),
            (2, Leave::Fill(b'!'), b"abcd"),
            (3, Leave::Old, b"abcd"),
            (3, Leave::New, b"xycd"),
            (3, Leave::Fill(b'!'), b"!!cd"),
            (4, Leave::New, b"xycd"),
            (4, Leave::Fill(b'!'), b"!!!!!!"),
        ],
    ),
    (
        &[
            Change::Write(b"abcd"),
            Change::Sync,
            Change::Write(b"xy"),
            Change::Sync,
        ],
        &[4],
        &[
            (4, Leave::Old, b"abcd"),
            (4, Leave::New, b"xycd"),
            (4, Leave::Fill(b'!'), b"!!cd"),
        ],
    ),
    (
        &[
            Change::Write(b"abcd"),
            Change::Sync,
            Change::Write(b"xy"),
            Change::Sync,
        ],
        &[],
        &[(4, Leave::Old, b"xycd"), (4, Leave::Fill(b'!'), b"xycd")],
    ),
];

#[test]
fn a_crash_leaves_what_was_synced_and_any_bytes_of_what_was_written(rt: HostRuntime) {
    let alloc = rt.alloc();
    for (changes, failing, left) in CRASHES.iter() {
        let failing = failing.to_vec(alloc).expect(&rt, "memory");
        let b = b"other".to_vec(alloc).expect(&rt, "memory");
        let mut world = MemoryWorld::new(
            alloc,
            Vec::new(alloc),
            Vec::new(alloc),
            b,
            failing,
        ).expect(&rt, "no fault");
        for change in changes.iter() {
            assert!(rt; !world.has_failed());
            let _ = match *change {
                Change::Write(bytes) => world.write_at(FileName::A, 0, bytes),
                Change::Sync => world.sync(FileName::A),
            };
        }
        for (moment, leave, wanted) in left.iter() {
            assert!(rt; *moment <= world.calls());
            let (a, b) = world.images(*moment, *leave).expect(&rt, "no fault");
            assert!(rt; a.as_slice() == *wanted, "at moment {moment}, {leave:?}");
            assert!(rt;
                b.as_slice() == b"other".as_slice(),
                "at moment {moment}, {leave:?}"
            );
        }
    }
}

#[test]
fn a_steady_world_tells_as_long_as_all_fits(rt: HostRuntime) {
    let alloc = rt.alloc();
    let input = b"ab".to_vec(alloc).expect(&rt, "memory");
    let mut world = SteadyWorld::new(alloc, input, Vec::new(alloc), Vec::new(alloc)).expect(
        &rt, "no fault",
    );
    let mut buf = [0; 8];
    assert!(rt; world.take(&mut buf) == Ok(2));
    assert!(rt; world.give(b"xyz") == Ok(3));
    assert!(rt; world.write_at(FileName::B, 0, b"file") == Ok(()));
    assert!(rt; world.sync(FileName::B) == Ok(()));
    assert!(rt; world.size(FileName::B) == Ok(4));
    assert!(rt; world.read_at(FileName::B, 2, &mut buf) == Ok(2));
    assert!(rt; &buf[..2] == b"le".as_slice());
    assert!(rt; world.given() == b"xyz".as_slice());
    assert!(rt; world.fits());
    let mib = [0u8; 65_536];
    for _ in 0..17 {
        assert!(rt; world.give(&mib) == Ok(65_536));
    }
    assert!(rt; !world.fits());
    assert!(rt; world.take(&mut buf) == Ok(0));
}
