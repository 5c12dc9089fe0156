//! Files that were cut or changed, and what `check` gives of them: the state that they stand for still, or the one damage
//! that decides, with its place.
use crate::file_bytes::{change, file_of};
use crate::running::{left, look, place_of_two, run_words};
use grid_base::NoMemory;
use outside_world::{FileName, Leave};
use realm_store::Damage;
use rose_shell::Status;
use std::alloc::Global;
use std::process::Abort;
use std::thread::Threads;

// Two files, before one of them is changed.
#[derive(Clone, Copy, Debug)]
enum Before {
    // File A has the record of one change, and file B is empty.
    OneChange,
    // File B is a copy of that file A.
    Copied,
    // File A has the records of two changes, and file B a checkpoint of them.
    Checkpoint,
    // File A has the records of two groups of two changes each, and file B is empty.
    Groups,
}

// The files, each with what `files_before` says of it.
fn files_before<R: Threads + Sync + Abort>(
    rt: &R,
    alloc: Global,
    before: Before,
) -> Result<(Vec<u8>, Vec<u8>), NoMemory> {
    match before {
        Before::OneChange => Ok((file_of(alloc, 1, b"\x01", b"\0")?, Vec::new(alloc))),
        Before::Copied => Ok((
            file_of(alloc, 1, b"\x01", b"\0")?,
            file_of(alloc, 1, b"\x01", b"\0")?,
        )),
        Before::Checkpoint => files_after(rt, alloc, CHANGES, REPLIES),
        Before::Groups => files_after(rt, alloc, GROUPS, GROUP_REPLIES),
    }
}

// The files behind these lines, which get these replies.
fn files_after<R: Threads + Sync + Abort>(
    rt: &R,
    alloc: Global,
    lines: &str,
    replies: &str,
) -> Result<(Vec<u8>, Vec<u8>), NoMemory> {
    let place = look(rt, alloc, lines, b"", replies, 0)?;
    left(&place.world, place.world.calls(), Leave::New)
}

const CHANGES: &str = "segment 0 0 3 1\nsegment 0 1 3 0\ncheckpoint\n";

const REPLIES: &str = "ok 1 steps 0 first 1 new 1\nok 2 steps 1 first 2 new 1\nok checkpoint\n";

const GROUPS: &str = "begin\npoint 1 1\npoint 2 2\ncommit\nbegin\npoint 3 3\npoint 4 4\ncommit\n";

const GROUP_REPLIES: &str =
    "ok begin\nok 1 steps 0 first 1 new 0\nok 2 steps 0 first 1 new 0\nok commit 2\n\
     ok begin\nok 3 steps 0 first 1 new 0\nok 4 steps 0 first 1 new 0\nok commit 2\n";

// Digests of the page of that checkpoint, and of the same with ff as the first byte of its payload.
const OF_PAGE: [u8; 32] = [
    0xc7, 0x56, 0x54, 0x94, 0x31, 0x7e, 0x05, 0x8b, 0xb3, 0x95, 0x70, 0x6f, 0x17, 0x34, 0x2c, 0xf0,
    0x3d, 0xbc, 0x4d, 0xf2, 0xf0, 0x50, 0x60, 0xeb, 0x74, 0x56, 0x7e, 0x97, 0x81, 0x01, 0x03, 0x27,
];

const OF_CHANGED: [u8; 32] = [
    0x29, 0x8e, 0x75, 0x9d, 0x8c, 0xb3, 0xd6, 0x8c, 0x6d, 0x13, 0x20, 0x6c, 0xb0, 0x7c, 0xd4, 0xd9,
    0x92, 0x2c, 0x34, 0x04, 0x8c, 0xc0, 0x55, 0x52, 0x80, 0xc8, 0x09, 0x6a, 0x89, 0x58, 0xb0, 0x21,
];

// The payload of a state with a points value of the parts (0, 0) and (1, 0), and the digest of its page.
const IN_ORDER: [u8; 107] = [
    0x00, 0x00, 0x00, 0x00, 0x00, 0x00, 0x00, 0x01, 0x00, 0x00, 0x00, 0x00, 0x00, 0x00, 0x00, 0x01,
    0x00, 0x00, 0x00, 0x00, 0x00, 0x00, 0x00, 0x02, 0x00, 0x00, 0x00, 0x00, 0x00, 0x00, 0x00, 0x00,
    0x00, 0x00, 0x00, 0x01, 0x00, 0x00, 0x00, 0x00, 0x00, 0x00, 0x00, 0x00, 0x00, 0x00, 0x00, 0x00,
    0x00, 0x00, 0x00, 0x00, 0x00, 0x00, 0x00, 0x01, 0x01, 0x70, 0x01, 0x00, 0x00, 0x00, 0x00, 0x00,
    0x00, 0x00, 0x02, 0x00, 0x00, 0x00, 0x00, 0x00, 0x00, 0x00, 0x00, 0x00, 0x00, 0x00, 0x01, 0x00,
    0x00, 0x00, 0x00, 0x00, 0x00, 0x00, 0x00, 0x00, 0x00, 0x00, 0x01, 0x00, 0x00, 0x00, 0x00, 0x00,
    0x00, 0x00, 0x01, 0x00, 0x00, 0x00, 0x00, 0x00, 0x00, 0x00, 0x00,
];

const OF_IN_ORDER: [u8; 32] = [
    0xbf, 0xe4, 0x8b, 0x27, 0xcd, 0xa0, 0x7e, 0xf9, 0xbb, 0x40, 0x48, 0x93, 0xdf, 0x02, 0x47, 0xd3,
    0x94, 0x38, 0x52, 0xaf, 0x4e, 0x79, 0xc7, 0xa5, 0x74, 0x1a, 0xc5, 0xee, 0xab, 0xf8, 0x9a, 0x9c,
];

// The digest of the page that has these parts the other way round.
const OF_TURNED: [u8; 32] = [
    0x8c, 0x78, 0xfd, 0x10, 0xc3, 0x7e, 0xb9, 0xc9, 0xec, 0x6e, 0x03, 0xd2, 0x68, 0xe8, 0xac, 0x1f,
    0x5a, 0xa3, 0xda, 0x31, 0x82, 0x94, 0x53, 0x05, 0xba, 0x6d, 0x84, 0x2c, 0x33, 0xd4, 0xfb, 0x3c,
];

const NO_CHANGE: &str = "changes 0\noriginals 0\nvalues 0\npoints 0\npieces 0\n";

const ONE_CHANGE: &str = "changes 1\noriginals 0\nvalues 0\npoints 1\npieces 0\n";

const ONE_VALUE: &str = "changes 1\noriginals 0\nvalues 1\npoints 2\npieces 0\n";

const TWO_CHANGES: &str = "changes 2\noriginals 2\nvalues 0\npoints 5\npieces 4\n";

const TWO_POINTS: &str = "changes 2\noriginals 0\nvalues 0\npoints 2\npieces 0\n";

const FOUR_POINTS: &str = "changes 4\noriginals 0\nvalues 0\npoints 4\npieces 0\n";

const HEAD_OF_A: Damage = Damage::BadPage {
    file: FileName::A,
    page: 0,
};

const HEAD_OF_B: Damage = Damage::BadPage {
    file: FileName::B,
    page: 0,
};

const PAGE_OF_B: Damage = Damage::BadPage {
    file: FileName::B,
    page: 1,
};

const DIGEST_OF_B: Damage = Damage::Digest {
    file: FileName::B,
    page: 1,
    kept: OF_PAGE,
    found: OF_CHANGED,
};

const FIRST_RECORD: Damage = Damage::BadRecord {
    file: FileName::A,
    number: 1,
};

const SECOND_RECORD: Damage = Damage::BadRecord {
    file: FileName::A,
    number: 2,
};

// No file is so long.
const END: usize = 9_000;

// The files before; the one that is changed, where it is cut off, and the bytes that are put at places of it; and the lines
// of `check`, or the damage.
static DAMAGES: [(
    Before,
    FileName,
    usize,
    &[(usize, &[u8])],
    Result<&str, Damage>,
); 22] = [
    (Before::OneChange, FileName::A, 1, &[], Ok(NO_CHANGE)),
    (Before::OneChange, FileName::A, 2, &[], Err(HEAD_OF_A)),
    (
        Before::OneChange,
        FileName::A,
        END,
        &[(1, b"\0")],
        Err(HEAD_OF_A),
    ),
    (Before::OneChange, FileName::A, 4_096, &[], Ok(NO_CHANGE)),
    (
        Before::OneChange,
        FileName::A,
        4_097,
        &[],
        Err(FIRST_RECORD),
    ),
    // A record is cut off behind a closed gate.
    (
        Before::OneChange,
        FileName::A,
        4_120,
        &[(4_096, b"\0")],
        Ok(NO_CHANGE),
    ),
    (
        Before::OneChange,
        FileName::A,
        4_133,
        &[],
        Err(FIRST_RECORD),
    ),
    (Before::OneChange, FileName::A, 4_134, &[], Ok(ONE_CHANGE)),
    // The record has number 2, or the line `point 350`, or a step that isn't there.
    (
        Before::OneChange,
        FileName::A,
        END,
        &[(4_112, b"\x02")],
        Err(FIRST_RECORD),
    ),
    (
        Before::OneChange,
        FileName::A,
        END,
        &[(4_124, b"5")],
        Err(FIRST_RECORD),
    ),
    (
        Before::OneChange,
        FileName::A,
        END,
        &[(4_133, b"\x01")],
        Err(FIRST_RECORD),
    ),
    (
        Before::OneChange,
        FileName::A,
        END,
        &[(4_134, b"\xa5")],
        Err(SECOND_RECORD),
    ),
    (
        Before::Copied,
        FileName::A,
        END,
        &[],
        Err(Damage::Twins { generation: 1 }),
    ),
    (
        Before::Checkpoint,
        FileName::B,
        END,
        &[(4_106, b"\xff")],
        Err(DIGEST_OF_B),
    ),
    (Before::Checkpoint, FileName::B, 8_191, &[], Err(PAGE_OF_B)),
    (
        Before::Checkpoint,
        FileName::B,
        END,
        &[(9, b"\x03")],
        Err(HEAD_OF_B),
    ),
    // File A, which has the same two changes, is the newest then.
    (
        Before::Checkpoint,
        FileName::B,
        END,
        &[(0, b"\0")],
        Ok(TWO_CHANGES),
    ),
    (
        Before::Checkpoint,
        FileName::A,
        END,
        &[(1, b"\0")],
        Err(HEAD_OF_A),
    ),
    // The older file isn't read behind its head.
    (
        Before::Checkpoint,
        FileName::A,
        END,
        &[(4_096, &[0xff; 130])],
        Ok(TWO_CHANGES),
    ),
    // The digest is that of the changed page.
    (
        Before::Checkpoint,
        FileName::B,
        END,
        &[(4_106, b"\xff"), (8_160, &OF_CHANGED)],
        Err(Damage::BadSnapshot { file: FileName::B }),
    ),
    // The page holds another payload, and then one that has the parts of its value in another order.
    (
        Before::Checkpoint,
        FileName::B,
        END,
        &[
            (33, b"\x6b"),
            (4_105, b"\x6b"),
            (4_106, &IN_ORDER),
            (4_213, &[0; 118]),
            (8_160, &OF_IN_ORDER),
        ],
        Ok(ONE_VALUE),
    ),
    (
        Before::Checkpoint,
        FileName::B,
        END,
        &[
            (33, b"\x6b"),
            (4_105, b"\x6b"),
            (4_106, &IN_ORDER),
            (4_176, b"\x01"),
            (4_184, b"\0"),
            (4_213, &[0; 118]),
            (8_160, &OF_TURNED),
        ],
        Err(Damage::BadSnapshot { file: FileName::B }),
    ),
];

// The same of file A with the records of two groups, beside an empty file B.
static IN_GROUPS: [(usize, &[(usize, &[u8])], Result<&str, Damage>); 13] = [
    (END, &[], Ok(FOUR_POINTS)),
    // The first group has one change by its count, or three, or begins with change 0, or with 2.
    (END, &[(4_128, b"\x01")], Err(FIRST_RECORD)),
    (END, &[(4_128, b"\x03")], Err(FIRST_RECORD)),
    (END, &[(4_120, b"\0")], Err(FIRST_RECORD)),
    (END, &[(4_120, b"\x02")], Err(FIRST_RECORD)),
    // Its first line or its second is refused, or the second is a query, or `begin`.
    (END, &[(4_133, b"delete 99")], Err(FIRST_RECORD)),
    (END, &[(4_154, b"delete 99")], Err(FIRST_RECORD)),
    (
        END,
        &[(4_104, b"\x3e"), (4_150, OF_QUERY)],
        Err(FIRST_RECORD),
    ),
    (
        END,
        &[(4_104, b"\x3e"), (4_150, OF_BEGIN)],
        Err(FIRST_RECORD),
    ),
    // The second group begins with change 4, or is cut off, or both behind a closed gate.
    (END, &[(4_195, b"\x04")], Err(SECOND_RECORD)),
    (4_245, &[], Err(SECOND_RECORD)),
    (END, &[(4_171, b"\0"), (4_195, b"\x04")], Ok(TWO_POINTS)),
    (4_200, &[(4_171, b"\0")], Ok(TWO_POINTS)),
];

// The line `realm`, and the line `begin`, each with no step and a closed gate behind it.
const OF_QUERY: &[u8] = b"\0\0\0\x05realm\0\0\0\0\0\0\0\0\0";

const OF_BEGIN: &[u8] = b"\0\0\0\x05begin\0\0\0\0\0\0\0\0\0";

// One of two files is changed.
fn change_one(
    a: &mut Vec<u8>,
    b: &mut Vec<u8>,
    file: FileName,
    cut: usize,
    puts: &[(usize, &[u8])],
) {
    match file {
        FileName::A => change(a, cut, puts),
        FileName::B => change(b, cut, puts),
    }
}

// The word `check` gives these lines of two files, or is ended by this damage.
fn look_at_files<R: Threads + Sync + Abort>(
    rt: &R,
    alloc: Global,
    a: &[u8],
    b: &[u8],
    wanted: Result<&str, Damage>,
) -> Result<(), NoMemory> {
    let (status, given) = match wanted {
        Ok(lines) => (Status::Done, lines),
        Err(damage) => (Status::Damaged(damage), ""),
    };
    let mut place = place_of_two(alloc, "", a, b, &[])?;
    let ended = run_words(rt, alloc, "check", &mut place.world)?;
    assert_eq!(rt; ended, status);
    assert_eq!(rt; place.world.given(), given.as_bytes(), "at {status:?}");
    Ok(())
}

// So it is once the one file is changed.
fn look_at_damage<R: Threads + Sync + Abort>(
    rt: &R,
    alloc: Global,
    before: Before,
    file: FileName,
    cut: usize,
    puts: &[(usize, &[u8])],
    wanted: Result<&str, Damage>,
) -> Result<(), NoMemory> {
    let (mut a, mut b) = files_before(rt, alloc, before)?;
    change_one(&mut a, &mut b, file, cut, puts);
    look_at_files(rt, alloc, &a, &b, wanted)
}

#[test]
fn damage_is_told_to_the_place(rt: HostRuntime) {
    for (before, file, cut, puts, wanted) in DAMAGES.iter() {
        let done = look_at_damage(&rt, rt.alloc(), *before, *file, *cut, puts, *wanted);
        assert!(rt; done.is_ok(), "no memory");
    }
    for (cut, puts, wanted) in IN_GROUPS.iter() {
        let (before, file) = (Before::Groups, FileName::A);
        let done = look_at_damage(&rt, rt.alloc(), before, file, *cut, puts, *wanted);
        assert!(rt; done.is_ok(), "no memory");
    }
}
