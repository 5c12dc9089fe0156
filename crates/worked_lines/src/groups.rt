//! Groups of changes: the replies, how long the files are then, and what is found in them.
use crate::file_bytes::file_of;
use crate::running::{Place, left, look, look_at_run, place_of_two};
use grid_base::NoMemory;
use outside_world::Leave;
use std::alloc::Global;
use std::process::Abort;
use std::thread::Threads;

// Lines on empty files and their replies; then how long file A and file B are, and what `check` gives of them.
static GROUPS: [(&str, &str, usize, usize, &str); 18] = [
    // A group, one that is given up, and no third.
    (
        AXES,
        AXES_REPLIES,
        4_184,
        0,
        "changes 2\noriginals 2\nvalues 0\npoints 3\npieces 2\n",
    ),
    // A group and a checkpoint are refused within a group, and the input ends there.
    (
        "begin\nbegin\ncheckpoint\npoint 1 1\n",
        "ok begin\nno in-group\nno in-group\nok 1 steps 0 first 1 new 0\n",
        0,
        0,
        NOTHING,
    ),
    // Groups without a change.
    (
        "begin\ncommit\nbegin\nrealm\ncommit\n",
        "ok begin\nok commit 0\nok begin\nrealm 0 0\nok commit 0\n",
        0,
        0,
        NOTHING,
    ),
    // The number of a change, its id and its trace come again.
    (
        "point 1 1\nbegin\nsegment 0 0 10 4\nsegment 6 0 6 9\ntrace 3\nabandon\ntrace 3\ntrace 1\nsegment 0 0 4 0\n",
        "ok 1 steps 0 first 1 new 0\nok begin\nok 2 steps 0 first 1 new 1\n\
         ok 3 steps 1 first 2 new 1\ntrace 1\nmeet 0 0 10 4 6 0 6 9 6 2\nok abandon\n\
         no no-trace\ntrace 0\nok 2 steps 0 first 1 new 1\n",
        4_179,
        0,
        "changes 2\noriginals 1\nvalues 0\npoints 3\npieces 1\n",
    ),
    // What was taken away in it is there again.
    (
        "segment 0 0 4 0\nlines l 0 1 4 1\nbegin\ndelete 1\ndrop l\ndelete 2\nrealm\nabandon\nrealm\nshow l\nchain 1\n",
        "ok 1 steps 0 first 1 new 1\nok 2 steps 0 first 2 new 1\nok begin\n\
         ok 3 steps 0 first 3 new 0\nok 4 steps 0 first 3 new 0\nok 5 steps 0 first 3 new 0\n\
         realm 0 0\nok abandon\nrealm 4 2\n0 0\n0 1\n4 0\n4 1\n0 0 4 0\n0 1 4 1\n\
         lines 1\n0 1 4 1\nchain 2\n0 0\n4 0\n",
        4_185,
        0,
        "changes 2\noriginals 2\nvalues 1\npoints 4\npieces 2\n",
    ),
    // A name that was given in it is free again.
    (
        "begin\nlines l 0 0 4 0\nlines l 1 1 2 2\nlet p = vertices l\nabandon\nshow l\nshow p\nlines l 0 0 1 0\n",
        "ok begin\nok 1 steps 0 first 1 new 1\nno name-taken\nok 2 steps 0 first 2 new 0\n\
         ok abandon\nno no-name\nno no-name\nok 1 steps 0 first 1 new 1\n",
        4_141,
        0,
        "changes 1\noriginals 1\nvalues 1\npoints 2\npieces 1\n",
    ),
    // Lines that are refused don't count.
    (
        "begin\nsegment 1 1 1 1\ndelete 7\npoint 2 2\nno such\ncommit\n",
        "ok begin\nno degenerate\nno no-id\nok 1 steps 0 first 1 new 0\nno line 1\nok commit 1\n",
        4_135,
        0,
        ONE_POINT,
    ),
    // A batch is answered in the state within the group.
    (
        "segment 0 0 4 0\nbegin\nsegment 0 1 4 1\nbatch 4\nrealm\nbegin\nsegment 1 1 2 2\ntrace 2\nabandon\nbatch 1\nchain 2\n",
        "ok 1 steps 0 first 1 new 1\nok begin\nok 2 steps 0 first 2 new 1\n\
         realm 4 2\n0 0\n0 1\n4 0\n4 1\n0 0 4 0\n0 1 4 1\nno batch-change\nno batch-change\n\
         trace 0\nok abandon\nno no-id\n",
        4_141,
        0,
        "changes 1\noriginals 1\nvalues 0\npoints 2\npieces 1\n",
    ),
    (
        "begin\npoint 1 1\nbegin\nabandon\nbegin\ncommit\ncommit\n",
        "ok begin\nok 1 steps 0 first 1 new 0\nno in-group\nok abandon\nok begin\nok commit 0\n\
         no no-group\n",
        0,
        0,
        NOTHING,
    ),
    // A bad line is told first, then that a group is open or none.
    (
        "abandon\ncommit\ncheckpoint x\nbegin\ncheckpoint\nbegin x\nbatch 0\nabandon\ncheckpoint\n",
        "no no-group\nno no-group\nno line 10\nok begin\nno in-group\nno line 5\nno range\n\
         ok abandon\nok checkpoint\n",
        4_097,
        0,
        NOTHING,
    ),
    // More changes than traces are kept.
    (
        "begin\npoint 0 0\npoint 1 0\npoint 2 0\npoint 3 0\npoint 4 0\npoint 5 0\npoint 6 0\n\
         point 7 0\npoint 8 0\npoint 9 0\npoint 10 0\npoint 11 0\npoint 12 0\npoint 13 0\n\
         point 14 0\npoint 15 0\npoint 16 0\npoint 17 0\ncommit\ntrace 2\ntrace 3\ntrace 18\n",
        "ok begin\n\
         ok 1 steps 0 first 1 new 0\nok 2 steps 0 first 1 new 0\n\
         ok 3 steps 0 first 1 new 0\nok 4 steps 0 first 1 new 0\n\
         ok 5 steps 0 first 1 new 0\nok 6 steps 0 first 1 new 0\n\
         ok 7 steps 0 first 1 new 0\nok 8 steps 0 first 1 new 0\n\
         ok 9 steps 0 first 1 new 0\nok 10 steps 0 first 1 new 0\n\
         ok 11 steps 0 first 1 new 0\nok 12 steps 0 first 1 new 0\n\
         ok 13 steps 0 first 1 new 0\nok 14 steps 0 first 1 new 0\n\
         ok 15 steps 0 first 1 new 0\nok 16 steps 0 first 1 new 0\n\
         ok 17 steps 0 first 1 new 0\nok 18 steps 0 first 1 new 0\n\
         ok commit 18\nno no-trace\ntrace 0\ntrace 0\n",
        4_516,
        0,
        "changes 18\noriginals 0\nvalues 0\npoints 18\npieces 0\n",
    ),
    // A trace that sixteen changes drove out is there again.
    (
        "segment 0 0 10 4\nsegment 6 0 6 9\nbegin\npoint 0 20\npoint 1 20\npoint 2 20\npoint 3 20\n\
         point 4 20\npoint 5 20\npoint 6 20\npoint 7 20\npoint 8 20\npoint 9 20\npoint 10 20\n\
         point 11 20\npoint 12 20\npoint 13 20\npoint 14 20\npoint 15 20\ntrace 2\nabandon\ntrace 2\n",
        "ok 1 steps 0 first 1 new 1\nok 2 steps 1 first 2 new 1\nok begin\n\
         ok 3 steps 0 first 3 new 0\nok 4 steps 0 first 3 new 0\n\
         ok 5 steps 0 first 3 new 0\nok 6 steps 0 first 3 new 0\n\
         ok 7 steps 0 first 3 new 0\nok 8 steps 0 first 3 new 0\n\
         ok 9 steps 0 first 3 new 0\nok 10 steps 0 first 3 new 0\n\
         ok 11 steps 0 first 3 new 0\nok 12 steps 0 first 3 new 0\n\
         ok 13 steps 0 first 3 new 0\nok 14 steps 0 first 3 new 0\n\
         ok 15 steps 0 first 3 new 0\nok 16 steps 0 first 3 new 0\n\
         ok 17 steps 0 first 3 new 0\nok 18 steps 0 first 3 new 0\n\
         no no-trace\nok abandon\ntrace 1\nmeet 0 0 10 4 6 0 6 9 6 2\n",
        4_227,
        0,
        "changes 2\noriginals 2\nvalues 0\npoints 6\npieces 5\n",
    ),
    // The input ends within a group, once behind a line without a line feed, and once within a batch.
    (
        "point 1 1\nbegin\npoint 2 2",
        "ok 1 steps 0 first 1 new 0\nok begin\nok 2 steps 0 first 1 new 0\n",
        4_135,
        0,
        ONE_POINT,
    ),
    (
        "begin\npoint 1 1\nbatch 3\nrealm\n",
        "ok begin\nok 1 steps 0 first 1 new 0\nrealm 1 0\n1 1\n",
        0,
        0,
        NOTHING,
    ),
    // A change in it crosses another.
    (
        "begin\nsegment 0 0 3 1\nsegment 0 1 3 0\ntrace 2\ncommit\nrealm\n",
        "ok begin\nok 1 steps 0 first 1 new 1\nok 2 steps 1 first 2 new 1\n\
         trace 1\nmeet 0 0 3 1 0 1 3 0 2 1\nok commit 2\n\
         realm 5 4\n0 0\n0 1\n2 1\n3 0\n3 1\n0 0 2 1\n0 1 2 1\n2 1 3 0\n2 1 3 1\n",
        4_225,
        0,
        "changes 2\noriginals 2\nvalues 0\npoints 5\npieces 4\n",
    ),
    // A checkpoint between two groups.
    (
        "begin\npoint 1 1\npoint 2 2\ncommit\ncheckpoint\nbegin\npoint 3 3\npoint 4 4\ncommit\n",
        "ok begin\nok 1 steps 0 first 1 new 0\nok 2 steps 0 first 1 new 0\nok commit 2\n\
         ok checkpoint\nok begin\nok 3 steps 0 first 1 new 0\nok 4 steps 0 first 1 new 0\n\
         ok commit 2\n",
        4_172,
        8_268,
        "changes 4\noriginals 0\nvalues 0\npoints 4\npieces 0\n",
    ),
    // A change that takes another back is a change.
    (
        "begin\npoint 1 1\nunpoint 1 1\ncommit\nrealm\ntrace 2\n",
        "ok begin\nok 1 steps 0 first 1 new 0\nok 2 steps 0 first 1 new 0\nok commit 2\n\
         realm 0 0\ntrace 0\n",
        4_174,
        0,
        "changes 2\noriginals 0\nvalues 0\npoints 0\npieces 0\n",
    ),
    // Changes alone and groups follow one another.
    (
        "point 1 1\nbegin\npoint 2 2\npoint 3 3\ncommit\npoint 4 4\nbegin\npoint 5 5\ncommit\n",
        "ok 1 steps 0 first 1 new 0\nok begin\nok 2 steps 0 first 1 new 0\n\
         ok 3 steps 0 first 1 new 0\nok commit 2\nok 4 steps 0 first 1 new 0\nok begin\n\
         ok 5 steps 0 first 1 new 0\nok commit 1\n",
        4_286,
        0,
        "changes 5\noriginals 0\nvalues 0\npoints 5\npieces 0\n",
    ),
];

const AXES: &str = "begin\nsegment 0 0 4 0\nsegment 0 0 0 4\ncommit\n\
                    begin\nsegment 9 9 8 8\nabandon\nrealm\ncommit\n";

const AXES_REPLIES: &str = "ok begin\nok 1 steps 0 first 1 new 1\nok 2 steps 0 first 2 new 1\n\
                            ok commit 2\nok begin\nok 3 steps 0 first 3 new 1\nok abandon\n\
                            realm 3 2\n0 0\n0 4\n4 0\n0 0 0 4\n0 0 4 0\nno no-group\n";

const NOTHING: &str = "changes 0\noriginals 0\nvalues 0\npoints 0\npieces 0\n";

const ONE_POINT: &str = "changes 1\noriginals 0\nvalues 0\npoints 1\npieces 0\n";

// The files are so long, and the word `check` gives this of them.
fn look_at_files<R: Threads + Sync + Abort>(
    rt: &R,
    alloc: Global,
    before: &Place,
    sizes: (usize, usize),
    given: &str,
) -> Result<(), NoMemory> {
    let (a, b) = left(&before.world, before.world.calls(), Leave::New)?;
    assert_eq!(rt; (a.len(), b.len()), sizes, "for {given:?}");
    let mut place = place_of_two(alloc, "", &a, &b, &[])?;
    look_at_run(rt, alloc, "check", &mut place.world, given, 0)
}

// These lines get their replies, and leave files of which so much is found.
fn look_at_group<R: Threads + Sync + Abort>(
    rt: &R,
    alloc: Global,
    lines: &str,
    replies: &str,
    sizes: (usize, usize),
    given: &str,
) -> Result<(), NoMemory> {
    let place = look(rt, alloc, lines, b"", replies, 0)?;
    look_at_files(rt, alloc, &place, sizes, given)
}

#[test]
fn a_group_is_committed_or_given_up(rt: HostRuntime) {
    for (lines, replies, a, b, given) in GROUPS.iter() {
        let done = look_at_group(&rt, rt.alloc(), lines, replies, (*a, *b), given);
        assert!(rt; done.is_ok(), "no memory");
    }
}

// What stands behind the head after the first of these sessions: an open gate, and behind it the length 78, a 0, the number
// of the first change, and two changes, each with its line and no step; then the next gate.
static OF_AXES: [u8; 88] = [
    0xa5, 0x00, 0x00, 0x00, 0x00, 0x00, 0x00, 0x00, 0x4e, 0x00, 0x00, 0x00, 0x00, 0x00, 0x00, 0x00,
    0x00, 0x00, 0x00, 0x00, 0x00, 0x00, 0x00, 0x00, 0x01, 0x00, 0x00, 0x00, 0x00, 0x00, 0x00, 0x00,
    0x02, 0x00, 0x00, 0x00, 0x0f, 0x73, 0x65, 0x67, 0x6d, 0x65, 0x6e, 0x74, 0x20, 0x30, 0x20, 0x30,
    0x20, 0x34, 0x20, 0x30, 0x00, 0x00, 0x00, 0x00, 0x00, 0x00, 0x00, 0x00, 0x00, 0x00, 0x00, 0x0f,
    0x73, 0x65, 0x67, 0x6d, 0x65, 0x6e, 0x74, 0x20, 0x30, 0x20, 0x30, 0x20, 0x30, 0x20, 0x34, 0x00,
    0x00, 0x00, 0x00, 0x00, 0x00, 0x00, 0x00, 0x00,
];

// The file has this record behind its head.
fn look_at_record<R: Threads + Sync + Abort>(rt: &R, alloc: Global) -> Result<(), NoMemory> {
    let place = look(rt, alloc, AXES, b"", AXES_REPLIES, 0)?;
    let (a, _) = left(&place.world, place.world.calls(), Leave::New)?;
    let wanted = file_of(alloc, 1, b"", &OF_AXES)?;
    assert!(rt; a == wanted);
    Ok(())
}

#[test]
fn a_group_is_one_record(rt: HostRuntime) {
    assert!(rt; look_at_record(&rt, rt.alloc()).is_ok(), "no memory");
}
