//! Lines and their replies, from empty files on.
use crate::running::look;
use std::alloc::Global;
use std::process::Abort;
use std::thread::Threads;

/// Each session gets its replies.
pub(crate) fn compare<R: Threads + Sync + Abort>(rt: &R, alloc: Global, rows: &[(&str, &str)]) {
    for (lines, replies) in rows {
        assert!(rt;
            look(rt, alloc, lines, b"", replies, 0).is_ok(),
            "no memory"
        );
    }
}

static CROSSINGS: [(&str, &str); 3] = [
    // The place of crossing is no point of the grid, and halves are rounded up.
    (
        "segment 0 0 3 1\nsegment 0 1 3 0\nrealm\n",
        "ok 1 steps 0 first 1 new 1\nok 2 steps 1 first 2 new 1\nrealm 5 4\n\
         0 0\n0 1\n2 1\n3 0\n3 1\n0 0 2 1\n0 1 2 1\n2 1 3 0\n2 1 3 1\n",
    ),
    (
        "segment 0 0 10 4\nsegment 6 0 6 9\nchain 1\nchain 2\ntrace 2\n",
        "ok 1 steps 0 first 1 new 1\nok 2 steps 1 first 2 new 1\n\
         chain 4\n0 0\n5 2\n6 2\n10 4\nchain 3\n6 0\n6 2\n6 9\n\
         trace 1\nmeet 0 0 10 4 6 0 6 9 6 2\n",
    ),
    // An end on the new segment, and a part in common.
    (
        "segment 0 0 6 0\nsegment 2 0 8 0\nrealm\n",
        "ok 1 steps 0 first 1 new 1\nok 2 steps 2 first 2 new 1\n\
         realm 4 3\n0 0\n2 0\n6 0\n8 0\n0 0 2 0\n2 0 6 0\n6 0 8 0\n",
    ),
];

#[test]
fn crossings_meet_in_a_point(rt: HostRuntime) {
    compare(&rt, rt.alloc(), &CROSSINGS);
}

static CHAINS: [(&str, &str); 5] = [
    // Two diagonals of one cell.
    (
        "segment 0 0 1 1\nsegment 0 1 1 0\nchain 1\nchain 2\ntrace 2\n",
        "ok 1 steps 0 first 1 new 1\nok 2 steps 1 first 2 new 1\n\
         chain 2\n0 0\n1 1\nchain 3\n0 1\n0 0\n1 0\ntrace 1\ncorner 0 0 1 1 0 1 1 0\n",
    ),
    (
        "segment 0 0 2 2\nsegment 0 3 3 0\nchain 1\nchain 2\n",
        "ok 1 steps 0 first 1 new 1\nok 2 steps 1 first 2 new 1\n\
         chain 3\n0 0\n1 1\n2 2\nchain 5\n0 3\n1 2\n1 1\n2 1\n3 0\n",
    ),
    (
        "segment 0 3 3 0\nsegment 0 1 3 2\nchain 1\nchain 2\ntrace 2\n",
        "ok 1 steps 0 first 1 new 1\nok 2 steps 1 first 2 new 1\n\
         chain 3\n0 3\n2 1\n3 0\nchain 3\n0 1\n2 1\n3 2\n\
         trace 1\nmeet 0 1 3 2 0 3 3 0 2 1\n",
    ),
    // Across a quarter of the grid, and the whole of it.
    (
        "segment 0 0 268435455 1\nsegment 0 1 268435455 0\nchain 1\n",
        "ok 1 steps 0 first 1 new 1\nok 2 steps 1 first 2 new 1\n\
         chain 3\n0 0\n134217728 1\n268435455 1\n",
    ),
    (
        "segment 0 0 1073741823 1\nsegment 0 1 1073741823 0\nchain 1\n",
        "ok 1 steps 0 first 1 new 1\nok 2 steps 1 first 2 new 1\n\
         chain 3\n0 0\n536870912 1\n1073741823 1\n",
    ),
];

#[test]
fn chains_go_round_what_is_near(rt: HostRuntime) {
    compare(&rt, rt.alloc(), &CHAINS);
}

static POINTS: [(&str, &str); 3] = [
    // A segment is led by a point inside it.
    (
        "point 3 0\nsegment 0 0 6 0\nchain 1\n",
        "ok 1 steps 0 first 1 new 0\nok 2 steps 1 first 1 new 1\nchain 3\n0 0\n3 0\n6 0\n",
    ),
    // A point twice is a change twice.
    (
        "point 1 1\npoint 1 1\ntrace 2\n",
        "ok 1 steps 0 first 1 new 0\nok 2 steps 0 first 1 new 0\ntrace 0\n",
    ),
    // The last line needs no line feed.
    (
        "point 1073741823 1073741823\npoint 1073741824 0\nsegment 5 5 5 5",
        "ok 1 steps 0 first 1 new 0\nno range\nno degenerate\n",
    ),
];

#[test]
fn points_are_made_explicit(rt: HostRuntime) {
    compare(&rt, rt.alloc(), &POINTS);
}

static GOING: [(&str, &str); 3] = [
    // A piece stays where another original has it.
    (
        "segment 0 0 4 0\nsegment 4 0 0 0\ndelete 1\nrealm\n",
        "ok 1 steps 0 first 1 new 1\nok 2 steps 0 first 2 new 1\nok 3 steps 0 first 3 new 0\n\
         realm 2 1\n0 0\n4 0\n0 0 4 0\n",
    ),
    // A point stays where a chain has it.
    (
        "segment 0 0 6 0\npoint 3 0\npoint 3 1\nunpoint 3 0\nunpoint 3 0\nrealm\n",
        "ok 1 steps 0 first 1 new 1\nok 2 steps 1 first 2 new 0\nok 3 steps 0 first 2 new 0\n\
         ok 4 steps 0 first 2 new 0\nno no-point\n\
         realm 4 2\n0 0\n3 0\n3 1\n6 0\n0 0 3 0\n3 0 6 0\n",
    ),
    // The originals of a value stay when its name goes, and no id comes twice.
    (
        "lines l 0 0 4 0\nlines l 0 0 1 1\ndelete 1\ndrop l\ndelete 1\ndelete 1\nshow l\ntrace 9\n",
        "ok 1 steps 0 first 1 new 1\nno name-taken\nno in-use\nok 2 steps 0 first 2 new 0\n\
         ok 3 steps 0 first 2 new 0\nno no-id\nno no-name\nno no-trace\n",
    ),
];

#[test]
fn what_is_taken_away_goes_alone(rt: HostRuntime) {
    compare(&rt, rt.alloc(), &GOING);
}

static VALUES: [(&str, &str); 4] = [
    // Both long sides bend to one point, and the piece that they share is no border.
    (
        "regions r 0 0 5 1 5 2\nnum area2 r\nsegment 3 0 3 5\nshow r\nnum area2 r\n",
        "ok 1 steps 0 first 1 new 3\nnum 5\nok 2 steps 2 first 4 new 1\n\
         regions 3\n3 1 5 1\n3 1 5 2\n5 1 5 2\nnum 2\n",
    ),
    // A side that two squares share is drawn twice, and a piece of lines too.
    (
        "regions r 0 0 2 0 2 2 0 2 ; 2 0 4 0 4 2 2 2\nlines l 0 0 2 0 2 2 ; 2 2 2 0\nshow r\nshow l\n",
        "ok 1 steps 0 first 1 new 8\nok 2 steps 0 first 9 new 3\n\
         regions 6\n0 0 0 2\n0 0 2 0\n0 2 2 2\n2 0 4 0\n2 2 4 2\n4 0 4 2\n\
         lines 2\n0 0 2 0\n2 0 2 2\n",
    ),
    (
        "lines l 4 0 0 0 ; 0 2 1 2\nsegment 2 0 2 3\nshow l\n",
        "ok 1 steps 0 first 1 new 2\nok 2 steps 1 first 3 new 1\n\
         lines 3\n0 0 2 0\n0 2 1 2\n2 0 4 0\n",
    ),
    // A name that was dropped is free.
    (
        "points p 8 1 3 4\nshow p\ndrop p\nregions p\nshow p\n",
        "ok 1 steps 0 first 1 new 0\npoints 2\n3 4\n8 1\nok 2 steps 0 first 1 new 0\n\
         ok 3 steps 0 first 1 new 0\nregions 0\n",
    ),
];

#[test]
fn values_are_shown_as_they_are_drawn(rt: HostRuntime) {
    compare(&rt, rt.alloc(), &VALUES);
}

static COMBINED: [(&str, &str); 5] = [
    // Two squares that overlap.
    (
        "regions a 0 0 4 0 4 4 0 4\nregions b 2 2 6 2 6 6 2 6\neval intersection a b\neval plus a b\n\
         eval minus a b\neval minus b a\neval minus a a\neval contour c\n",
        "ok 1 steps 0 first 1 new 4\nok 2 steps 2 first 5 new 4\n\
         regions 4\n2 2 2 4\n2 2 4 2\n2 4 4 4\n4 2 4 4\n\
         regions 8\n0 0 0 4\n0 0 4 0\n0 4 2 4\n2 4 2 6\n2 6 6 6\n4 0 4 2\n4 2 6 2\n6 2 6 6\n\
         regions 6\n0 0 0 4\n0 0 4 0\n0 4 2 4\n2 2 2 4\n2 2 4 2\n4 0 4 2\n\
         regions 6\n2 4 2 6\n2 4 4 4\n2 6 6 6\n4 2 4 4\n4 2 6 2\n6 2 6 6\nregions 0\nno no-name\n",
    ),
    // Two parcels and a road, which cuts the side that they share for both of them.
    (
        "regions p 0 0 100 0 100 60 0 60\nregions q 100 0 180 0 180 60 100 60\n\
         lines road 0 30 180 30\nnum area2 p\nask adjacent p q\n\
         eval intersection p road\neval common_border p q\npoints wells 100 30 50 50\n\
         eval vertices road\neval contour p\neval minus wells wells\neval intersection road p\n\
         eval contour road\neval contour lake\neval plus road lake\neval plus lake road\n",
        "ok 1 steps 0 first 1 new 4\nok 2 steps 0 first 5 new 4\nok 3 steps 3 first 9 new 1\n\
         num 12000\ntrue\nlines 1\n0 30 100 30\nlines 2\n100 0 100 30\n100 30 100 60\n\
         ok 4 steps 0 first 10 new 0\npoints 3\n0 30\n100 30\n180 30\n\
         lines 6\n0 0 0 30\n0 0 100 0\n0 30 0 60\n0 60 100 60\n100 0 100 30\n100 30 100 60\n\
         points 0\nno types\nno types\nno no-name\nno no-name\nno no-name\n",
    ),
    // The squares again: what is made has a name, and is drawn already.
    (
        "regions a 0 0 4 0 4 4 0 4\nregions b 2 2 6 2 6 6 2 6\nlet c = intersection a b\nlet d = plus a b\n\
         let e = minus a b\ntrace 5\ndelete 9\nshow c\n\
         num area2 c\nnum area2 d\nnum area2 e\n",
        "ok 1 steps 0 first 1 new 4\nok 2 steps 2 first 5 new 4\nok 3 steps 0 first 9 new 4\n\
         ok 4 steps 0 first 13 new 8\nok 5 steps 0 first 21 new 6\ntrace 0\nno in-use\n\
         regions 4\n2 2 2 4\n2 2 4 2\n2 4 4 4\n4 2 4 4\nnum 8\nnum 56\nnum 24\n",
    ),
    // A square with a diagonal that leads out of it: the square alone is shut in.
    (
        "lines l 0 0 4 0 4 4 0 4 0 0 ; 4 4 6 6\neval interior l\neval vertices l\nlet i = interior l\n\
         show i\nlet i = interior m\neval interior i\n",
        "ok 1 steps 0 first 1 new 5\nregions 4\n0 0 0 4\n0 0 4 0\n0 4 4 4\n4 0 4 4\n\
         points 5\n0 0\n0 4\n4 0\n4 4\n6 6\nok 2 steps 0 first 6 new 4\n\
         regions 4\n0 0 0 4\n0 0 4 0\n0 4 4 4\n4 0 4 4\nno name-taken\nno types\n",
    ),
    // A name that is there, one that isn't, and a kind that isn't taken, of which the first is told.
    (
        "lines l 0 0 3 0\nlet l = plus m m\nlet q = plus q q\nlet q = contour l\nlet q = vertices l\nshow q\n",
        "ok 1 steps 0 first 1 new 1\nno name-taken\nno no-name\nno types\nok 2 steps 0 first 2 new 0\n\
         points 2\n0 0\n3 0\n",
    ),
];

#[test]
fn values_are_combined(rt: HostRuntime) {
    compare(&rt, rt.alloc(), &COMBINED);
}

static ASKED: [(&str, &str); 6] = [
    // A square with a square hole, and the square that fills the hole.
    (
        "regions a 0 0 10 0 10 10 0 10 ; 4 4 6 4 6 6 4 6\nregions b 4 4 6 4 6 6 4 6\n\
         num area2 a\nask adjacent a b\nask area_disjoint a b\nask encloses a b\n",
        "ok 1 steps 0 first 1 new 8\nok 2 steps 0 first 9 new 4\nnum 192\ntrue\ntrue\ntrue\n",
    ),
    // The same two, and others.
    (
        "regions a 0 0 10 0 10 10 0 10 ; 4 4 6 4 6 6 4 6\nregions b 4 4 6 4 6 6 4 6\nregions none\n\
         lines l 0 0 10 0\npoints p 20 20 23 24\npoints q 26 28\nnum diameter2 a\nnum diameter2 p\n\
         num dist2 p q\nnum dist2 l m\nask encloses b a\nask on_border_of l a\n",
        "ok 1 steps 0 first 1 new 8\nok 2 steps 0 first 9 new 4\nok 3 steps 0 first 13 new 0\n\
         ok 4 steps 0 first 13 new 1\nok 5 steps 0 first 14 new 0\nok 6 steps 0 first 14 new 0\n\
         num 200\nnum 25\nnum 25\nno no-name\nfalse\ntrue\n",
    ),
    // Two squares with a corner in common.
    (
        "regions a 0 0 2 0 2 2 0 2\nregions b 2 2 4 2 4 4 2 4\nask meets a b\nask adjacent a b\n\
         let c = plus a b\nnum no_of_components c\nnum area2 c\n",
        "ok 1 steps 0 first 1 new 4\nok 2 steps 0 first 5 new 4\ntrue\nfalse\n\
         ok 3 steps 0 first 9 new 8\nnum 2\nnum 16\n",
    ),
    // Triangles with sides 3, 4 and 5.
    (
        "points p 0 0 3 4\npoints q 6 8\nnum dist2 p q\nnum diameter2 p\nnum no_of_components p\n",
        "ok 1 steps 0 first 1 new 0\nok 2 steps 0 first 1 new 0\nnum 25\nnum 25\nnum 2\n",
    ),
    // Nothing at all.
    (
        "regions e\nnum area2 e\nnum diameter2 e\n",
        "ok 1 steps 0 first 1 new 0\nnum 0\nnum none\n",
    ),
    // A name that isn't there is told before a kind that isn't taken.
    (
        "lines l 0 0 3 0\nask inside l l\nask inside l m\nnum area2 l\nnum dist2 m l\nnum no_of_components l\n",
        "ok 1 steps 0 first 1 new 1\nno types\nno no-name\nno types\nno no-name\nnum 1\n",
    ),
];

#[test]
fn values_are_asked_about(rt: HostRuntime) {
    compare(&rt, rt.alloc(), &ASKED);
}

static OUTLINED: [(&str, &str); 7] = [
    // A square with a square hole.
    (
        "regions a 0 0 10 0 10 10 0 10 ; 4 4 6 4 6 6 4 6\nfaces a\n",
        "ok 1 steps 0 first 1 new 8\nfaces 1\nouter 0 0 10 0 10 10 0 10\nhole 4 4 4 6 6 6 6 4\n",
    ),
    // A hole that touches the outer cycle in a corner.
    (
        "regions a 0 0 10 0 10 10 0 10 ; 0 0 4 2 2 4\nfaces a\n",
        "ok 1 steps 0 first 1 new 7\nfaces 1\nouter 0 0 10 0 10 10 0 10\nhole 0 0 2 4 4 2\n",
    ),
    // Two holes that touch in a corner.
    (
        "regions a 0 0 9 0 9 9 0 9 ; 4 4 6 4 6 6 4 6 ; 2 2 4 2 4 4 2 4\nfaces a\n",
        "ok 1 steps 0 first 1 new 12\nfaces 1\nouter 0 0 9 0 9 9 0 9\n\
         hole 2 2 2 4 4 4 4 2\nhole 4 4 4 6 6 6 6 4\n",
    ),
    // An island in a hole.
    (
        "regions a 5 5 7 5 7 7 5 7 ; 0 0 12 0 12 12 0 12 ; 3 3 9 3 9 9 3 9\nfaces a\n",
        "ok 1 steps 0 first 1 new 12\nfaces 2\nouter 0 0 12 0 12 12 0 12\n\
         hole 3 3 3 9 9 9 9 3\nouter 5 5 7 5 7 7 5 7\n",
    ),
    // Two squares with a corner in common.
    (
        "regions a 2 2 4 2 4 4 2 4 ; 0 0 2 0 2 2 0 2\nfaces a\n",
        "ok 1 steps 0 first 1 new 8\nfaces 2\nouter 0 0 2 0 2 2 0 2\nouter 2 2 4 2 4 4 2 4\n",
    ),
    // A vertex where the border goes straight on.
    (
        "regions a 0 0 4 0 4 4 0 4\npoint 2 0\nfaces a\n",
        "ok 1 steps 0 first 1 new 4\nok 2 steps 1 first 5 new 0\nfaces 1\nouter 0 0 2 0 4 0 4 4 0 4\n",
    ),
    // Nothing, no region, and no value.
    (
        "regions e\nlines l 0 0 4 0\nfaces e\nfaces l\nfaces m\n",
        "ok 1 steps 0 first 1 new 0\nok 2 steps 0 first 1 new 1\nfaces 0\nno types\nno no-name\n",
    ),
];

#[test]
fn faces_are_outlined(rt: HostRuntime) {
    compare(&rt, rt.alloc(), &OUTLINED);
}

static CAUSES: [(&str, &str); 6] = [
    (
        "point 1073741823 1073741823\npoint 1073741824 0\nsegment 5 5 5 5\nlines l 1 1\n",
        "ok 1 steps 0 first 1 new 0\nno range\nno degenerate\nno shape\n",
    ),
    // Each of these has the causes of two refusals, and the earlier one is told.
    (
        "lines l 1073741824 0\nregions r 0 0 0 0\nlines l 0 0 4 0\nlines l 1 1 1 1\n",
        "no range\nno shape\nok 1 steps 0 first 1 new 1\nno degenerate\n",
    ),
    // The last place and the first are neighbours round a cycle.
    ("regions r 0 0 4 0 0 0\n", "no degenerate\n"),
    (
        "points p 1 1\nunpoint 1 1\nunpoint 2 2\ndrop l\ndelete 1\nrealm\n",
        "ok 1 steps 0 first 1 new 0\nno in-use\nno no-point\nno no-name\nno no-id\nrealm 1 0\n1 1\n",
    ),
    // The id is 1 in 32 bits.
    (
        "segment 0 0 1 0\nchain 2\nchain 4294967297\ndelete 4294967297\n",
        "ok 1 steps 0 first 1 new 1\nno no-id\nno no-id\nno no-id\n",
    ),
    (
        "chain 1\ntrace 1\nshow l\n",
        "no no-id\nno no-trace\nno no-name\n",
    ),
];

#[test]
fn the_first_cause_refuses(rt: HostRuntime) {
    compare(&rt, rt.alloc(), &CAUSES);
}

static REFUSED: [(&str, &str); 4] = [
    ("", ""),
    (
        "segment 0 0 10\nsegment 01 0 1 1\npointx\n\nrealm\r\nlet p = contour q r\n",
        "no line 14\nno line 9\nno line 5\nno line 0\nno line 5\nno line 17\n",
    ),
    // The longest numbers that can be written, and one digit more.
    (
        "segment 9999999999999999999 9999999999999999999 9999999999999999999 9999999999999999999\n\
         chain 10000000000000000000\n",
        "no range\nno line 25\n",
    ),
    // Whatever else is wrong with these lines.
    (
        "faces a\nbatch 1\ncheckpoint\n",
        "no no-name\nno batch-change\n",
    ),
];

#[test]
fn other_lines_are_refused(rt: HostRuntime) {
    compare(&rt, rt.alloc(), &REFUSED);
}

static BATCHES: [(&str, &str); 4] = [
    // A change isn't made in a batch, and the line behind the batch is answered alone.
    (
        "segment 0 0 4 0\nbatch 3\nrealm\nsegment 1 1 2 2\nchain 1\nrealm\n",
        "ok 1 steps 0 first 1 new 1\nrealm 2 1\n0 0\n4 0\n0 0 4 0\nno batch-change\n\
         chain 2\n0 0\n4 0\nrealm 2 1\n0 0\n4 0\n0 0 4 0\n",
    ),
    (
        "batch 0\nbatch 65\nrealm\n",
        "no range\nno range\nrealm 0 0\n",
    ),
    // The input ends within a batch, once behind a line without a line feed.
    (
        "batch 64\nrealm\nbatch 2\nchain 1",
        "realm 0 0\nno batch-change\nno no-id\n",
    ),
    ("batch 2\n\nrealmx\nbatch 1\n", "no line 0\nno line 5\n"),
];

#[test]
fn the_lines_of_a_batch_are_answered_in_order(rt: HostRuntime) {
    compare(&rt, rt.alloc(), &BATCHES);
}

// Seventeen changes, and the traces of the first two.
static TRACES: [(&str, &str); 1] = [(
    "point 1 0\npoint 2 0\npoint 3 0\npoint 4 0\npoint 5 0\npoint 6 0\npoint 7 0\n\
     point 8 0\npoint 9 0\npoint 10 0\npoint 11 0\npoint 12 0\npoint 13 0\n\
     point 14 0\npoint 15 0\npoint 16 0\npoint 17 0\ntrace 1\ntrace 2\n",
    "ok 1 steps 0 first 1 new 0\nok 2 steps 0 first 1 new 0\n\
     ok 3 steps 0 first 1 new 0\nok 4 steps 0 first 1 new 0\n\
     ok 5 steps 0 first 1 new 0\nok 6 steps 0 first 1 new 0\n\
     ok 7 steps 0 first 1 new 0\nok 8 steps 0 first 1 new 0\n\
     ok 9 steps 0 first 1 new 0\nok 10 steps 0 first 1 new 0\n\
     ok 11 steps 0 first 1 new 0\nok 12 steps 0 first 1 new 0\n\
     ok 13 steps 0 first 1 new 0\nok 14 steps 0 first 1 new 0\n\
     ok 15 steps 0 first 1 new 0\nok 16 steps 0 first 1 new 0\n\
     ok 17 steps 0 first 1 new 0\n\
     no no-trace\ntrace 0\n",
)];

#[test]
fn sixteen_traces_are_kept(rt: HostRuntime) {
    compare(&rt, rt.alloc(), &TRACES);
}
