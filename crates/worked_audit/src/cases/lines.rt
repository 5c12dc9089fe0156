//! Single lines behind others: one that holds, and many that are no line, or none that holds there.
use crate::cases::hearing::hears;
use std::alloc::Global;
use std::process::Abort;

// Lines in the midst of a change, before its steps. Two pieces cross in the middle of a cell and two at a grid point, and a
// point is inside a piece.
static IN_A_CHANGE: &str =
    "point 9 9|original 1 0 8 2 8|change|segment 2 0 0 1 1|segment 3 0 1 1 0|\
    segment 4 3 0 5 2|segment 5 3 2 5 0|segment 6 6 0 8 0|point 7 0";

// The beginning of a snapshot.
static OPENING: &str = "point 9 9|original 1 0 8 2 8";

// Behind the lines before, between bars, the line holds, and none of the others does.
fn compare(rt: &impl Abort, alloc: Global, before: &str, line: &str, others: &[&str]) {
    assert!(rt; hears(rt, alloc, before, line), "{line:?}");
    for other in others {
        assert!(rt; !hears(rt, alloc, before, other), "{other:?}");
    }
}

static POINTS: [&str; 26] = [
    "point",
    "point 1",
    "point 1 9 2",
    "point  1 9",
    " point 1 9",
    "point 1  9",
    "point 1 9 ",
    "point\t1 9",
    "point 1 9\r",
    "point 01 9",
    "point 1 09",
    "point 00 9",
    "point -1 9",
    "point +1 9",
    "point 1,9",
    "point 1 9x",
    "point 0x1 9",
    "point 1073741824 9",
    "point 1 1073741824",
    "point 18446744073709551617 9",
    "point 12345678901234567890 9",
    "Point 1 9",
    "points 1 9",
    "poin 1 9",
    "",
    " ",
];

#[test]
fn a_point_has_two_numbers(rt: HostRuntime) {
    compare(&rt, rt.alloc(), IN_A_CHANGE, "point 1 9", &POINTS);
}

static UNPOINTS: [&str; 10] = [
    "unpoint",
    "unpoint 9",
    "unpoint 9 9 9",
    "unpoint  9 9",
    "unpoint 9 9 ",
    "unpoint 09 9",
    "unpoint 9 09",
    "unpoint 9 1073741824",
    "unpoints 9 9",
    "unpoint 9 8",
];

#[test]
fn a_point_goes_by_two_numbers(rt: HostRuntime) {
    compare(&rt, rt.alloc(), IN_A_CHANGE, "unpoint 9 9", &UNPOINTS);
}

static ORIGINALS: [&str; 18] = [
    "original",
    "original 2",
    "original 2 0 5",
    "original 2 0 5 2",
    "original  2 0 5 2 5",
    "original 2 0 5  2 5",
    "original 2 0 5 2 5 ",
    "original 02 0 5 2 5",
    "original 2 0 05 2 5",
    "original 0 0 5 2 5",
    "original 4294967296 0 5 2 5",
    "original 2 0 5 2 1073741824",
    "original 2 1073741824 5 2 5",
    "original 2 2 5 0 5",
    "original 2 0 5 0 5",
    "original 2 0 5 2 5 2 5",
    "original 2 0 5 2 5x",
    "original x 0 5 2 5",
];

#[test]
fn an_original_has_an_id_and_two_points_or_more(rt: HostRuntime) {
    compare(&rt, rt.alloc(), OPENING, "original 2 0 5 2 5", &ORIGINALS);
}

static CHANGES: [&str; 7] = [
    "chang", "changes", "Change", "change ", "change 1", " change", "change\r",
];

#[test]
fn a_change_is_one_word(rt: HostRuntime) {
    compare(&rt, rt.alloc(), "point 9 9", "change", &CHANGES);
}

static REMOVALS: [&str; 11] = [
    "remove",
    "remove 1 1",
    "remove  1",
    "remove 1 ",
    "remove 01",
    "remove 0",
    "remove 4294967296",
    "remove 4294967295",
    "remove -1",
    "remove x",
    "remove 8",
];

#[test]
fn a_removal_has_an_id(rt: HostRuntime) {
    compare(&rt, rt.alloc(), IN_A_CHANGE, "remove 1", &REMOVALS);
}

static SEGMENTS: [&str; 17] = [
    "segment",
    "segment 7",
    "segment 7 9 0 9",
    "segment 7 9 0 9 1 2",
    "segment  7 9 0 9 1",
    "segment 7 9  0 9 1",
    "segment 7 9 0 9 1 ",
    "segment 07 9 0 9 1",
    "segment 7 9 00 9 1",
    "segment 0 9 0 9 1",
    "segment 4294967296 9 0 9 1",
    "segment 6 9 0 9 1",
    "segment 7 9 0 9 1073741824",
    "segment 7 1073741824 0 9 1",
    "segment 7 9 1 9 0",
    "segment 7 9 0 9 0",
    "segment 7 9 0 8 1",
];

#[test]
fn a_segment_has_an_id_and_its_lesser_end_first(rt: HostRuntime) {
    compare(&rt, rt.alloc(), IN_A_CHANGE, "segment 7 9 0 9 1", &SEGMENTS);
}

static SPLITS: [&str; 13] = [
    "split",
    "split 7 0",
    "split 7 0 6 0 8",
    "split 7 0 6 0 8 0 0",
    "split  7 0 6 0 8 0",
    "split 7 0 6 0 8 0 ",
    "split 07 0 6 0 8 0",
    "split 7 0 6 0 8 00",
    "split 7 0 6 0 1073741824 0",
    "split 1073741824 0 6 0 8 0",
    "split 7 0 8 0 6 0",
    "split 6 0 6 0 8 0",
    "split 7 0 6 0 9 0",
];

#[test]
fn a_split_has_a_point_and_a_segment(rt: HostRuntime) {
    compare(&rt, rt.alloc(), IN_A_CHANGE, "split 7 0 6 0 8 0", &SPLITS);
}

static MEETS: [&str; 15] = [
    "meet",
    "meet 3 0 5 2 3 2 5 0",
    "meet 3 0 5 2 3 2 5 0 4",
    "meet 3 0 5 2 3 2 5 0 4 1 1",
    "meet 3 0  5 2 3 2 5 0 4 1",
    "meet 3 0 5 2 3 2 5 0 4 1 ",
    "meet 03 0 5 2 3 2 5 0 4 1",
    "meet 3 0 5 2 3 2 5 0 4 01",
    "meet 3 0 5 2 3 2 5 0 4 1073741824",
    "meet 3 0 5 2 3 2 1073741824 0 4 1",
    "meet 5 2 3 0 3 2 5 0 4 1",
    "meet 3 0 5 2 5 0 3 2 4 1",
    "meet 3 2 5 0 3 0 5 2 4 1",
    "meet 3 0 5 2 3 2 5 0 4 2",
    "meet 0 0 1 1 0 1 1 0 0 0",
];

#[test]
fn a_meet_has_two_segments_and_a_point(rt: HostRuntime) {
    compare(
        &rt,
        rt.alloc(),
        IN_A_CHANGE,
        "meet 3 0 5 2 3 2 5 0 4 1",
        &MEETS,
    );
}

static CORNERS: [&str; 12] = [
    "corner",
    "corner 0 0 1 1",
    "corner 0 0 1 1 0 1 1",
    "corner 0 0 1 1 0 1 1 0 0",
    "corner 0 0 1 1  0 1 1 0",
    "corner 0 0 1 1 0 1 1 0 ",
    "corner 00 0 1 1 0 1 1 0",
    "corner 0 0 1 1 0 1 1 1073741824",
    "corner 1 1 0 0 0 1 1 0",
    "corner 0 0 1 1 1 0 0 1",
    "corner 0 1 1 0 0 0 1 1",
    "corner 3 0 5 2 3 2 5 0",
];

#[test]
fn a_corner_has_two_segments(rt: HostRuntime) {
    compare(
        &rt,
        rt.alloc(),
        IN_A_CHANGE,
        "corner 0 0 1 1 0 1 1 0",
        &CORNERS,
    );
}

static LAST: [&str; 7] = ["en", "ends", "End", "end ", "end 1", " end", "end\r"];

#[test]
fn the_end_is_one_word(rt: HostRuntime) {
    compare(&rt, rt.alloc(), "point 9 9", "end", &LAST);
}
