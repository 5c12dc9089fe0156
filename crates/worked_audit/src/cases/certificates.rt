//! Whole certificates, their lines between bars, and the verdict on each.
use crate::cases::hearing::look_at_all;

static CORNERS: [(&str, &str); 5] = [
    // The falling one goes round the lower left corner of the cell.
    (
        "change|segment 1 0 0 1 1|change|segment 2 0 1 1 0|corner 0 0 1 1 0 1 1 0|end",
        "sound 2 1",
    ),
    (
        "change|segment 1 0 0 1 1|change|segment 2 0 1 1 0|end",
        "unsound 5",
    ),
    (
        "change|segment 1 0 0 1 1|change|segment 2 0 1 1 0|meet 0 0 1 1 0 1 1 0 0 0|end",
        "unsound 5",
    ),
    // The rising one comes first.
    (
        "change|segment 1 0 0 1 1|change|segment 2 0 1 1 0|corner 0 1 1 0 0 0 1 1|end",
        "unsound 5",
    ),
    // Both are cut in the middle cell.
    (
        "change|segment 1 0 0 3 3|segment 2 0 3 3 0|corner 0 0 3 3 0 3 3 0|end",
        "sound 1 1",
    ),
];

#[test]
fn diagonals_that_cross_in_a_cell_go_round_its_corner(rt: HostRuntime) {
    look_at_all(&rt, rt.alloc(), &CORNERS);
}

static CROSSINGS: [(&str, &str); 3] = [
    (
        "original 1 0 0 10 4|change|segment 2 6 0 6 9|meet 0 0 10 4 6 0 6 9 6 2|end",
        "sound 1 1",
    ),
    (
        "original 1 0 0 10 4|change|segment 2 6 0 6 9|meet 0 0 10 4 6 0 6 9 6 3|end",
        "unsound 4",
    ),
    // Named with the greater piece first.
    (
        "original 1 0 0 10 4|change|segment 2 6 0 6 9|meet 6 0 6 9 0 0 10 4 6 2|end",
        "unsound 4",
    ),
];

#[test]
fn a_crossing_off_the_grid_is_rounded(rt: HostRuntime) {
    look_at_all(&rt, rt.alloc(), &CROSSINGS);
}

static CHAINS: [(&str, &str); 7] = [
    // The grid point (5, 2) lies on the original.
    ("original 1 0 0 5 2 6 2 10 4|end", "sound 0 0"),
    ("original 1 0 0 6 2 10 4|end", "unsound 1"),
    // Round the lower left corner of a cell, and round the upper right one.
    ("original 1 0 1 0 0 1 0|end", "sound 0 0"),
    ("original 1 0 1 1 1 1 0|end", "unsound 1"),
    // A chain turns back, stands still, or ends before it begins.
    ("original 1 0 0 2 1 1 1 3 1|end", "unsound 1"),
    ("original 1 0 0 2 1 2 1 4 2|end", "unsound 1"),
    ("original 1 4 2 2 1 0 0|end", "unsound 1"),
];

#[test]
fn a_chain_passes_no_grid_point(rt: HostRuntime) {
    look_at_all(&rt, rt.alloc(), &CHAINS);
}

static VIOLATIONS: [(&str, &str); 7] = [
    ("original 1 0 0 2 2|original 2 0 2 2 0|end", "unsound 3"),
    (
        "original 1 0 0 2 2|original 2 0 2 2 0|change|end",
        "unsound 3",
    ),
    ("point 1 1|original 1 0 0 2 2|change", "unsound 3"),
    ("point 1 1|original 1 0 0 3 3|end", "unsound 3"),
    // The steps of one change don't make up for those of another.
    (
        "change|segment 1 0 0 4 4|segment 2 0 4 4 0|change|meet 0 0 4 4 0 4 4 0 2 2|end",
        "unsound 4",
    ),
    // A violation that a change has taken away again.
    (
        "change|segment 1 0 0 4 4|segment 2 0 4 4 0|remove 1|change|end",
        "sound 2 0",
    ),
    (
        "point 1 1|original 1 4 0 5 0|change|segment 2 0 0 2 2|unpoint 1 1|end",
        "sound 1 0",
    ),
];

#[test]
fn no_violation_passes_a_change_or_the_end(rt: HostRuntime) {
    look_at_all(&rt, rt.alloc(), &VIOLATIONS);
}

static OWNERS: [(&str, &str); 5] = [
    // Two originals with one piece. The one that is removed leaves it to the other, a segment
    // along it has it again, and a step redraws all that have it.
    (
        "point 2 2|point 6 1|original 1 0 0 4 0|original 2 0 0 4 0|original 5 0 3 4 3|change|\
         remove 1|change|segment 6 0 0 4 0|change|segment 7 2 0 2 1|split 2 0 0 0 4 0|change|\
         remove 2|remove 6|segment 8 0 0 4 0|split 2 0 0 0 4 0|change|unpoint 6 1|\
         segment 9 5 1 7 1|end",
        "sound 5 2",
    ),
    (
        "original 1 0 0 4 0|original 2 0 0 4 0|change|remove 1|segment 3 2 0 2 1|\
         split 2 0 0 0 4 0|end",
        "sound 1 1",
    ),
    // The last owner is removed, and no step finds the piece.
    (
        "original 1 0 0 4 0|original 2 0 0 4 0|change|remove 1|remove 2|segment 3 2 0 2 1|\
         split 2 0 0 0 4 0|end",
        "unsound 7",
    ),
    // Both owners are redrawn, and none is left to be split.
    (
        "original 1 0 0 4 0|original 2 0 0 4 0|change|point 2 0|split 2 0 0 0 4 0|\
         split 2 0 0 0 4 0|end",
        "unsound 6",
    ),
    // One owner has the piece within a longer chain.
    (
        "original 1 0 0 4 0|original 2 0 0 4 0 6 0|change|point 2 0|split 2 0 0 0 4 0|end",
        "sound 1 1",
    ),
];

#[test]
fn a_piece_stays_as_long_as_an_original_has_it(rt: HostRuntime) {
    look_at_all(&rt, rt.alloc(), &OWNERS);
}

static POINTS: [(&str, &str); 5] = [
    (
        "original 1 0 0 2 1|change|point 2 1|change|remove 1|change|segment 2 1 1 3 1|\
         split 2 1 1 1 3 1|end",
        "sound 3 1",
    ),
    // A vertex that isn't explicit, and one that goes with its segments.
    ("original 1 0 0 2 1|change|unpoint 2 1|end", "unsound 3"),
    (
        "original 1 0 0 2 1|change|remove 1|change|segment 2 1 1 3 1|split 2 1 1 1 3 1|end",
        "unsound 6",
    ),
    ("point 6 8|change|point 6 8|end", "unsound 3"),
    (
        "point 1 2|change|unpoint 1 2|point 1 2|unpoint 1 2|unpoint 1 2|end",
        "unsound 6",
    ),
];

#[test]
fn an_explicit_point_stays_where_its_segments_go(rt: HostRuntime) {
    look_at_all(&rt, rt.alloc(), &POINTS);
}

static IDS: [(&str, &str); 6] = [
    (
        "change|segment 1 0 0 2 2|change|remove 1|segment 1 0 0 1 1|end",
        "unsound 5",
    ),
    ("original 2 0 0 2 1|original 1 0 5 2 5|end", "unsound 2"),
    ("original 2 0 0 2 1|original 2 0 5 2 5|end", "unsound 2"),
    (
        "original 1 0 0 2 1|original 3 0 5 2 5|change|segment 2 7 7 8 8|end",
        "unsound 4",
    ),
    (
        "change|segment 1 0 0 2 2|change|remove 1|remove 1|end",
        "unsound 5",
    ),
    // The greatest id there is.
    (
        "original 1 0 0 2 1|original 4294967294 0 5 2 5|change|segment 4294967295 7 7 8 8|end",
        "sound 1 0",
    ),
];

#[test]
fn ids_rise_and_none_comes_again(rt: HostRuntime) {
    look_at_all(&rt, rt.alloc(), &IDS);
}

static PLACES: [(&str, &str); 10] = [
    // Originals before all changes, and steps, removals and segments in a change.
    (
        "original 1 0 1 4 1|change|original 2 6 5 8 3|end",
        "unsound 3",
    ),
    (
        "point 1 1|original 1 0 0 2 2|split 1 1 0 0 2 2|end",
        "unsound 3",
    ),
    ("original 1 0 0 2 2|remove 1|end", "unsound 2"),
    ("segment 1 0 0 1 1|end", "unsound 1"),
    ("point 1 2|unpoint 1 2|end", "unsound 2"),
    // Nothing comes or goes behind a step of the same change.
    (
        "original 1 0 0 3 3|change|point 1 1|split 1 1 0 0 3 3|point 5 5|end",
        "unsound 5",
    ),
    (
        "original 1 0 0 3 3|change|point 1 1|split 1 1 0 0 3 3|unpoint 1 1|end",
        "unsound 5",
    ),
    (
        "original 1 0 0 3 3|change|point 1 1|split 1 1 0 0 3 3|segment 2 5 5 6 6|end",
        "unsound 5",
    ),
    (
        "original 1 0 0 3 3|change|point 1 1|split 1 1 0 0 3 3|remove 1|end",
        "unsound 5",
    ),
    (
        "original 1 0 0 3 3|change|point 1 1|split 1 1 0 0 3 3|change|point 5 5|end",
        "sound 2 1",
    ),
];

#[test]
fn a_line_stands_where_it_may(rt: HostRuntime) {
    look_at_all(&rt, rt.alloc(), &PLACES);
}

static ENDS: [(&str, &str); 9] = [
    ("end", "sound 0 0"),
    ("change|change|change|end", "sound 3 0"),
    ("end|end", "unsound 2"),
    ("end|point 1 1", "unsound 2"),
    ("end|", "unsound 2"),
    ("end|change|end", "unsound 2"),
    ("change|point 3 0", "unsound 3"),
    ("point 3 0", "unsound 2"),
    // What fails first decides.
    ("change|remove 1|remove 1", "unsound 2"),
];

#[test]
fn the_end_is_the_last_line_and_has_to_come(rt: HostRuntime) {
    look_at_all(&rt, rt.alloc(), &ENDS);
}

static LONGEST: [(&str, &str); 4] = [
    (
        "change|segment 1 0 0 1073741823 1073741823|segment 2 0 1073741823 1073741823 0|end",
        "unsound 4",
    ),
    (
        "change|segment 1 0 0 1073741823 1|segment 2 1073741822 0 1073741822 5|end",
        "unsound 4",
    ),
    (
        "change|point 536870911 536870911|segment 1 0 0 1073741822 1073741822|change",
        "unsound 4",
    ),
    (
        "change|segment 1 0 0 1073741822 1073741822|change|point 536870910 536870911|end",
        "sound 2 0",
    ),
];

#[test]
fn the_longest_pieces_are_found(rt: HostRuntime) {
    look_at_all(&rt, rt.alloc(), &LONGEST);
}

static STEPS: [(&str, &str); 7] = [
    (
        "change|segment 1 5 7 7 1|segment 2 1 4 7 1|change|segment 3 0 4 7 4|\
         meet 0 4 7 4 5 7 7 1 6 4|split 1 4 0 4 6 4|change|segment 4 2 1 7 5|segment 5 2 1 7 0|\
         segment 6 7 0 7 5|split 7 4 7 0 7 5|split 7 1 7 0 7 4|meet 1 4 7 1 2 1 7 5 4 3|\
         meet 4 3 7 5 5 7 6 4 6 4|change|segment 7 3 6 6 7|meet 3 6 6 7 5 7 6 4 5 7|end",
        "sound 4 7",
    ),
    (
        "change|change|point 1 0|change|segment 1 0 8 4 7|change|segment 2 2 1 3 8|\
         meet 0 8 4 7 2 1 3 8 3 7|change|point 7 5|change|segment 3 3 1 8 3|change|\
         segment 4 3 0 5 4|meet 3 0 5 4 3 1 8 3 4 1|change|segment 5 3 1 8 8|segment 6 3 1 4 3|\
         segment 7 4 3 8 8|meet 3 1 8 8 4 2 5 4 5 3|split 4 2 3 1 5 3|end",
        "sound 8 4",
    ),
    (
        "point 2 2|original 1 7 1 8 0|change|segment 2 4 2 4 8|change|segment 3 1 1 4 8|change|\
         segment 4 0 8 4 7|split 4 7 4 2 4 8|meet 0 8 4 7 1 1 4 8 4 7|change|point 7 8|change|\
         point 0 6|change|segment 5 3 7 6 1|meet 1 1 4 7 3 7 6 1 4 6|split 4 5 4 2 4 7|\
         split 4 6 4 5 4 7|change|segment 6 3 0 4 8|meet 3 0 4 8 3 7 4 6 4 6|split 4 7 4 6 4 8|\
         end",
        "sound 7 7",
    ),
    (
        "original 1 1 2 2 3|original 2 2 6 7 5 8 5|original 3 7 8 7 5 8 0|change|point 7 2|end",
        "sound 1 0",
    ),
    (
        "point 1 7|point 3 7|point 7 6|original 1 0 2 6 0|original 2 1 2 5 3|end",
        "sound 0 0",
    ),
    (
        "original 1 1 4 8 3|change|point 0 0|change|segment 2 7 2 7 5|meet 1 4 8 3 7 2 7 5 7 3|\
         change|segment 3 3 7 4 3|meet 1 4 7 3 3 7 4 3 4 4|change|segment 4 1 5 7 8|end",
        "unsound 12",
    ),
    (
        "change|segment 1 0 1 5 3|change|segment 2 3 3 6 1|meet 0 1 5 3 3 3 6 1 4 3|change|\
         segment 3 0 1 4 7|end",
        "sound 3 1",
    ),
];

#[test]
fn steps_settle_one_change_after_another(rt: HostRuntime) {
    look_at_all(&rt, rt.alloc(), &STEPS);
}

static SNAPSHOTS: [(&str, &str); 3] = [
    (
        "point 2 5|point 2 8|point 4 6|original 4 3 7 4 6 5 5 8 3|original 6 0 1 2 0|\
         original 10 0 2 5 3 7 3|original 11 6 5 8 6|original 13 4 2 5 0|\
         original 15 3 4 5 3 8 1|change|remove 4|segment 17 1 0 2 1|segment 19 0 3 8 4|\
         meet 0 1 2 0 1 0 2 1 1 0|meet 0 3 8 4 3 4 5 3 4 4|change|remove 10|segment 20 3 0 4 4|\
         segment 21 2 4 4 5|end",
        "sound 2 2",
    ),
    (
        "original 1 2 7 6 4 7 3|original 2 1 7 2 5 3 4 4 2|\
         original 3 0 6 2 5 3 4 4 4 5 3 6 3 7 2|original 4 0 3 1 1 1 0|\
         original 8 0 1 1 1 2 1 3 2 4 2 5 3 6 4 7 4|original 10 1 4 3 4 5 3|\
         original 11 1 4 4 2 6 1|original 13 0 3 2 1 3 0|original 14 6 1 6 3 6 4 6 6|\
         original 16 1 4 3 4 4 5|change|remove 14|segment 18 5 7 6 0|segment 20 0 2 7 3|\
         meet 0 2 7 3 0 3 1 1 0 2|meet 0 2 7 3 0 3 2 1 1 2|meet 1 2 7 3 1 4 4 2 3 2|\
         meet 2 7 6 4 5 7 6 0 5 4|split 4 5 2 7 5 4|meet 3 2 7 3 3 4 4 2 4 2|\
         meet 4 2 6 1 5 4 6 0 6 1|meet 4 2 7 3 5 4 6 1 6 3|corner 5 3 6 4 5 4 6 3|change|\
         remove 10|segment 21 3 1 5 6|meet 3 1 5 6 3 2 4 2 3 2|split 4 4 3 2 5 6|\
         meet 3 2 4 4 3 4 4 2 4 3|meet 4 4 5 6 4 5 5 4 4 5|split 5 6 5 4 5 7|change|remove 1|\
         segment 23 1 6 7 1|segment 24 2 0 2 5|meet 1 2 3 2 2 0 2 5 2 2|\
         meet 1 4 3 2 2 2 2 5 2 3|meet 1 4 3 4 2 3 2 5 2 4|meet 1 6 7 1 1 7 2 5 2 5|\
         split 2 1 2 0 2 2|meet 2 5 7 1 3 4 4 4 3 4|meet 3 4 7 1 4 2 5 3 5 3|\
         meet 3 4 5 3 4 3 4 4 4 4|meet 4 2 6 3 5 3 7 1 5 3|meet 5 3 7 1 6 1 6 3 6 2|end",
        "sound 3 24",
    ),
    // In the last columns and rows.
    (
        "point 1073741815 1073741814|point 1073741815 1073741818|\
         original 3 1073741812 1073741814 1073741813 1073741817 1073741815 1073741822|\
         original 5 1073741814 1073741813 1073741814 1073741816 1073741814 1073741818|\
         original 6 1073741819 1073741814 1073741821 1073741821|\
         original 7 1073741815 1073741820 1073741816 1073741818 1073741816 1073741817|\
         original 8 1073741816 1073741812 1073741817 1073741818|\
         original 10 1073741813 1073741817 1073741814 1073741816|change|\
         segment 12 1073741812 1073741814 1073741816 1073741812|\
         segment 14 1073741817 1073741812 1073741823 1073741817|\
         split 1073741814 1073741813 1073741812 1073741814 1073741816 1073741812|change|\
         remove 7|segment 15 1073741820 1073741820 1073741822 1073741813|\
         segment 17 1073741821 1073741820 1073741823 1073741823|\
         meet 1073741817 1073741812 1073741823 1073741817 1073741820 1073741820 1073741822 1073741813 1073741821 1073741816|\
         split 1073741819 1073741814 1073741817 1073741812 1073741821 1073741816|\
         meet 1073741819 1073741814 1073741821 1073741821 1073741820 1073741820 1073741821 1073741816 1073741820 1073741819|\
         end",
        "sound 2 4",
    ),
];

#[test]
fn a_snapshot_of_many_chains_goes_on(rt: HostRuntime) {
    look_at_all(&rt, rt.alloc(), &SNAPSHOTS);
}
