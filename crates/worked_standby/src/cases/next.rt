//! Frames that come next where so many changes are there, and frames that don't.
use crate::paper::{FOUR, GREATEST, GROUP, LAST, NOTHING, ONE_POINT, POINT, SECOND};
use standby_core::{Verdict, read_frame, verdict};
use std::alloc::Global;
use std::test::Fail;

const MOST: u64 = 18_446_744_073_709_551_615;

// How many changes are there, a line, and what is done with its frame; nothing where the line is none.
const TURNS: [(u64, &[u8], Option<Verdict>); 23] = [
    // a record, once more, and a line that is no frame
    (0, POINT, Some(Verdict::Apply)),
    (1, POINT, Some(Verdict::Skip)),
    (1, b"hello", None),
    // a record before which a change is missing
    (0, SECOND, Some(Verdict::Skip)),
    (1, SECOND, Some(Verdict::Apply)),
    (2, SECOND, Some(Verdict::Skip)),
    (MOST, SECOND, Some(Verdict::Skip)),
    // a group, none of whose changes is there, the first and both
    (0, GROUP, Some(Verdict::Skip)),
    (1, GROUP, Some(Verdict::Apply)),
    (2, GROUP, Some(Verdict::Skip)),
    (3, GROUP, Some(Verdict::Skip)),
    (MOST - 2, LAST, Some(Verdict::Apply)),
    (MOST - 1, LAST, Some(Verdict::Skip)),
    (MOST, LAST, Some(Verdict::Skip)),
    // states with more changes, as many and fewer
    (0, NOTHING, Some(Verdict::Skip)),
    (0, ONE_POINT, Some(Verdict::Apply)),
    (1, ONE_POINT, Some(Verdict::Skip)),
    (2, ONE_POINT, Some(Verdict::Skip)),
    (0, FOUR, Some(Verdict::Apply)),
    (3, FOUR, Some(Verdict::Apply)),
    (4, FOUR, Some(Verdict::Skip)),
    (MOST - 1, GREATEST, Some(Verdict::Apply)),
    (MOST, GREATEST, Some(Verdict::Skip)),
];

// What is done with the frame of the line; nothing where it is none.
fn done(alloc: Global, have: u64, line: &[u8]) -> Result<Option<Verdict>, Fail> {
    let frame = read_frame(alloc, line)?;
    Ok(frame.map(|f| verdict(have, &f)))
}

#[test]
fn what_comes_next_is_applied(rt: HostRuntime) -> Result<(), Fail> {
    for (place, (have, line, expected)) in TURNS.iter().enumerate() {
        assert_eq!(rt; done(rt.alloc(), *have, line)?, *expected, "{place}");
    }
    Ok(())
}
