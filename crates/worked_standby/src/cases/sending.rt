//! What is sent to a standby that has so many changes.
ghost use Rattle.std.specs.Prelude.{All, IfOk};
ghost use Rattle.record_codec.specs.Fitting.{IsRecord};
ghost use Rattle.record_codec.specs.Payload.{IsSnapshot};
ghost use Rattle.standby_core.specs.Frames.{HasText};

use crate::paper::{FOUR, GREATEST, GROUP, LAST, ONE_POINT, POINT, SPLIT, WELL};
use record_codec::{Record, Snapshot};
use standby_core::{Frame, frames_for, read_frame, write_frame};
use std::alloc::Global;
use std::test::Fail;

const MOST: u64 = 18_446_744_073_709_551_615;

// How many changes stand before the records, the records, the present state, how many changes the standby has,
// and what is sent; each line by its name.
type Row = (
    u64,
    &'static [&'static str],
    &'static str,
    u64,
    &'static [&'static str],
);

// Changes 1 to 4.
const ALL: &[&str] = &["well", "group", "split"];

const ROWS: [Row; 18] = [
    // one change, and a standby that lacks it or not
    (0, &["point"], "one point", 0, &["point"]),
    (0, &["point"], "one point", 1, &[]),
    // the group is sent where its last change is missing
    (0, ALL, "four", 0, ALL),
    (0, ALL, "four", 1, &["group", "split"]),
    (0, ALL, "four", 2, &["group", "split"]),
    (0, ALL, "four", 3, &["split"]),
    (0, ALL, "four", 4, &[]),
    (0, ALL, "four", MOST, &[]),
    // changes before the records are missing, or none
    (3, &["split"], "four", 0, &["four"]),
    (3, &["split"], "four", 2, &["four"]),
    (3, &["split"], "four", 3, &["split"]),
    (3, &["split"], "four", 4, &[]),
    // no record
    (4, &[], "four", 3, &["four"]),
    (4, &[], "four", 4, &[]),
    // numbers up to 2^64
    (MOST - 2, &["last"], "greatest", MOST - 3, &["greatest"]),
    (MOST - 2, &["last"], "greatest", MOST - 2, &["last"]),
    (MOST - 2, &["last"], "greatest", MOST - 1, &["last"]),
    (MOST - 2, &["last"], "greatest", MOST, &[]),
];

// The line of this name.
fn line_of(name: &str) -> &'static [u8] {
    match name {
        "point" => POINT,
        "well" => WELL,
        "group" => GROUP,
        "split" => SPLIT,
        "last" => LAST,
        "one point" => ONE_POINT,
        "four" => FOUR,
        _ => GREATEST,
    }
}

// The records of these lines.
fn records(alloc: Global, names: &[&str]) -> Result<Vec<Record>, Fail>
    ensures { IfOk result (λ v. All IsRecord v.items) }
{
    let mut records = Vec::new(alloc);
    for name in names {
        let Some(Frame::Rec(r)) = read_frame(alloc, line_of(name))? else {
            return Err(Fail::new("no record"));
        };
        records.push(r)?;
    }
    Ok(records)
}

// The state of this line.
fn state(alloc: Global, name: &str) -> Result<Snapshot, Fail>
    ensures { IfOk result IsSnapshot }
{
    match read_frame(alloc, line_of(name))? {
        Some(Frame::Snap(s)) => Ok(s),
        _ => Err(Fail::new("no state")),
    }
}

// The lines of the frames, each with a line end.
fn text(alloc: Global, frames: &[Frame]) -> Result<Vec<u8>, Fail>
    requires { All HasText frames.now }
{
    let mut text = Vec::new(alloc);
    for frame in frames {
        let line = write_frame(alloc, frame)?;
        text.extend_from_slice(line.bytes())?;
        text.push(b'\n')?;
    }
    Ok(text)
}

// These lines, each with a line end.
fn joined(alloc: Global, names: &[&str]) -> Result<Vec<u8>, Fail> {
    let mut text = Vec::new(alloc);
    for name in names {
        text.extend_from_slice(line_of(name))?;
        text.push(b'\n')?;
    }
    Ok(text)
}

#[test]
fn what_is_missing_is_sent(rt: HostRuntime) -> Result<(), Fail> {
    let alloc = rt.alloc();
    for (place, (base, names, now, k, sent)) in ROWS.iter().enumerate() {
        let records = records(alloc, names)?;
        let now = state(alloc, now)?;
        let frames = frames_for(alloc, *base, &records, &now, *k)?;
        let sent = joined(alloc, sent)?;
        assert!(rt; text(alloc, &frames)? == sent, "{place}");
    }
    Ok(())
}
