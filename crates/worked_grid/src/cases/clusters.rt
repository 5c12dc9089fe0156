//! Worked cases of clusters, read off squared paper: posts in a row, which are cut into quarters, ones far away, so that a
//! square comes round the others, and bars with one centre, which can't be cut.
use crate::cases::boxes::segment;
use grid_base::{Point, Segment};
use realm_index::NearIndex;
use std::alloc::Global;
use std::process::Abort;
use std::test::Fail;

// A segment is put under a key that isn't there yet.
fn put(index: &mut NearIndex, key: usize, s: Segment) -> Result<(), Fail> {
    if index.remove(key) {
        return Err(Fail::new("a key already"));
    }
    Ok(index.insert(key, s)?)
}

// Forty posts three rows high, ten columns apart, each under its number.
fn posts(alloc: Global) -> Result<NearIndex, Fail> {
    let mut index = NearIndex::new(alloc);
    for i in 0..40_usize {
        let x = 10 * i as u64;
        put(&mut index, i, segment(x, 0, x, 3)?)?;
    }
    Ok(index)
}

fn compare(rt: &impl Abort, index: &NearIndex, rows: &[([u64; 4], &[usize])]) -> Result<(), Fail> {
    for row in rows {
        let ([x, y, u, v], keys) = *row;
        let near = segment(x, y, u, v)?;
        let met = index.meeting(&near)?;
        assert_eq!(rt; met.as_slice(), keys, "{x} {y} {u} {v}");
        let mut met = index.meeting_unordered(&near)?;
        met.sort_unstable();
        assert_eq!(rt; met.as_slice(), keys, "{x} {y} {u} {v} in any order");
    }
    Ok(())
}

#[test]
fn boxes_are_met_as_in_an_index(rt: HostRuntime) -> Result<(), Fail> {
    let mut index = NearIndex::new(rt.alloc());
    put(&mut index, 30, segment(0, 0, 4, 0)?)?;
    put(&mut index, 10, segment(4, 0, 6, 5)?)?;
    put(&mut index, 40, segment(10, 10, 12, 11)?)?;
    put(&mut index, 20, segment(1, 3, 3, 0)?)?;
    compare(
        &rt,
        &index,
        &[
            ([0, 0, 4, 0], &[10, 20, 30][..]),
            ([3, 3, 4, 4], &[10, 20]),
            ([6, 5, 10, 10], &[10, 40]),
            ([7, 6, 9, 9], &[]),
        ][..],
    )
}

#[test]
fn a_post_is_found_where_it_stands(rt: HostRuntime) -> Result<(), Fail> {
    let index = posts(rt.alloc())?;
    compare(
        &rt,
        &index,
        &[
            ([95, 1, 105, 1], &[10][..]),
            ([100, 3, 120, 9], &[10, 11, 12]),
            ([100, 4, 120, 9], &[]),
            ([381, 0, 500, 500], &[39]),
        ][..],
    )
}

#[test]
fn what_was_taken_is_found_no_more(rt: HostRuntime) -> Result<(), Fail> {
    let mut index = posts(rt.alloc())?;
    for i in 0..40_usize {
        if i % 7 != 0 {
            assert_eq!(&rt; index.remove(i), true, "{i}");
        }
    }
    assert_eq!(&rt; (index.remove(1), index.segment(1)), (false, None));
    compare(
        &rt,
        &index,
        &[
            ([0, 0, 400, 400], &[0, 7, 14, 21, 28, 35][..]),
            ([71, 0, 139, 3], &[]),
        ][..],
    )
}

#[test]
fn those_far_away_are_found_too(rt: HostRuntime) -> Result<(), Fail> {
    let mut index = posts(rt.alloc())?;
    put(
        &mut index,
        50,
        segment(800_000_000, 7, 800_000_009, 400_000_000)?,
    )?;
    put(&mut index, 60, segment(0, 3, 800_000_000, 7)?)?;
    compare(
        &rt,
        &index.copied()?,
        &[
            ([800_000_000, 0, 1_073_741_823, 7], &[50, 60][..]),
            ([55, 0, 60, 9], &[6, 60]),
            (
                [800_000_001, 400_000_000, 1_073_741_823, 1_073_741_823],
                &[50],
            ),
        ][..],
    )
}

#[test]
fn bars_with_one_centre_are_told_apart(rt: HostRuntime) -> Result<(), Fail> {
    let mut index = NearIndex::new(rt.alloc());
    for i in 0..20_usize {
        let far = i as u64 + 1;
        put(&mut index, i, segment(100 - far, 50, 100 + far, 50)?)?;
    }
    let held = index.on_point(&Point::new(118, 50)?)?;
    assert_eq!(&rt; held.as_slice(), &[17, 18, 19][..]);
    Ok(())
}
