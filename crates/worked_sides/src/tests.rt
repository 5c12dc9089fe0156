//! The sides of the sides of nested squares, by a sweep whose calls are counted, and by threads; those of random borders, by
//! one thread and by many; and jobs that threads answer.
ghost use Rattle.std.specs.Prelude.{◌≡◌};

use crate::are_one_realm;
use crate::counting::Counting;
use crate::fields::Field;
use crate::letters::Letters;
use crate::squares::{all_sides_of_squares, region, wanted};
use grid_base::{NoMemory, Segment, Sides, Steps};
use plane_sweep::all_sides_by;
use rose_values::RegionsValue;
use side_parallel::{answer_all, sides_of_all};
use std::alloc::Global;
use std::cell::Cell;
use std::marker::Brand;
use std::process::Abort;
use std::sync::ledger::{Blank, Ledger};
use std::thread::Threads;

// The sides of the list, by this order.
fn swept<L: Ledger>(
    alloc: Global,
    order: &Counting,
    region: &RegionsValue,
    list: &[Segment],
    blank: Blank,
) -> Option<Vec<Sides>>
    requires parts { blank.parts ≡ 1 }
    requires same { (L.name ≡ blank.name) × (L.parts ≡ blank.parts) }
{
    let border = region.segments();
    if !are_one_realm(border, list) {
        return None;
    }
    let mut steps = Steps::<L>::new(blank);
    all_sides_by(alloc, order, border, list, &mut steps).ok()
}

// The sides of the list, by threads where it is long.
fn shared<R: Threads + Sync>(
    rt: &R,
    alloc: Global,
    region: &RegionsValue,
    list: &[Segment],
) -> Option<Vec<Sides>> {
    let border = region.segments();
    if !are_one_realm(border, list) {
        return None;
    }
    sides_of_all(rt, alloc, border, list).ok()
}

// Each side of a square has what its picture says beside it.
fn compare<R: Abort>(rt: &R, list: &[Segment], told: &[Sides]) {
    assert_eq!(rt; told.len(), list.len());
    for (s, found) in list.iter().zip(told) {
        assert_eq!(rt; *found, wanted(s), "{s:?}");
    }
}

// How often the order is asked.
fn look_at_sweep<R: Abort>(rt: &R, alloc: Global) -> Option<u64> {
    let region = region(alloc)?;
    let order = Counting {
        calls: Cell::new(0),
    };
    let told = swept::<Brand>(alloc, &order, &region, region.segments(), Blank::new(1))?;
    compare(rt, region.segments(), &told);
    Some(order.calls.get())
}

// A loop over the border for each of its segments wouldn't ask, and one over all pairs would ask 160,000 times.
#[test]
fn sweep_calls(rt: HostRuntime) {
    let calls = look_at_sweep(&rt, rt.alloc()).unwrap_or(0);
    assert!(rt; 100 <= calls && calls <= 14_400, "{calls} calls");
}

// The list is the sides of all squares so many times over, square by square or in order.
fn look_at_threads<R: Threads + Sync + Abort>(
    rt: &R,
    alloc: Global,
    times: u64,
    in_order: bool,
) -> Option<()> {
    let region = region(alloc)?;
    let mut list = all_sides_of_squares(alloc, times)?;
    if in_order {
        list.sort_unstable();
    }
    let told = shared(rt, alloc, &region, &list)?;
    compare(rt, &list, &told);
    Some(())
}

// 400 segments are told by one thread, and so are 4,800 in another order than that of columns; in order these are told in strips,
// some of which begin and end on upright sides.
#[test]
fn threads_tell_the_same(rt: HostRuntime) {
    for (times, in_order) in [(1, true), (12, false), (12, true)] {
        assert!(rt;
            look_at_threads(&rt, rt.alloc(), times, in_order).is_some(),
            "no memory"
        );
    }
}

// Each segment has beside it what the cells say.
fn compare_with_cells<R: Abort>(rt: &R, field: &Field, list: &[Segment], told: &[Sides]) {
    assert_eq!(rt; told.len(), list.len());
    for (s, found) in list.iter().zip(told) {
        assert_eq!(rt; *found, field.wanted(s), "{} {s:?}", field.number);
    }
}

// The border of a field is told by one thread, since it is short, and each segment of it twelve times by many.
fn look_at_field<R: Threads + Sync + Abort>(rt: &R, alloc: Global, field: &Field) -> Option<()> {
    let region = field.region(alloc)?;
    let border = region.segments();
    let told = shared(rt, alloc, &region, border)?;
    compare_with_cells(rt, field, border, &told);
    let list = twelvefold(alloc, border)?;
    let told = shared(rt, alloc, &region, &list)?;
    compare_with_cells(rt, field, &list, &told);
    Some(())
}

fn twelvefold(alloc: Global, border: &[Segment]) -> Option<Vec<Segment>> {
    let mut list = Vec::new(alloc);
    for s in border {
        for _ in 0..12 {
            list.push(*s).ok()?;
        }
    }
    Some(list)
}

// Of 2,000 random borders of some 270 segments. Where a field doesn't lean, upright sides lie on the edges of strips; where it
// does, level and steep ones run through them.
#[test]
fn random_borders_by_one_thread_and_by_many(rt: HostRuntime) {
    for number in 0..2_000 {
        let field = Field {
            number,
            lean: number % 3,
        };
        assert!(rt;
            look_at_field(&rt, rt.alloc(), &field).is_some(),
            "no memory"
        );
    }
}

// Three jobs are answered, each in its place.
fn look_at_jobs<R: Threads + Sync + Abort>(rt: &R, alloc: Global) -> Result<(), NoMemory> {
    let replies = answer_all(rt, alloc, &Letters { alloc }, 3)?;
    assert_eq!(rt; replies.len(), 3);
    for (reply, wanted) in replies.iter().zip(["a", "b", "c"]) {
        assert!(rt; reply.bytes() == wanted.as_bytes());
    }
    Ok(())
}

#[test]
fn jobs_are_answered_in_order(rt: HostRuntime) {
    assert!(rt; look_at_jobs(&rt, rt.alloc()).is_ok(), "no memory");
}
