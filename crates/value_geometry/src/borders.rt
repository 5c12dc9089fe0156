//! Segments that stand an odd number of times in a list.
ghost use Rattle.std.specs.Prelude.{◌≡◌, ◌↔◌, ◌%◌, Bool, IfOk, IsTrue, count_by};
ghost use Rattle.std.specs.List.Sorted.{IsSorted};
ghost use Rattle.grid_base.specs.Segment.{GridSegment, segment_cmp};
ghost use Rattle.rose_values.specs.Border.{AreSegmentsAscending};
ghost use Rattle.value_geometry.specs.Links.{IsLast};

use grid_base::{NoMemory, Segment};
use std::alloc::Global;

// The segments that stand an odd number of times in a sorted list: equal neighbours cancel each other.
pub(crate) fn odd_ones(alloc: Global, sorted: &[Segment]) -> Result<Vec<Segment>, NoMemory>
    requires { IsSorted segment_cmp sorted.now }
    ensures ascending { IfOk result (λ v. AreSegmentsAscending v.items) }
    ensures parity { IfOk result (λ v. (test : GridSegment → Bool)
        → count_by test v.items % 2 ≡ count_by test sorted.now % 2) }
{
    let mut odd = Vec::new(alloc);
    for s in sorted {
        if is_last(&odd, s) {
            odd.pop();
        } else {
            odd.push(*s)?;
        }
    }
    Ok(odd)
}

// Whether `s` is the last of the list.
fn is_last(list: &[Segment], s: &Segment) -> bool
    ensures { IsTrue result ↔ IsLast list.now s.now }
{
    match list.last() {
        Some(last) => last == s,
        None => false,
    }
}
