//! The near points of one column, in constant time: where the segment is in that column, rounded down
//! and rounded up. Where it is steep, rows stand for columns and columns for rows.
ghost use Rattle.std.specs.Prelude.{◌≡◌, ◌↔◌, ◌*◌, ◌<◌, ◌≤◌, IfSome, IsNone};
ghost use Rattle.grid_base.specs.Grid.{grid_side};
ghost use Rattle.grid_base.specs.Point.{IsBefore};
ghost use Rattle.segment_envelope.specs.ColumnPair.{IsBeyond, IsColumnPair, AreNextTo};
ghost use Rattle.segment_envelope.specs.Course.{IsCourseOf, IsOnGrid, AreRoundings, run, weighted};

use grid_base::Segment;

/// The least and the greatest row of a near point of `s` in column `k`; where `s` is steep, the least
/// and the greatest column of one in row `k`. The two are equal where a grid point there is on `s`, and
/// else next to each other. None where `k` is outside the range of `s`, whose ends count.
pub fn column_pair(s: &Segment, k: u32) -> Option<(u32, u32)>
    ensures none { IsNone result ↔ IsBeyond s.now k }
    ensures pair { IfSome result (λ pair. IsColumnPair s.now k pair.0 pair.1) }
    ensures next_to { IfSome result (λ pair. AreNextTo s.now k pair.0 pair.1) }
{
    let course = course_of(s);
    if k < course.from || course.to < k {
        return None;
    }
    Some(place_rounded(&course, k))
}

// A segment along its own axis: it leads from `first` in column `from` to `last` in column `to`.
// Where it is steep, `from` and `to` are rows, and `first` and `last` are columns.
#[derive(Clone, Copy)]
struct Course {
    from: u32,
    to: u32,
    first: u32,
    last: u32,
}

// The course of `s`.
fn course_of(s: &Segment) -> Course
    ensures course { IsCourseOf s.now result }
    ensures on_grid { IsOnGrid result }
    ensures ordered { IsBefore s.now.a s.now.b }
{
    let (a, b) = (s.a(), s.b());
    if s.is_flat() {
        leading(a.x(), a.y(), b.x(), b.y())
    } else if a.y() < b.y() {
        leading(a.y(), a.x(), b.y(), b.x())
    } else {
        leading(b.y(), b.x(), a.y(), a.x())
    }
}

// The course from `first` in column `from` to `last` in column `to`.
fn leading(from: u32, first: u32, to: u32, last: u32) -> Course
    ensures { result ≡ record { from = from; to = to; first = first; last = last } }
{
    Course {
        from,
        to,
        first,
        last,
    }
}

// Where the course is in column `k`, rounded down and rounded up.
fn place_rounded(course: &Course, k: u32) -> (u32, u32)
    requires on_grid { IsOnGrid course.now }
    requires from { course.now.from ≤ k }
    requires to { k ≤ course.now.to }
    ensures { AreRoundings (weighted course.now k) (run course.now) result.0 result.1 }
{
    let mean = weighted_mean(course, k);
    let run = u64::from(course.to - course.from);
    let down = mean / run;
    let up = mean.div_ceil(run);
    (down as u32, up as u32)
}

// Where the course is in column `k`, times its run: the mean of `first` and `last`, each with the
// way from `k` to the other as its weight.
fn weighted_mean(course: &Course, k: u32) -> u64
    requires on_grid { IsOnGrid course.now }
    requires from { course.now.from ≤ k }
    requires to { k ≤ course.now.to }
    ensures mean { result ≡ weighted course.now k }
    ensures below { result < grid_side * run course.now }
{
    let before = u64::from(course.first) * u64::from(course.to - k);
    let after = u64::from(course.last) * u64::from(k - course.from);
    before + after
}
