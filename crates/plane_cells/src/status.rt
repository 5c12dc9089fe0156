//! Where a vertex lies in the status, the list of segments that are begun and not ended, from below.
ghost use Rattle.std.specs.Prelude.{◌≡◌, ◌≢◌, ◌⊎◌, ℕ, suc, ◌+◌, ◌-◌, ◌*◌, ◌^◌, ◌<◌, ◌≤◌, ◌↔◌};
ghost use Rattle.std.specs.Prelude.{IsTrue, pos, ◌<ℤ◌, length, take, drop, slice_index};
ghost use Rattle.grid_base.specs.Sides.{turn};
ghost use Rattle.plane_cells.specs.Steps.{Each, Pairs, label_over};
ghost use Rattle.plane_cells.specs.Numbered.{numbered};
ghost use Rattle.plane_cells.specs.Scan.{AreNumbers, IsLeftOf, IsSortedAt, IsUnderBegin};

use grid_base::{Point, Segment, cross_of};
use tiered_vector::TieredVector;

/// Whether `p` is on the left of `s`, seen from its lesser end.
pub fn is_left(s: &Segment, p: &Point) -> bool
    ensures { IsTrue result ↔ (pos 0 <ℤ turn s.now.a s.now.b p.now) }
{
    cross_of(s, p) > 0
}

/// How many segments of the status are below `p`.
pub fn count_below(border: &[Segment], status: &TieredVector<usize>, p: &Point) -> usize
    requires numbers { AreNumbers border.now status.now }
    requires sorted { IsSortedAt border.now p.now status.now }
    ensures within { result ≤ length status.now }
    ensures below { Each (IsLeftOf border.now p.now) (take result status.now) }
    ensures others { Each (λ i. ¬ IsLeftOf border.now p.now i) (drop result status.now) }
{
    let mut from = 0;
    let mut to = status.len();
    while from < to {
        let middle = from + (to - from) / 2;
        if is_left(&segment_at(border, status, middle), p) {
            from = middle + 1;
        } else {
            to = middle;
        }
    }
    from
}

// The segment whose number stands at `place` in the status.
fn segment_at(border: &[Segment], status: &TieredVector<usize>, place: usize) -> Segment
    requires numbers { AreNumbers border.now status.now }
    requires within { place < length status.now }
    ensures { result ≡ numbered border.now (slice_index status.now place) }
{
    border[status[place]]
}

/// Whether `s` is below `t` just behind the lesser end of `t`.
pub fn is_under(s: &Segment, t: &Segment) -> bool
    ensures { IsTrue result ↔ IsUnderBegin s.now t.now }
{
    is_left(s, &t.a()) || begins_under(s, t)
}

// Whether both begin at one point, `s` the lower one.
fn begins_under(s: &Segment, t: &Segment) -> bool
    ensures { IsTrue result ↔ ((s.now.a ≡ t.now.a) × (pos 0 <ℤ turn s.now.a s.now.b t.now.b)) }
{
    s.a() == t.a() && is_left(s, &t.b())
}

/// How many segments of the status are below `t` just behind its lesser end.
pub fn count_under(border: &[Segment], status: &TieredVector<usize>, t: &Segment) -> usize
    requires numbers { AreNumbers border.now status.now }
    requires sorted { Pairs (λ i j. IsUnderBegin (numbered border.now j) t.now
        → IsUnderBegin (numbered border.now i) t.now) status.now }
    ensures within { result ≤ length status.now }
    ensures below { Each (λ i. IsUnderBegin (numbered border.now i) t.now) (take result status.now) }
    ensures others { Each (λ i. ¬ IsUnderBegin (numbered border.now i) t.now) (drop result status.now) }
{
    let mut from = 0;
    let mut to = status.len();
    while from < to {
        let middle = from + (to - from) / 2;
        if is_under(&segment_at(border, status, middle), t) {
            from = middle + 1;
        } else {
            to = middle;
        }
    }
    from
}

/// The number of the first segment of the status, from number `from` on, that doesn't end at `p`.
pub fn ends_to(border: &[Segment], status: &TieredVector<usize>, from: usize, p: &Point) -> usize
    requires numbers { AreNumbers border.now status.now }
    requires from { from ≤ length status.now }
    ensures order { from ≤ result }
    ensures within { result ≤ length status.now }
    ensures ends { Each (λ i. (numbered border.now i).b ≡ p.now) (take (result - from) (drop from status.now)) }
    ensures next { result < length status.now
        → (numbered border.now (slice_index status.now result)).b ≢ p.now }
{
    let mut to = from;
    while to < status.len() && segment_at(border, status, to).b() == *p {
        to += 1;
    }
    to
}

/// The label of the gap over the first `count` segments of the status.
pub fn label(status: &TieredVector<usize>, count: usize) -> usize
    requires within { count ≤ length status.now }
    requires fits { Each (λ i. i < 2 ^ 63) status.now }
    ensures { result ≡ label_over 0 (take count status.now) }
{
    if count == 0 { 0 } else { status[count - 1] + 1 }
}
