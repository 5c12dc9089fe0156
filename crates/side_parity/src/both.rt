//! Both sides at once. The segments of the border above the middle of a segment are counted, and the segment
//! itself: on the side below it, or left of it where it is vertical, it is above too, so there its own number
//! in the border counts as well.
ghost use Rattle.std.specs.Prelude.{◌≡◌, ◌↔◌, ◌<◌, ◌*◌, ◌∷◌, ◌&&◌, IsTrue};
ghost use Rattle.grid_base.specs.Grid.{grid_side, product_bound};
ghost use Rattle.grid_base.specs.Point.{IsBefore};
ghost use Rattle.grid_base.specs.Border.{AreNoded, IsEvenBorder};
ghost use Rattle.grid_base.specs.Plane.{as_place};
ghost use Rattle.grid_base.specs.Odd.{is_strictly_above, AreSides};
ghost use Rattle.side_parity.specs.Middle.{middle, differ};

use grid_base::{Segment, Sides};

/// Whether what lies beside `s` is odd for the border, on its left and on its right, seen from its lesser end.
/// Each is the same along all of `s`, which needn't be in the border. One call goes once over the border.
pub fn sides(border: &[Segment], s: &Segment) -> Sides
    requires noded { AreNoded (s.now ∷ border.now) }
    requires even { IsEvenBorder border.now }
    ensures { AreSides border.now s.now result }
{
    let mut odd = false;
    let mut own = false;
    for t in border {
        odd = changed(is_over_middle(t, s), odd);
        own = changed(is_same(s, t), own);
    }
    let other = changed(odd, own);
    if s.a().x() < s.b().x() {
        Sides {
            left: odd,
            right: other,
        }
    } else {
        Sides {
            left: other,
            right: odd,
        }
    }
}

// Whether the half-open x-range of `t` holds the middle of `s`, and `t` is strictly above it.
fn is_over_middle(t: &Segment, s: &Segment) -> bool
    ensures over { result ≡ is_strictly_above t.now (as_place (middle s.now)) }
    ensures ordered { IsBefore t.now.a t.now.b }
{
    let x = s.a().x() + s.b().x();
    let y = s.a().y() + s.b().y();
    let leftward = product(t.a().x(), t.b().y()) * 2
        + product(t.b().x(), y)
        + product(x, t.a().y());
    let rightward = product(t.a().y(), t.b().x()) * 2
        + product(t.b().y(), x)
        + product(y, t.a().x());
    all_three(t.a().x() * 2 <= x, x < t.b().x() * 2, leftward < rightward)
}

// The product of two sums of coordinates.
fn product(m: u32, n: u32) -> u64
    requires m_below { m < 2 * grid_side }
    requires n_below { n < 2 * grid_side }
    ensures product { result ≡ m * n }
    ensures below { result < 4 * product_bound }
{
    u64::from(m) * u64::from(n)
}

fn is_same(s: &Segment, t: &Segment) -> bool
    ensures { IsTrue result ↔ (s.now ≡ t.now) }
{
    s == t
}

fn all_three(from: bool, to: bool, under: bool) -> bool
    ensures { result ≡ (from && to && under) }
{
    from && to && under
}

// Whether just one of the two is so.
fn changed(once: bool, more: bool) -> bool
    ensures { result ≡ differ once more }
{
    once != more
}
