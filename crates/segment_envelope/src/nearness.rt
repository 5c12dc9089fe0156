//! Grid points beside a segment: in its bounding box, and so close to its line that the side number
//! stays below a bound.
ghost use Rattle.std.specs.Prelude.{◌≡◌, ◌<◌, ◌↔◌, IsTrue};
ghost use Rattle.grid_base.specs.Grid.{grid_side};
ghost use Rattle.grid_base.specs.Segment.{width, height};
ghost use Rattle.segment_envelope.specs.Near.{Near};
ghost use Rattle.segment_envelope.specs.Envelope.{Env};

use grid_base::{Point, Segment, cross_of, in_box};

/// Whether `p` is near `s`: in its bounding box, the rim counted, and less than 1 above or below it;
/// where `s` is steep, less than 1 beside it. The ends of `s` and all grid points on it are near.
pub fn near(s: &Segment, p: &Point) -> bool
    ensures { IsTrue result ↔ Near s.now p.now }
{
    let greater_run = run_across(s).max(run_up(s));
    in_box(s, p) && cross_of(s, p).unsigned_abs() < u128::from(greater_run)
}

/// Whether `p` is in the envelope of `s`: in its bounding box, the rim counted, and nearer than 1 to
/// its line in the maximum norm. All near points are. The word is this project's own: on maps an
/// envelope is the bounding box.
pub fn in_envelope(s: &Segment, p: &Point) -> bool
    ensures { IsTrue result ↔ Env s.now p.now }
{
    let both_runs = run_across(s) + run_up(s);
    in_box(s, p) && cross_of(s, p).unsigned_abs() < u128::from(both_runs)
}

// How many columns `s` runs across.
fn run_across(s: &Segment) -> u32
    ensures width { result ≡ width s.now }
    ensures below { result < grid_side }
{
    s.a().x().abs_diff(s.b().x())
}

// How many rows `s` runs up or down.
fn run_up(s: &Segment) -> u32
    ensures height { result ≡ height s.now }
    ensures below { result < grid_side }
{
    s.a().y().abs_diff(s.b().y())
}
