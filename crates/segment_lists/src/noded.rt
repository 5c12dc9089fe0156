//! Whether segments are those of a realm, each compared with each.
ghost use Rattle.std.specs.Prelude.{◌↔◌, IsTrue, All};
ghost use Rattle.grid_base.specs.Border.{AreNoded};
ghost use Rattle.segment_lists.specs.Disturbed.{Disturbs};

use crate::each_is_on_grid;
use grid_base::{Segment, crosses, in_side};

/// Whether the segments are those of a realm: none crosses another, and none has an end inside another. Segments
/// may meet in common ends, and one may be listed twice; an empty list is a realm's. Each is compared with each,
/// so the time grows with the square of the length: it is for tests, and for checks of short lists.
pub fn are_noded(list: &[Segment]) -> bool
    ensures { IsTrue result ↔ AreNoded list.now }
{
    each_is_on_grid(list);
    list.iter().all(|s| leaves(list, s))
}

// Whether none of the list disturbs `s`.
fn leaves(list: &[Segment], s: &Segment) -> bool
    ensures { IsTrue result ↔ All (λ t. ¬ Disturbs s.now t) list.now }
{
    list.iter().all(|t| !disturbs(s, t))
}

// Whether the two cross, or an end of `t` is inside `s`.
fn disturbs(s: &Segment, t: &Segment) -> bool
    ensures { IsTrue result ↔ Disturbs s.now t.now }
{
    crosses(s, t) || in_side(s, &t.a()) || in_side(s, &t.b())
}
