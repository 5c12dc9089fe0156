//! Whether segments are of a border, so that both together are those of a realm.
ghost use Rattle.std.specs.Prelude.{◌++◌, IsTrue, Contains};
ghost use Rattle.grid_base.specs.Segment.{GridSegment};
ghost use Rattle.grid_base.specs.Border.{AreNoded};
ghost use Rattle.rose_values.specs.Border.{AreSegmentsAscending};

use grid_base::Segment;
use rose_overlay::has_segment;

// Whether each of the list is one of the border.
fn are_all_in(border: &[Segment], list: &[Segment]) -> bool
    requires { AreSegmentsAscending border.now }
    ensures { IsTrue result → (s : GridSegment) → Contains list.now s → Contains border.now s }
{
    for s in list {
        if !has_segment(border, s) {
            return false;
        }
    }
    true
}

/// Whether the list is of segments of the border, so that both together are those of a realm. An empty list is.
pub fn are_one_realm(border: &[Segment], list: &[Segment]) -> bool
    requires ascending { AreSegmentsAscending border.now }
    requires noded { AreNoded border.now }
    ensures { IsTrue result → AreNoded (border.now ++ list.now) }
{
    are_all_in(border, list)
}
