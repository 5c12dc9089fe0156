//! Few lines and a region of few segments. Each of the lines is asked by going once over the border, which takes
//! no memory, and costs less than to begin a sweep.
ghost use Rattle.std.specs.Prelude.{◌↔◌, ◌++◌, ◌∷◌, IsTrue, Contains};
ghost use Rattle.grid_base.specs.Border.{AreNoded};
ghost use Rattle.rose_values.specs.declared.geometry.Geometry.TheVariants.{L, R};
ghost use Rattle.rose_values.specs.Border.{IsBorder};
ghost use Rattle.rose_values.specs.Operators.{LiesIn};
ghost use Rattle.rose_overlay.specs.Parting.{AreOrdered};
ghost use Rattle.rose_predicates.specs.Predicates.{ReachesInto};

use grid_base::Segment;
use rose_overlay::{has_segment, lesser_ends_first};
use side_parity::sides;

// So many segments of both together are few.
const FEW: usize = 16;

// Whether the two have few segments together.
pub(crate) fn are_few(a: &[Segment], b: &[Segment]) -> bool {
    a.len() <= FEW && b.len() <= FEW - a.len()
}

// Whether some place of the lines is interior to the region: one of them crosses it.
pub(crate) fn one_reaches_into(lines: &[Segment], border: &[Segment]) -> bool
    requires noded { AreNoded (lines.now ++ border.now) }
    requires border { IsBorder border.now }
    ensures { IsTrue result ↔ ReachesInto (L lines.now) (R border.now) }
{
    lesser_ends_first(lines);
    lesser_ends_first(border);
    for s in lines {
        if crosses_region(border, s) {
            return true;
        }
    }
    false
}

// Whether all places of `s` are points of the region, and `s` isn't on its border.
fn crosses_region(border: &[Segment], s: &Segment) -> bool
    requires noded { AreNoded (s.now ∷ border.now) }
    requires border { IsBorder border.now }
    requires ordered { AreOrdered (s.now ∷ border.now) }
    ensures { IsTrue result ↔ (LiesIn border.now s.now × ¬ Contains border.now s.now) }
{
    if has_segment(border, s) {
        return false;
    }
    sides(border, s).left
}
