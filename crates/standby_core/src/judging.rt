//! Whether a frame comes next.
ghost use Rattle.std.specs.Prelude.{◌≡◌, ◌↔◌, ◌+◌, IsTrue};
ghost use Rattle.standby_core.specs.declared.verdicts.Verdict.TheVariants.{Apply, Skip};
ghost use Rattle.standby_core.specs.Verdicts.{IsPassedOver, ComesNext};

use crate::frame::Frame;
use crate::verdicts::Verdict;

/// Whether the frame comes next where so many changes are there: a record whose first change has the next
/// number, or a state with more changes.
pub fn verdict(have: u64, f: &Frame) -> Verdict
    ensures skip { (result ≡ Skip) ↔ IsPassedOver have f.now }
    ensures apply { (result ≡ Apply) ↔ ComesNext have f.now }
{
    if comes_next(have, f) {
        Verdict::Apply
    } else {
        Verdict::Skip
    }
}

// Whether it does.
fn comes_next(have: u64, f: &Frame) -> bool
    ensures { IsTrue result ↔ ComesNext have f.now }
{
    match f {
        Frame::Rec(r) => is_next(have, r.number),
        Frame::Snap(s) => have < s.changes,
    }
}

// Whether the number is the next where so many changes are there. None is behind the greatest.
fn is_next(have: u64, number: u64) -> bool
    ensures { IsTrue result ↔ (number ≡ have + 1) }
{
    have.checked_add(1) == Some(number)
}
