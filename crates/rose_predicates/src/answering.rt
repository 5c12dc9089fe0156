//! What is asked of two values, by their kinds.
ghost use Rattle.std.specs.Prelude.{◌≡◌, ◌↔◌, ◌++◌, IfOk, IsTrue, Err, false};
ghost use Rattle.grid_base.specs.Border.{AreNoded};
ghost use Rattle.rose_values.specs.Geometry.{kind_of};
ghost use Rattle.rose_values.specs.Kinds.{takes_kinds};
ghost use Rattle.rose_values.specs.Operators.{segments_of};
ghost use Rattle.rose_predicates.specs.Predicates.{points_of, AreOutside, IsTrueOf};
ghost use Rattle.rose_predicates.specs.declared.answering.HoldsError.TheVariants.{WrongTypes};
ghost use Rattle.rose_predicates.specs.declared.answering.HoldsError.TheVariants.{NoMemory as Exhausted};

use crate::of_lines::{of_lines, of_lines_and_region};
use crate::of_points::{of_points, of_points_and_lines, of_points_and_region};
use crate::of_regions::of_regions;
use grid_base::NoMemory;
use rose_values::{Geometry, Pred};
use std::alloc::Global;
use thiserror::Error;

/// Why there is no answer.
#[derive(Clone, Copy, Debug, PartialEq, Eq, Error)]
pub enum HoldsError {
    /// The predicate doesn't take values of these kinds.
    #[error("the predicate doesn't take values of these kinds")]
    WrongTypes,
    #[error("no memory")]
    NoMemory,
}

impl From<NoMemory> for HoldsError {
    ghost from_gives = { λ _ e. e ≡ Exhausted };

    fn from(_: NoMemory) -> HoldsError {
        HoldsError::NoMemory
    }
}

/// Whether the predicate holds of the two values, in this order. Their segments together are those of one
/// realm, as those of one drawing are, and their points are inside none. An end is a point of its segment,
/// and the border belongs to its region. An empty value is inside every other.
pub fn holds(alloc: Global, pred: Pred, a: &Geometry, b: &Geometry) -> Result<bool, HoldsError>
    requires noded { AreNoded (segments_of a.now ++ segments_of b.now) }
    requires outside { AreOutside (points_of a.now ++ points_of b.now)
        (segments_of a.now ++ segments_of b.now) }
    ensures holds { IfOk result (λ answer. IsTrue answer ↔ IsTrueOf pred a.now b.now) }
    ensures wrong_types { (result ≡ Err WrongTypes)
        ↔ (takes_kinds pred (kind_of a.now) (kind_of b.now) ≡ false) }
{
    match (a, b) {
        (Geometry::P(a), Geometry::P(b)) => of_points(pred, a.points(), b.points()),
        (Geometry::P(points), Geometry::L(lines)) => {
            of_points_and_lines(alloc, pred, points.points(), lines.segments())
        }
        (Geometry::P(points), Geometry::R(region)) => {
            of_points_and_region(alloc, pred, points.points(), region.segments())
        }
        (Geometry::L(a), Geometry::L(b)) => of_lines(alloc, pred, a.segments(), b.segments()),
        (Geometry::L(lines), Geometry::R(region)) => {
            of_lines_and_region(alloc, pred, lines.segments(), region.segments())
        }
        (Geometry::R(a), Geometry::R(b)) => of_regions(alloc, pred, a.segments(), b.segments()),
        _ => Err(HoldsError::WrongTypes),
    }
}
