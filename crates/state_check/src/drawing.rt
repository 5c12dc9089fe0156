//! Drawings of given originals and explicit points.
ghost use Rattle.std.specs.Prelude.{◌≡◌, ◌↔◌, ◌++◌, ◌∷◌, [], IsTrue, All, AllPairs, Err, IfOk, OnOk, MatchOption};
ghost use Rattle.grid_base.specs.Point.{IsBefore};
ghost use Rattle.hook_chain.specs.StandingChains.{HasValidChain};
ghost use Rattle.hook_chain.specs.Ids.{IsAscending};
ghost use Rattle.hook_chain.specs.Straight.{AllBelow};
ghost use Rattle.realm_drawing.specs.declared.errors.ChainError.TheVariants.{NotAChain};
ghost use Rattle.state_check.specs.Drawable.{drawing_with, IsDrawable};
ghost use Rattle.state_check.specs.Pairs.{IsFromTo};

use crate::order::{ids_rise, points_ascend};
use grid_base::{NoMemory, Original, Point};
use realm_drawing::{ChainError, Drawing};
use std::alloc::Global;

/// The drawing with these explicit points and these originals; none where the points don't ascend, the ids don't rise, or a chain
/// may not stand for its original. Whether it is a realm isn't looked at.
pub fn drawing_of(
    alloc: Global,
    points: &[Point],
    originals: &[Original],
) -> Result<Option<Drawing>, NoMemory>
    ensures { IfOk result (λ found. MatchOption found
        (IsDrawable (drawing_with points.now originals.now) → ⊥)
        (λ d. (d.drawing ≡ drawing_with points.now originals.now) × IsDrawable d.drawing)) }
{
    if !points_ascend(points) || !ids_rise(originals) {
        return Ok(None);
    }
    let mut drawing = Drawing::new(alloc);
    match place_all(&mut drawing, originals) {
        Ok(()) => {
            mark_all(&mut drawing, points)?;
            Ok(Some(drawing))
        }
        Err(ChainError::NotAChain) => Ok(None),
        Err(ChainError::NoMemory) => Err(NoMemory),
    }
}

// Adds the originals, each with its chain, to a drawing that has none.
fn place_all(drawing: &mut Drawing, originals: &[Original]) -> Result<(), ChainError>
    requires none { drawing.old.drawing ≡ drawing_with [] [] }
    requires rising { IsAscending originals.now }
    ensures placed { OnOk result (drawing.new.drawing ≡ drawing_with [] originals.now) }
    ensures valid { OnOk result (All HasValidChain originals.now) }
    ensures not_a_chain { result ≡ Err NotAChain → All HasValidChain originals.now → ⊥ }
{
    for o in originals {
        place(drawing, o)?;
    }
    Ok(())
}

// Adds the original with its chain, unless that may not stand for it.
fn place(drawing: &mut Drawing, o: &Original) -> Result<(), ChainError>
    requires id_above { AllBelow o.now.id drawing.old.drawing }
    ensures placed { OnOk result
        (drawing.new.drawing ≡ drawing_with drawing.old.drawing.points (drawing.old.drawing.originals ++ o.now ∷ [])) }
    ensures valid { OnOk result (HasValidChain o.now) }
    ensures not_a_chain { result ≡ Err NotAChain → HasValidChain o.now → ⊥ }
{
    let points = o.chain.points();
    if is_from_to(&o.a, &o.b, points) {
        drawing.place_chain(o.id, points)
    } else {
        Err(ChainError::NotAChain)
    }
}

// Whether the first point is `a` and the last `b`.
fn is_from_to(a: &Point, b: &Point, points: &[Point]) -> bool
    ensures { IsTrue result ↔ IsFromTo a.now b.now points.now }
{
    match points {
        [] => false,
        [first, ..] => first == a && &points[points.len() - 1] == b,
    }
}

// Makes the points explicit in a drawing that has no explicit point.
fn mark_all(drawing: &mut Drawing, points: &[Point]) -> Result<(), NoMemory>
    requires none { drawing.old.drawing.points ≡ [] }
    requires ascending { AllPairs IsBefore points.now }
    ensures { OnOk result (drawing.new.drawing ≡ drawing_with points.now drawing.old.drawing.originals) }
{
    for p in points {
        drawing.add_point(*p)?;
    }
    Ok(())
}
