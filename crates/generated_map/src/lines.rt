//! The changes of a map that nobody wrote.
ghost use Rattle.std.specs.Prelude.{◌≡◌, ◌≤◌, ◌∷◌, [], IfOk};
ghost use Rattle.std.specs.List.{AllByRecursion};
ghost use Rattle.line_grammar.specs.Spellable.{IsSpellableChange, IsName, ArePoints};
ghost use Rattle.generated_map.specs.Generated.{change_between, name_of, triangle, IsNear};

use crate::drawing_lots::Corners;
use grid_base::NoMemory;
use line_grammar::{At, Change, Name, Path, Paths};
use std::alloc::Global;

/// The change with this number between the corners.
pub(crate) fn change_between(
    alloc: Global,
    number: u64,
    corners: Corners,
) -> Result<Change, NoMemory>
    requires few { number ≤ 100000 }
    requires low { IsNear corners.low }
    requires high { IsNear corners.high }
    ensures change { IfOk result (λ c. c ≡ change_between number corners) }
    ensures spellable { IfOk result IsSpellableChange }
{
    if number % 4 == 0 {
        let name = name_of(alloc, number)?;
        let cycle = triangle(alloc, corners)?;
        Ok(Change::Regions(name, cycle))
    } else {
        Ok(Change::Segment(corners.low, corners.high))
    }
}

fn name_of(alloc: Global, number: u64) -> Result<Name, NoMemory>
    requires few { number ≤ 100000 }
    ensures name { IfOk result (λ name. name ≡ name_of number) }
    ensures spellable { IfOk result IsName }
{
    let text = format!(in alloc; "r{number}")?;
    Ok(Name::new(text))
}

fn triangle(alloc: Global, corners: Corners) -> Result<Paths, NoMemory>
    requires low { IsNear corners.low }
    requires high { IsNear corners.high }
    ensures cycles { IfOk result (λ cycles. cycles ≡ triangle corners ∷ []) }
    ensures spellable { IfOk result (AllByRecursion ArePoints) }
{
    let right = At {
        x: corners.high.x,
        y: corners.low.y,
    };
    let top = At {
        x: corners.high.x,
        y: corners.high.y + 1,
    };
    let mut places = Vec::new(alloc);
    places.push(corners.low)?;
    places.push(right)?;
    places.push(top)?;
    let mut cycles = Vec::new(alloc);
    cycles.push(Path::new(places))?;
    Ok(Paths::new(cycles))
}
