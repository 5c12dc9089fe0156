//! The numbers of classes, from the labels that one sweep finds: each label is numbered by the least of those
//! that links lead to from it.
ghost use Rattle.std.specs.Prelude.{◌≡◌, ◌+◌, ◌≤◌, ◌<◌, ℕ, length, slice_index, IfOk};
ghost use Rattle.plane_cells.specs.Sheared.{AreOfRealm};
ghost use Rattle.plane_cells.specs.Scan.{AreAscending};
ghost use Rattle.plane_cells.specs.Swept.{AreOthers};
ghost use Rattle.plane_cells.specs.Rims.{rims, IsInterior};
ghost use Rattle.plane_cells.specs.ClassNumbers.{AreClassNumbers};
ghost use Rattle.plane_cells.specs.OtherNumbers.{AreOtherNumbers, HasNumbers, AreRead};

use crate::classes::SideClasses;
use crate::sweep::pass_all;
use grid_base::{NoMemory, Segment};
use linked_parts::components;
use std::alloc::Global;

// For each segment of the border the numbers of its sides, and for each of the others that of its class.
#[derive(Drop)]
pub(crate) struct Numbers {
    pub(crate) sides: Vec<SideClasses>,
    pub(crate) others: Vec<usize>,
}

// The numbers for a border, and for segments that aren't of it.
pub(crate) fn find_numbers(
    alloc: Global,
    border: &[Segment],
    others: &[Segment],
) -> Result<Numbers, NoMemory>
    requires realm { AreOfRealm border.now }
    requires ascending { AreAscending border.now }
    requires others { AreOthers border.now others.now }
    ensures sides { IfOk result (λ n. AreClassNumbers border.now n.sides.items) }
    ensures interior { IfOk result (λ n. IsInterior border.now (rims border.now n.sides.items)) }
    ensures others { IfOk result (λ n. AreOtherNumbers border.now others.now n.others.items) }
{
    let found = pass_all(alloc, border, others)?;
    let labels = components(alloc, border.len() + 1, &found.links)?;
    let sides = side_numbers(alloc, &labels, &found.right)?;
    let others = read_all(alloc, &labels, &found.asked)?;
    Ok(Numbers { sides, others })
}

// For each segment the numbers of the labels over it and under it.
fn side_numbers(
    alloc: Global,
    labels: &[usize],
    right: &[usize],
) -> Result<Vec<SideClasses>, NoMemory>
    requires count { length labels.now ≡ length right.now + 1 }
    requires within { (i : ℕ) → slice_index right.now i ≤ length right.now }
    ensures { IfOk result (λ v. HasNumbers labels.now right.now v.items) }
{
    let mut sides = Vec::new(alloc);
    for i in 0..right.len() {
        let under: usize = right[i];
        sides.push(SideClasses {
            left: labels[i + 1] as u64,
            right: labels[under] as u64,
        })?;
    }
    Ok(sides)
}

// The number of each label of the list.
fn read_all(alloc: Global, labels: &[usize], list: &[usize]) -> Result<Vec<usize>, NoMemory>
    requires within { (k : ℕ) → slice_index list.now k < length labels.now }
    ensures { IfOk result (λ v. AreRead labels.now list.now v.items) }
{
    let mut numbers = Vec::new(alloc);
    for k in 0..list.len() {
        let label: usize = list[k];
        numbers.push(labels[label])?;
    }
    Ok(numbers)
}
