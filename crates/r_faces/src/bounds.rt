//! A face by its rim: the border to the outside, and one to each part that it encloses.
ghost use Rattle.std.specs.Prelude.{◌≡◌, ◌≢◌, ◌⊎◌, ℕ, ◌<◌, ◌≤◌, All, AllPairs, Contains};
ghost use Rattle.std.specs.Prelude.{IfOk, IsTrue, length, slice_index};
ghost use Rattle.std.specs.Prelude.{◌==◌, if◌then◌else◌};
ghost use Rattle.grid_base.specs.Segment.{GridSegment, IsSegmentBefore, segment_of};
ghost use Rattle.grid_base.specs.Sides.{Left, Right};
ghost use Rattle.grid_base.specs.Plane.{Place};
ghost use Rattle.grid_base.specs.Border.{AreNoded, IsEvenBorder};
ghost use Rattle.r_cycles.specs.Cycles.{link};
ghost use Rattle.plane_cells.specs.Numbered.{numbered};
ghost use Rattle.plane_cells.specs.ClassNumbers.{number_at, AreClassNumbers};
ghost use Rattle.class_borders.specs.ClassLinks.{class_links, class_rim};
ghost use Rattle.r_blocks.specs.Places.{AllIndexed};
ghost use Rattle.r_faces.specs.FaceCycles.{IsBounded};
ghost use Rattle.r_faces.specs.Rims.{IsInside};
ghost use Rattle.r_faces.specs.Rounds.{AreBeyond, IsFaceNumber, IsRound};

use crate::face::{Face, Holes};
use crate::ordering::in_order;
use crate::parts::parted;
use crate::turning::turned;
use class_borders::{one_cycle_between_classes, some_side_is_outer};
use grid_base::{Chain, NoMemory, Point, Segment};
use plane_cells::{SideClasses, side_classes};
use r_cycles::cycles;
use segment_lists::each_is_on_grid;
use std::alloc::Global;

// The face inside the rim.
pub(crate) fn face_of(alloc: Global, rim: &[Segment]) -> Result<Face, NoMemory>
    requires noded { AreNoded rim.now }
    requires ascending { AllPairs IsSegmentBefore rim.now }
    requires even { IsEvenBorder rim.now }
    requires some { 0 < length rim.now }
    requires inside { (z : Place) × IsInside rim.now z }
    ensures { IfOk result (λ f. (z : Place) → IsInside rim.now z → IsBounded rim.now z f) }
{
    each_is_on_grid(rim);
    let classes = side_classes(alloc, rim)?;
    some_side_is_outer(rim, &classes);
    let face = face_number(&classes);
    let numbers = other_numbers(alloc, &classes, face)?;
    let parts = parted(alloc, rim, &numbers)?;
    let mut cycles = cycles_of(alloc, rim, &classes, &parts.keys, &parts.lists)?;
    let outer = cycles.remove(0);
    let holes = in_order(cycles)?;
    Ok(Face {
        outer,
        holes: Holes::new(holes),
    })
}

// The number on the left of a segment that has the outer class on its right.
fn face_number(classes: &[SideClasses]) -> u64
    requires { (i : ℕ) × (i < length classes.now) × (number_at classes.now i Right ≡ 0) }
    ensures { (i : ℕ) × (i < length classes.now) × (number_at classes.now i Right ≡ 0)
        × (result ≡ number_at classes.now i Left) }
{
    for class in classes {
        if class.right == 0 {
            return class.left;
        }
    }
    0
}

// For each segment the number of the class beyond the face.
fn other_numbers(alloc: Global, classes: &[SideClasses], face: u64) -> Result<Vec<u64>, NoMemory>
    ensures { IfOk result (λ v. AreBeyond classes.now face (length classes.now) v.items) }
{
    let mut numbers = Vec::new(alloc);
    for i in 0..classes.len() {
        numbers.push(beyond(classes[i], face))?;
    }
    Ok(numbers)
}

// The number on the side that isn't the face's.
fn beyond(class: SideClasses, face: u64) -> u64
    ensures { result ≡ (if class.left == face then class.right else class.left) }
{
    if class.left == face {
        class.right
    } else {
        class.left
    }
}

// For each class beyond the face the cycle between them.
fn cycles_of(
    alloc: Global,
    rim: &[Segment],
    classes: &[SideClasses],
    keys: &[u64],
    lists: &[Vec<Segment>],
) -> Result<Vec<Chain>, NoMemory>
    requires noded { AreNoded rim.now }
    requires ascending { AllPairs IsSegmentBefore rim.now }
    requires classes { AreClassNumbers rim.now classes.now }
    requires face { (face : ℕ) × IsFaceNumber rim.now classes.now face × All (λ n. n ≢ face) keys.now }
    requires one_each { length lists.now ≡ length keys.now }
    requires some { All (λ part. 0 < length part.items) lists.now }
    requires parts { AllIndexed (λ k part. part.items
        ≡ class_rim (slice_index keys.now k) rim.now classes.now) lists.now }
    ensures length { IfOk result (λ v. length v.items ≡ length keys.now) }
    ensures rounds { IfOk result (λ v. AllIndexed (λ k c.
        IsRound rim.now classes.now (slice_index keys.now k) c) v.items) }
{
    let mut cycles = Vec::new(alloc);
    for k in 0..keys.len() {
        cycles.push(cycle_of(alloc, rim, classes, keys[k], &lists[k])?)?;
    }
    Ok(cycles)
}

// The cycle along the segments with the class `number` on one side and that of the face on the other, with
// the face on the left.
fn cycle_of(
    alloc: Global,
    rim: &[Segment],
    classes: &[SideClasses],
    number: u64,
    part: &[Segment],
) -> Result<Chain, NoMemory>
    requires noded { AreNoded rim.now }
    requires ascending { AllPairs IsSegmentBefore rim.now }
    requires classes { AreClassNumbers rim.now classes.now }
    requires face { (face : ℕ) × (number ≢ face) × IsFaceNumber rim.now classes.now face }
    requires some { 0 < length part.now }
    requires part { part.now ≡ class_rim number rim.now classes.now }
    ensures { IfOk result (IsRound rim.now classes.now number) }
{
    each_is_on_grid(rim);
    let found = cycles(alloc, part)?;
    one_cycle_between_classes(rim, part, &found);
    let cycle = found[0].points();
    let forward = is_on_right(rim, classes, number, cycle[0], cycle[1]);
    turned(alloc, cycle, forward)
}

// Whether the class `number` is on the right on the way from `v` to `w`, where it is on one side.
fn is_on_right(rim: &[Segment], classes: &[SideClasses], number: u64, v: Point, w: Point) -> bool
    requires noded { AreNoded rim.now }
    requires ascending { AllPairs IsSegmentBefore rim.now }
    requires one_each { length classes.now ≡ length rim.now }
    requires apart { v ≢ w }
    requires there { Contains (class_rim number rim.now classes.now) (segment_of v w) }
    ensures right { IsTrue result → Contains (class_links number rim.now classes.now) (link w v) }
    ensures left { (IsTrue result → ⊥) → Contains (class_links number rim.now classes.now) (link v w) }
{
    match Segment::new(v, w) {
        Some(s) => {
            let class = classes[place_of(rim, &s)];
            is_right(class, number, v.comes_before(&w))
        }
        None => false,
    }
}

// Whether the number is that of the right side where `forward`, and else whether it is that of the left one.
fn is_right(class: SideClasses, number: u64, forward: bool) -> bool
    ensures { result ≡ (if forward then (class.right == number) else (class.left == number)) }
{
    if forward {
        class.right == number
    } else {
        class.left == number
    }
}

/// The place, from 0, of a segment that an ascending list has.
pub fn place_of(rim: &[Segment], s: &Segment) -> usize
    requires ascending { AllPairs IsSegmentBefore rim.now }
    requires there { Contains rim.now s.now }
    ensures within { result < length rim.now }
    ensures place { numbered rim.now result ≡ s.now }
{
    match rim.binary_search(s) {
        Ok(i) | Err(i) => i,
    }
}
