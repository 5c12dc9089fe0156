//! Points between the grid points, as fractions.
ghost use Rattle.std.specs.Prelude.{◌<◌, ◌*◌, pos, ◌<ℤ◌, ◌≤ℤ◌};
ghost use Rattle.grid_base.specs.Grid.{side_bound, numerator_bound};

/// The point (x / w, y / w) at which two segments cross, in grid coordinates. A point has many such
/// fractions, so two of them are compared by products and not by their numbers.
#[derive(Clone, Copy, Debug)]
pub struct Crossing {
    /// How many `w`-th parts the point is to the right of column 0.
    pub x: i128,
    /// How many `w`-th parts it is above row 0.
    pub y: i128,
    /// How many parts a column or row has.
    pub w: i128,
    ghost real: { pos 0 <ℤ w },
    ghost from_0: { (pos 0 ≤ℤ x) × (pos 0 ≤ℤ y) },
    ghost numerators_below: { (x <ℤ pos numerator_bound) × (y <ℤ pos numerator_bound) },
    ghost weight_below: { w <ℤ pos (2 * side_bound) },
}
