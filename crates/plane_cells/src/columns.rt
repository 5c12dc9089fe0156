//! Columns of the sheared plane: the order of points as an order of numbers.
ghost use Rattle.std.specs.Prelude.{◌≡◌, ℕ, ◌+◌, ◌*◌, ◌<◌, ◌≤◌, Contains, IfOk};
ghost use Rattle.std.specs.List.Sorted.{IsStrictlyIncreasing};
ghost use Rattle.grid_base.specs.Grid.{grid_side, product_bound};
ghost use Rattle.plane_cells.specs.Scan.{column_of, end_columns};

use grid_base::{GRID_SIDE, NoMemory, Point, Segment};
use std::alloc::Global;

/// The column of `p` in the sheared plane.
pub fn column(p: &Point) -> u64
    ensures column { result ≡ column_of p.now }
    ensures below { result < product_bound }
{
    let x = u64::from(p.x());
    let y = u64::from(p.y());
    x * u64::from(GRID_SIDE) + y
}

/// The point with this column.
pub fn point_at(column: u64) -> Point
    requires { column < product_bound }
    ensures column { column_of result ≡ column }
    ensures on_grid { result.y < grid_side }
{
    let x = column / u64::from(GRID_SIDE);
    let y = column % u64::from(GRID_SIDE);
    Point::at(x as u32, y as u32)
}

/// The columns of all ends, ascending and each once.
pub fn vertices(alloc: Global, border: &[Segment]) -> Result<Vec<u64>, NoMemory>
    ensures ascending { IfOk result (λ v. IsStrictlyIncreasing v.items) }
    ensures all { IfOk result (λ v. (c : ℕ) → Contains (end_columns border.now) c → Contains v.items c) }
    ensures only { IfOk result (λ v. (c : ℕ) → Contains v.items c → Contains (end_columns border.now) c) }
{
    let mut columns = ends(alloc, border)?;
    columns.sort_unstable();
    columns.dedup();
    Ok(columns)
}

fn ends(alloc: Global, border: &[Segment]) -> Result<Vec<u64>, NoMemory>
    ensures { IfOk result (λ v. v.items ≡ end_columns border.now) }
{
    let mut columns = Vec::new(alloc);
    for s in border {
        columns.push(column(&s.a()))?;
        columns.push(column(&s.b()))?;
    }
    Ok(columns)
}
