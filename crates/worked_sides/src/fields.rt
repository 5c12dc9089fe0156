//! Fields of cells: a number draws which are in a region, and the region's border is the sides between cells that are in
//! it and cells that aren't. The columns of a field may lean to the right, so that its upright sides are steep ones.
use grid_base::{Point, Segment, Sides};
use rose_overlay::ascending_segments;
use rose_values::RegionsValue;
use segment_lists::are_noded;
use std::alloc::Global;

// So many cells are across, and so many up. They are counted from 1.
const WIDTH: u64 = 16;

/// A field: by which number its cells are drawn, and by how many columns it leans in each row.
#[derive(Clone, Copy)]
pub(crate) struct Field {
    pub(crate) number: u64,
    pub(crate) lean: u64,
}

impl Field {
    // Whether a cell is in the region. Those off the field aren't.
    fn has(&self, x: u64, y: u64) -> bool {
        let on_field = 1 <= x && x <= WIDTH && 1 <= y && y <= WIDTH;
        let cell = self
            .number
            .wrapping_mul(1_048_583)
            .wrapping_add(x.wrapping_mul(1_031))
            .wrapping_add(y);
        on_field && (mixed(mixed(cell)) >> 40) % 2 == 1
    }

    // The corner at the lower left of a cell.
    fn corner(&self, x: u64, y: u64) -> Option<Point> {
        let across = x.wrapping_mul(3).wrapping_add(y.wrapping_mul(self.lean));
        Point::new(across, y).ok()
    }

    // The cells on the left and on the right of a side that is level, or isn't, and begins at this corner.
    fn beside(&self, x: u64, y: u64, level: bool) -> Sides {
        if level {
            Sides {
                left: self.has(x, y),
                right: self.has(x, y.wrapping_sub(1)),
            }
        } else {
            Sides {
                left: self.has(x.wrapping_sub(1), y),
                right: self.has(x, y),
            }
        }
    }

    // Adds a side to the list if it is of the border.
    fn push_side(&self, list: &mut Vec<Segment>, x: u64, y: u64, level: bool) -> Option<()> {
        let beside = self.beside(x, y, level);
        if beside.left != beside.right {
            let from = self.corner(x, y)?;
            let to = if level {
                self.corner(x.wrapping_add(1), y)?
            } else {
                self.corner(x, y.wrapping_add(1))?
            };
            list.push(Segment::new(from, to)?).ok()?;
        }
        Some(())
    }

    /// The region of its cells.
    pub(crate) fn region(&self, alloc: Global) -> Option<RegionsValue> {
        let mut list = Vec::new(alloc);
        for x in 1..WIDTH + 2 {
            for y in 1..WIDTH + 2 {
                self.push_side(&mut list, x, y, true)?;
                self.push_side(&mut list, x, y, false)?;
            }
        }
        let list = ascending_segments(list);
        if !are_noded(&list) {
            return None;
        }
        RegionsValue::from_segments(list).ok()
    }

    /// What lies beside a segment of its border, as the cells say.
    pub(crate) fn wanted(&self, s: &Segment) -> Sides {
        let y = u64::from(s.a().y());
        let across = u64::from(s.a().x()).wrapping_sub(y.wrapping_mul(self.lean));
        self.beside(across / 3, y, s.a().y() == s.b().y())
    }
}

// A number drawn from another.
fn mixed(n: u64) -> u64 {
    (n ^ (n >> 29))
        .wrapping_mul(6_364_136_223_846_793_005)
        .wrapping_add(1_442_695_040_888_963_407)
}
