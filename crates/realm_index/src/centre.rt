//! Centres of boxes, and how far two of them are apart.
ghost use Rattle.std.specs.Prelude.{◌≡◌, ◌+◌, ◌/◌, ◌≤◌};

use crate::bounds::Bounds;

// The middle of a box, but for the last bit of a column or a row.
#[derive(Clone, Copy, Debug)]
pub(crate) struct Centre {
    x: u32,
    y: u32,
}

impl Centre {
    // The centre of the box.
    pub(crate) fn of(b: &Bounds) -> Centre
        ensures column { result.x ≡ b.now.left / 2 + b.now.right / 2 }
        ensures row { result.y ≡ b.now.low / 2 + b.now.high / 2 }
    {
        Centre {
            x: middle(b.left(), b.right()),
            y: middle(b.low(), b.high()),
        }
    }

    // The level of the least of the grid's squares that has both.
    pub(crate) fn apart(&self, other: &Centre) -> u32
        ensures { result ≤ 32 }
    {
        32_u32.saturating_sub(self.differing(other).leading_zeros())
    }

    // Whether both have this bit alike, in their columns and in their rows.
    pub(crate) fn agrees(&self, other: &Centre, bit: u32) -> bool {
        self.differing(other) & bit == 0
    }

    // The bits in which the columns differ, or the rows.
    fn differing(&self, other: &Centre) -> u32 {
        (self.x ^ other.x) | (self.y ^ other.y)
    }
}

fn middle(from: u32, to: u32) -> u32
    ensures { result ≡ from / 2 + to / 2 }
{
    from / 2 + to / 2
}
