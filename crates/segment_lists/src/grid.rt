//! What the type of a segment says, as a fact of lists.
ghost use Rattle.std.specs.Prelude.{All};
ghost use Rattle.segment_lists.specs.OnGrid.{IsOnGrid};

use grid_base::Segment;

/// Each segment has its lesser end first and is on the grid, as the types say. This is a law: it answers nothing.
pub fn each_is_on_grid(list: &[Segment])
    ensures { All IsOnGrid list.now }
{
    for s in list {
        let lesser = s.a();
        let greater = s.b();
        let _row = lesser.y();
        let _end_column = greater.x();
        let _end_row = greater.y();
    }
}
