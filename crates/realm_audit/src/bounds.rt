//! Boxes, as a search for pieces is given them.
ghost use Rattle.std.specs.Prelude.{◌≤◌, ◌<◌};
ghost use Rattle.grid_base.specs.Grid.{grid_side};

/// A box: its columns and its rows, from which to which.
#[derive(Clone, Copy)]
pub(crate) struct Bounds {
    pub(crate) left: u32,
    pub(crate) right: u32,
    pub(crate) low: u32,
    pub(crate) high: u32,
    ghost across: { left ≤ right },
    ghost right_on_grid: { right < grid_side },
    ghost low_on_grid: { low < grid_side },
    ghost high_on_grid: { high < grid_side },
}
