//! The window of a box: on each level the columns and the rows in which pieces that reach the box stand, and where a search
//! goes on behind a shelf.
ghost use Rattle.std.specs.Prelude.{◌≡◌, ◌+◌, ◌<◌, ◌≤◌, IfSome, IfNone};
ghost use Rattle.std.specs.declared.cmp.Ordering.TheVariants.{Less};
ghost use Rattle.grid_base.specs.Grid.{grid_side};
ghost use Rattle.realm_audit.specs.Shelves.{top_level};
ghost use Rattle.realm_audit.specs.Windows.{window_at, NoneUpTo, IsAtWindow};
ghost use Rattle.realm_audit.specs.Ranges.{shelf_cmp};

use crate::bounds::Bounds;
use crate::shelves::{Shelf, TOP_LEVEL, column_of, reach};

/// The columns of a level from `first` to `last`, and its rows behind `below` up to `top`.
#[derive(Clone, Copy)]
pub(crate) struct Window {
    pub(crate) first: u32,
    pub(crate) last: u32,
    pub(crate) below: u32,
    pub(crate) top: u32,
}

// The window of the bounds on a level.
fn window_of(bounds: &Bounds, level: u32) -> Window
    requires { level ≤ top_level }
    ensures window { result ≡ window_at bounds.now level }
    ensures last_on_grid { result.last < grid_side }
{
    let reach = reach(level);
    Window {
        first: column_of(bounds.left.saturating_sub(reach), level),
        last: column_of(bounds.right, level),
        below: bounds.low.saturating_sub(reach),
        top: bounds.high + 1,
    }
}

// Where a search goes on behind a shelf: none where that shelf is in the window of its level, or just below it in one of its
// columns.
pub(crate) fn next_shelf(bounds: &Bounds, at: &Shelf) -> Option<Shelf>
    requires { at.now.level ≤ top_level }
    ensures ahead { IfSome result (λ next. shelf_cmp at.now next ≡ Less) }
    ensures none_between { IfSome result (NoneUpTo bounds.now at.now) }
    ensures there { IfNone result (IsAtWindow (window_at bounds.now at.now.level) at.now) }
{
    let Shelf { level, column, row } = *at;
    let window = window_of(bounds, level);
    if column < window.first {
        Some(Shelf {
            level,
            column: window.first,
            row: window.below,
        })
    } else if column > window.last || (column == window.last && row > window.top) {
        Some(first_shelf(bounds, level + 1))
    } else if row < window.below {
        Some(Shelf {
            level,
            column,
            row: window.below,
        })
    } else if row > window.top {
        Some(Shelf {
            level,
            column: column + 1,
            row: window.below,
        })
    } else {
        None
    }
}

// Where a search begins on a level, or behind all levels.
fn first_shelf(bounds: &Bounds, level: u32) -> Shelf
    requires { level ≤ top_level + 1 }
    ensures level { result.level ≡ level }
    ensures column { result.column ≡ (window_at bounds.now level).first }
    ensures row { result.row ≡ (window_at bounds.now level).below }
{
    if level > TOP_LEVEL {
        return Shelf {
            level,
            column: 0,
            row: 0,
        };
    }
    let window = window_of(bounds, level);
    Shelf {
        level,
        column: window.first,
        row: window.below,
    }
}
