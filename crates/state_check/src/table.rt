//! Tables of given values.
ghost use Rattle.std.specs.Prelude.{◌≡◌, ◌++◌, ◌∷◌, [], IfOk, MatchOption, MatchBool};
ghost use Rattle.value_table.specs.Table.{IsNamed};
ghost use Rattle.state_check.specs.Tabled.{AreTabled, AreAscending, Fits, entries_of, entry_of, parts_of};

use crate::names::name_of;
use crate::parts::has_parts;
use crate::values::value_of;
use grid_base::NoMemory;
use realm_drawing::Drawing;
use record_codec::Named;
use std::alloc::Global;
use value_table::{Table, TableError};

/// The table of these values, each by its name; none where a name is none of a line or is there twice, the parts of a value don't
/// ascend, or the drawing hasn't them.
pub fn table_of(
    alloc: Global,
    drawing: &Drawing,
    values: &[Named],
) -> Result<Option<Table>, NoMemory>
    ensures { IfOk result (λ found. MatchOption found (AreTabled drawing.now.drawing (entries_of values.now) → ⊥)
        (λ table. (table ≡ entries_of values.now) × AreTabled drawing.now.drawing table)) }
{
    let mut table = Table::new(alloc);
    for n in values {
        let may = define(alloc, drawing, &mut table, n)?;
        if !may {
            return Ok(None);
        }
    }
    // That no name is there twice is known where they are counted.
    let _distinct = table.len();
    Ok(Some(table))
}

// Defines the value in the table, and says whether it may be there.
fn define(alloc: Global, drawing: &Drawing, table: &mut Table, n: &Named) -> Result<bool, NoMemory>
    ensures { IfOk result (λ may. MatchBool may
        ((table.new ≡ table.old ++ entry_of n.now ∷ []) × Fits drawing.now.drawing (entry_of n.now)
        × AreAscending (parts_of n.now.value.parts))
        (Fits drawing.now.drawing (entry_of n.now) → AreAscending (parts_of n.now.value.parts)
        → IsNamed n.now.name table.old)) }
{
    let Some(name) = name_of(n.name.bytes()) else {
        return Ok(false);
    };
    if !has_parts(alloc, drawing, &n.value)? {
        return Ok(false);
    }
    let made = value_of(alloc, &n.value)?;
    let Some(value) = made else {
        return Ok(false);
    };
    match table.define(name, value) {
        Ok(()) => Ok(true),
        Err(TableError::Taken) => Ok(false),
        Err(TableError::NoMemory) => Err(NoMemory),
    }
}
