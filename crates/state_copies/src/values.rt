//! The values of a table, once more in a list with their names.
ghost use Rattle.std.specs.Prelude.{◌≡◌, All, IfOk};
ghost use Rattle.line_grammar.specs.Spellable.{IsName};
ghost use Rattle.record_codec.specs.Fitting.{IsList};
ghost use Rattle.record_codec.specs.Payload.{IsNamed, AreParts, AreOfKind};
ghost use Rattle.value_table.specs.Table.{HasDistinctNames};
ghost use Rattle.state_check.specs.Tabled.{AreAscending, entries_of, entry_of, kept_parts, parts_of};

use grid_base::{NoMemory, Reply};
use record_codec::Named;
use state_check::kept_value;
use std::alloc::Global;
use value_table::{Definition, Table};

/// The values with their names, in the order of definition.
pub fn copied_values(alloc: Global, table: &Table) -> Result<Vec<Named>, NoMemory>
    requires { All (λ entry. IsName entry.0 × AreOfKind entry.1.kind (kept_parts entry.1.parts)) table.now }
    ensures same { IfOk result (λ v. entries_of v.items ≡ table.now) }
    ensures fits { IfOk result (λ v. IsList IsNamed v.items) }
    ensures ascend { IfOk result (λ v. All (λ entry. AreAscending entry.1.parts) (entries_of v.items)) }
    ensures distinct { HasDistinctNames table.now }
{
    let mut list = Vec::with_capacity(alloc, table.len())?;
    for definition in table.definitions() {
        let n = copied_value(alloc, definition)?;
        list.push(n)?;
    }
    Ok(list)
}

// The value with its name.
fn copied_value(alloc: Global, definition: &Definition) -> Result<Named, NoMemory>
    ensures same { IfOk result (λ n. entry_of n ≡ definition.now) }
    ensures ascend { IfOk result (λ n. AreAscending (parts_of n.value.parts)) }
    ensures fits { IfOk result (λ n. AreParts n.value.parts) }
{
    let name = definition.name();
    let bytes = Vec::from_slice(alloc, name.as_bytes())?;
    let value = kept_value(alloc, definition.value())?;
    Ok(Named {
        name: Reply::new(bytes),
        value,
    })
}
