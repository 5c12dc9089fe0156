//! Values by lists of names. All are made of one drawing, so their segments together are those of one realm.
ghost use Rattle.std.specs.Prelude.{◌≡◌, false, map, Some, IfOk, IfSome, IsNone, MatchOption};
ghost use Rattle.grid_base.specs.Border.{AreNoded};
ghost use Rattle.rose_sets.specs.Sums.{all_segments};
ghost use Rattle.realm_insert.specs.Operands.{LacksName};
ghost use Rattle.rose_query.specs.Sets.{IsPresentValue, ArePresentValues, LacksSome, names_of, keys_of};

use grid_base::NoMemory;
use line_grammar::Name;
use realm_insert::Engine;
use rose_sets::ascends;
use rose_values::Geometry;
use std::alloc::Global;

/// What the values with these names are made of at present, in the order of the names; none where one of the names is
/// no value's. Only the chains of their parts are looked at.
pub(crate) fn values_named(
    alloc: Global,
    state: &Engine,
    names: &[Name],
) -> Result<Option<Vec<Geometry>>, NoMemory>
    requires ready { state.now.spent ≡ false }
    ensures { IfOk result (λ found. MatchOption found (LacksSome names.now state.now.state.values)
        (λ list. ArePresentValues state.now.state names.now list.items)) }
{
    let mut list = Vec::new(alloc);
    for name in names {
        let Some(geometry) = value_named(state, name)? else {
            return Ok(None);
        };
        list.push(geometry)?;
    }
    Ok(Some(list))
}

/// The same of names with keys.
pub(crate) fn values_keyed(
    alloc: Global,
    state: &Engine,
    entries: &[(Name, u64)],
) -> Result<Option<Vec<Geometry>>, NoMemory>
    requires ready { state.now.spent ≡ false }
    ensures { IfOk result (λ found. MatchOption found
        (LacksSome (names_of entries.now) state.now.state.values)
        (λ list. ArePresentValues state.now.state (names_of entries.now) list.items)) }
{
    let mut list = Vec::new(alloc);
    for (name, _) in entries {
        let Some(geometry) = value_named(state, name)? else {
            return Ok(None);
        };
        list.push(geometry)?;
    }
    Ok(Some(list))
}

/// The keys of the entries, in their order.
pub(crate) fn keys(alloc: Global, entries: &[(Name, u64)]) -> Result<Vec<u64>, NoMemory>
    ensures { IfOk result (λ v. v.items ≡ keys_of entries.now) }
{
    let mut keys = Vec::new(alloc);
    for (_, key) in entries {
        keys.push(*key)?;
    }
    Ok(keys)
}

/// What the value with this name is made of at present; none where the name is no value's.
pub(crate) fn value_named(state: &Engine, name: &Name) -> Result<Option<Geometry>, NoMemory>
    requires ready { state.now.spent ≡ false }
    ensures { IfOk result (λ found. MatchOption found (LacksName name.now state.now.state.values)
        (IsPresentValue state.now.state name.now)) }
{
    match state.geometry(name.text())? {
        Some(geometry) => {
            ascends(&geometry);
            Ok(Some(geometry))
        }
        None => Ok(None),
    }
}
