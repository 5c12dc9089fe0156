//! What an operator is applied to: both values come from one drawing, so all their segments form one realm.
ghost use Rattle.std.specs.Prelude.{◌≡◌, false, Some, IfOk, IfSome, MatchOption};
ghost use Rattle.std.specs.Option.{option_copied};
ghost use Rattle.realm_insert.specs.Operands.{LacksOperand, AreOperands};
ghost use Rattle.realm_insert.specs.Values.{IsGeometryNamed};
ghost use Rattle.rose_operators.specs.Results.{IsAscending};

use crate::engine::Engine;
use grid_base::NoMemory;
use line_grammar::Name;
use rose_values::Geometry;
use std::thread::{Threads, join};
use value_table::Parts;

// A value of fewer originals isn't worth a thread.
const MANY: usize = 1_024;

/// What the values that an operator takes are made of. They are let go of by one call.
pub struct Operands {
    pub first: Geometry,
    pub second: Option<Geometry>,
}

impl Drop for Operands {
    fn drop(self) {
        let Operands {
            first: _first,
            second: _second,
        } = self;
    }
}

/// What the values with these names are made of at present; none where one of the names is no value's. Only the chains
/// of their parts are looked at.
pub fn operands_named(
    state: &Engine,
    first: &Name,
    second: Option<&Name>,
) -> Result<Option<Operands>, NoMemory>
    requires ready { state.now.spent ≡ false }
    ensures { IfOk result (λ found. MatchOption found
        (LacksOperand first.now (option_copied second.entry) state.now.state.values)
        (λ of. AreOperands first.now (option_copied second.entry) state.now.state of.first of.second)) }
{
    // What is drawn is a realm.
    let _ = state.drawing();
    let Some(first) = ascending(state, first)? else {
        return Ok(None);
    };
    let Some(second) = second else {
        return Ok(Some(Operands {
            first,
            second: None,
        }));
    };
    let Some(second) = ascending(state, second)? else {
        return Ok(None);
    };
    Ok(Some(Operands {
        first,
        second: Some(second),
    }))
}

/// The same, by two threads where both values have many parts.
pub fn operands_side_by_side<R: Threads + Sync>(
    rt: &R,
    state: &Engine,
    first: &Name,
    second: Option<&Name>,
) -> Result<Option<Operands>, NoMemory>
    requires ready { state.now.spent ≡ false }
    ensures { IfOk result (λ found. MatchOption found
        (LacksOperand first.now (option_copied second.entry) state.now.state.values)
        (λ of. AreOperands first.now (option_copied second.entry) state.now.state of.first of.second)) }
{
    match second {
        Some(second) if has_many_parts(state, first) && has_many_parts(state, second) => {
            operands_by_two(rt, state, first, second)
        }
        _ => operands_named(state, first, second),
    }
}

// What the values with these names are made of, each by a thread.
fn operands_by_two<R: Threads + Sync>(
    rt: &R,
    state: &Engine,
    first: &Name,
    second: &Name,
) -> Result<Option<Operands>, NoMemory>
    requires ready { state.now.spent ≡ false }
    ensures { IfOk result (λ found. MatchOption found
        (LacksOperand first.now (Some second.now) state.now.state.values)
        (λ of. AreOperands first.now (Some second.now) state.now.state of.first of.second)) }
{
    // What is drawn is a realm.
    let _ = state.drawing();
    let (first, second) = join(
        rt,
        || -> Result<Option<Geometry>, NoMemory>
            requires { state.now.spent ≡ false }
            ensures named { IfOk result (λ found. IsGeometryNamed state.entry.now.state first.entry.now found) }
            ensures ascending { IfOk result (λ found. IfSome found IsAscending) }
        { ascending(state, first) },
        || -> Result<Option<Geometry>, NoMemory>
            requires { state.now.spent ≡ false }
            ensures named { IfOk result (λ found. IsGeometryNamed state.entry.now.state second.entry.now found) }
            ensures ascending { IfOk result (λ found. IfSome found IsAscending) }
        { ascending(state, second) },
    );
    match (first?, second?) {
        (Some(first), Some(second)) => Ok(Some(Operands {
            first,
            second: Some(second),
        })),
        _ => Ok(None),
    }
}

// Whether the value with this name is made of so many originals that a thread is worth its while.
fn has_many_parts(state: &Engine, name: &Name) -> bool
    requires ready { state.now.spent ≡ false }
{
    match state.table().get(name.text()) {
        Some(value) => match &value.parts {
            Parts::Ids(list) => list.ids().len() >= MANY,
            Parts::Points(_) => false,
        },
        None => false,
    }
}

// What the value with this name is made of at present, which ascends.
fn ascending(state: &Engine, name: &Name) -> Result<Option<Geometry>, NoMemory>
    requires ready { state.now.spent ≡ false }
    ensures named { IfOk result (λ found. IsGeometryNamed state.now.state name.now found) }
    ensures ascending { IfOk result (λ found. IfSome found IsAscending) }
{
    let Some(geometry) = state.geometry(name.text())? else {
        return Ok(None);
    };
    ascends(&geometry);
    Ok(Some(geometry))
}

// What a geometry lists ascends.
fn ascends(geometry: &Geometry)
    ensures { IsAscending geometry.now }
{
    match geometry {
        Geometry::P(points) => {
            let _ = points.points();
        }
        Geometry::L(lines) => {
            let _ = lines.segments();
        }
        Geometry::R(region) => {
            let _ = region.segments();
        }
    }
}
