//! What a change makes of the values: one more at the end, or one fewer.
ghost use Rattle.std.specs.Prelude.{◌≡◌, ◌+◌, ◌≤◌, ◌^◌, ◌++◌, ◌∷◌, [], IfOk, OnOk, length};
ghost use Rattle.value_table.specs.Table.{IsNamed};
ghost use Rattle.realm_insert.specs.Changes.{AreValuesAfter, IsPointsOf, IsValueOfFigure, ids_from};
ghost use Rattle.realm_insert.specs.Refusals.{DefinesTwice};

use crate::asked::name_of;
use crate::figure::Figure;
use grid_base::{Kind, NoMemory, Point};
use line_grammar::{Change, Name};
use rose_values::PointsValue;
use std::alloc::Global;
use value_table::{IdList, Parts, Table, TableError, Value};

// Makes the change in the table. The originals of the figure have ids from `first` on.
pub(crate) fn revalue(
    alloc: Global,
    table: &mut Table,
    first: u64,
    c: &Change,
    figure: Figure,
) -> Result<(), NoMemory>
    requires free { DefinesTwice c.now table.old → ⊥ }
    requires most { first + length figure.segments ≤ 2 ^ 32 }
    ensures { OnOk result (AreValuesAfter c.now figure first table.old table.new) }
{
    if let Change::Drop(name) = c {
        table.drop_name(name.text());
        return Ok(());
    }
    match name_of(c) {
        Some(name) => define(table, name, value_of(alloc, first, figure)?),
        None => Ok(()),
    }
}

// The value that the figure makes.
fn value_of(alloc: Global, first: u64, figure: Figure) -> Result<Value, NoMemory>
    requires most { first + length figure.segments ≤ 2 ^ 32 }
    ensures { IfOk result (IsValueOfFigure figure.kind figure first) }
{
    match figure.kind() {
        Kind::Points => Ok(points_value(figure.into_points())),
        kind => Ok(value_of_ids(alloc, kind, first, figure.segments().len() as u64)?),
    }
}

// Gives a name that isn't there to `v`.
fn define(table: &mut Table, name: &Name, v: Value) -> Result<(), NoMemory>
    requires { IsNamed name.now table.old → ⊥ }
    ensures { OnOk result (table.new ≡ table.old ++ (name.now, v) ∷ []) }
{
    match table.define(name.text(), v) {
        Ok(()) => Ok(()),
        Err(TableError::NoMemory) => Err(NoMemory),
        Err(TableError::Taken) => unreachable!(),
    }
}

// The value of these points, ascending, each once.
fn points_value(mut points: Vec<Point>) -> Value
    ensures { IsPointsOf points.items result }
{
    points.sort_unstable();
    points.dedup();
    Value {
        kind: Kind::Points,
        parts: Parts::Points(PointsValue::new(points)),
    }
}

// The value of this kind of so many originals, the first with the id `first`.
fn value_of_ids(alloc: Global, kind: Kind, first: u64, added: u64) -> Result<Value, NoMemory>
    requires most { first + added ≤ 2 ^ 32 }
    ensures { IfOk result (λ v. (v.kind ≡ kind) × (v.parts ≡ Parts.Ids (ids_from first added))) }
{
    let mut list = Vec::new(alloc);
    for k in 0..added {
        list.push((first + k) as u32)?;
    }
    let parts = Parts::Ids(IdList::new(list));
    Ok(Value { kind, parts })
}
