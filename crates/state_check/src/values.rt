//! Values of tables, and values that are kept.
ghost use Rattle.std.specs.Prelude.{◌≡◌, ◌<◌, IfOk, MatchOption, AllPairs};
ghost use Rattle.grid_base.specs.Point.{IsBefore};
ghost use Rattle.record_codec.specs.Payload.{AreParts};
ghost use Rattle.state_check.specs.Tabled.{AreAscending, parts_of, value_of};
ghost use Rattle.value_table.specs.declared.value.Parts.TheVariants as made;

use crate::copies::{copied_ids, copied_points};
use crate::order::{numbers_rise, points_ascend};
use grid_base::{NoMemory, Point};
use record_codec::{KeptParts, KeptValue, ListOf};
use rose_values::PointsValue;
use std::alloc::Global;
use value_table::{IdList, Parts, Value};

// The value that is kept; none where its parts don't ascend.
pub(crate) fn value_of(alloc: Global, v: &KeptValue) -> Result<Option<Value>, NoMemory>
    ensures { IfOk result (λ found. MatchOption found (AreAscending (parts_of v.now.parts) → ⊥)
        (λ w. (w ≡ value_of v.now) × AreAscending (parts_of v.now.parts))) }
{
    let made = parts_of(alloc, &v.parts)?;
    let Some(parts) = made else {
        return Ok(None);
    };
    Ok(Some(Value {
        kind: v.kind,
        parts,
    }))
}

fn parts_of(alloc: Global, parts: &KeptParts) -> Result<Option<Parts>, NoMemory>
    ensures { IfOk result (λ found. MatchOption found (AreAscending (parts_of parts.now) → ⊥)
        (λ made. (made ≡ parts_of parts.now) × AreAscending (parts_of parts.now))) }
{
    match parts {
        KeptParts::Points(list) => points_of(alloc, list.items()),
        KeptParts::Ids(list) => ids_of(alloc, list.items()),
    }
}

fn points_of(alloc: Global, points: &[Point]) -> Result<Option<Parts>, NoMemory>
    ensures { IfOk result (λ found. MatchOption found (AllPairs IsBefore points.now → ⊥)
        (λ parts. (parts ≡ made.Points points.now) × AllPairs IsBefore points.now)) }
{
    if !points_ascend(points) {
        return Ok(None);
    }
    let copy = copied_points(alloc, points)?;
    Ok(Some(Parts::Points(PointsValue::new(copy))))
}

fn ids_of(alloc: Global, ids: &[u32]) -> Result<Option<Parts>, NoMemory>
    ensures { IfOk result (λ found. MatchOption found (AllPairs (λ m n. m < n) ids.now → ⊥)
        (λ parts. (parts ≡ made.Ids ids.now) × AllPairs (λ m n. m < n) ids.now)) }
{
    if !numbers_rise(ids) {
        return Ok(None);
    }
    let copy = copied_ids(alloc, ids)?;
    Ok(Some(Parts::Ids(IdList::new(copy))))
}

/// The value of a table, to be kept.
pub fn kept_value(alloc: Global, v: &Value) -> Result<KeptValue, NoMemory>
    ensures same { IfOk result (λ w. value_of w ≡ v.now) }
    ensures fits { IfOk result (λ w. AreParts w.parts) }
    ensures ascend { IfOk result (λ w. AreAscending v.now.parts) }
{
    Ok(KeptValue {
        kind: v.kind,
        parts: kept_parts(alloc, &v.parts)?,
    })
}

fn kept_parts(alloc: Global, parts: &Parts) -> Result<KeptParts, NoMemory>
    ensures { IfOk result (λ copy. (parts_of copy ≡ parts.now) × AreParts copy × AreAscending parts.now) }
{
    match parts {
        Parts::Points(list) => {
            let copy = copied_points(alloc, list.points())?;
            Ok(KeptParts::Points(ListOf::new(copy)))
        }
        Parts::Ids(list) => {
            let copy = copied_ids(alloc, list.ids())?;
            Ok(KeptParts::Ids(ListOf::new(copy)))
        }
    }
}
