//! A table of values: two roads that share an original, and a well.
ghost use Rattle.std.specs.Prelude.{◌<◌, AllPairs, IfOk};

use crate::paper::place;
use grid_base::Kind;
use rose_values::PointsValue;
use std::alloc::Global;
use std::process::Abort;
use value_table::{IdList, Parts, Table, TableError, Value};

// A lines value of two originals.
fn lines(rt: &impl Abort, alloc: Global, first: u32, second: u32) -> Value {
    assert!(rt; first < second, "ids that don't ascend");
    let list = vec![in alloc; first, second].expect(rt, "memory");
    Value {
        kind: Kind::Lines,
        parts: Parts::Ids(IdList::new(list)),
    }
}

// A points value of one point.
fn points(rt: &impl Abort, alloc: Global, at: [u64; 2]) -> Value {
    let list = vec![in alloc; place(rt, at)].expect(rt, "memory");
    Value {
        kind: Kind::Points,
        parts: Parts::Points(PointsValue::new(list)),
    }
}

// Two roads that share original 2, and a well between them.
fn town(rt: &impl Abort, alloc: Global) -> Table {
    let mut table = Table::new(alloc);
    assert!(rt; table.define("road", lines(rt, alloc, 1, 2)).is_ok());
    assert!(rt; table.define("well", points(rt, alloc, [5, 7])).is_ok());
    assert!(rt; table.define("lane", lines(rt, alloc, 2, 9)).is_ok());
    table
}

// Whether the table has these names alone, in this order.
fn has_names(table: &Table, names: &[&str]) -> bool {
    for (place, name) in names.iter().enumerate() {
        if table.name_at(place) != Some(*name) {
            return false;
        }
    }
    table.len() == names.len() && table.name_at(names.len()).is_none()
}

// The first id that has another number of users.
fn other_users(table: &Table, users: &[(u32, u64)]) -> Option<u32> {
    for (id, count) in users {
        if table.users_of(*id) != *count {
            return Some(*id);
        }
    }
    None
}

#[test]
fn values_stand_in_the_order_of_definition(rt: HostRuntime) {
    let mut table = town(&rt, rt.alloc());
    assert!(rt; has_names(&table, &["road", "well", "lane"]));
    let again = table.define("road", points(&rt, rt.alloc(), [0, 0]));
    assert!(rt; again == Err(TableError::Taken));
    assert!(rt; has_names(&table, &["road", "well", "lane"]));
    assert!(rt; table.drop_name("road"));
    assert!(rt; !table.drop_name("road"));
    assert!(rt; has_names(&table, &["well", "lane"]));
}

#[test]
fn a_shared_original_has_two_users(rt: HostRuntime) {
    let mut table = town(&rt, rt.alloc());
    let well = place(&rt, [5, 7]);
    assert!(rt; other_users(&table, &[(1, 1), (2, 2), (3, 0), (9, 1)]).is_none());
    assert!(rt; table.users_of_point(&well) == 1);
    table.drop_name("road");
    table.drop_name("well");
    assert!(rt; other_users(&table, &[(1, 0), (2, 1), (3, 0), (9, 1)]).is_none());
    assert!(rt; table.users_of_point(&well) == 0);
}

#[test]
fn a_value_is_found_by_its_name(rt: HostRuntime) {
    let table = town(&rt, rt.alloc());
    let well = table.get("well").expect(&rt, "a well");
    assert!(rt; well.kind == Kind::Points);
    assert!(rt; table.get("river").is_none());
    let Some(
        Value {
            parts: Parts::Ids(list),
            ..
        },
    ) = table.get("lane")
    else {
        panic!(rt; "no ids");
    };
    let again = Vec::from_slice(rt.alloc(), list.ids()).expect(&rt, "memory");
    assert!(rt; IdList::new(again).into_ids().as_slice() == [2, 9].as_slice());
}
