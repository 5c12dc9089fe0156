//! Values, by what they are made of.
ghost use Rattle.std.specs.Prelude.{◌≡◌, ◌<◌, AllPairs, IfOk};
ghost use Rattle.rose_values.specs.Border.{ArePointsAscending};
ghost use Rattle.value_table.specs.Value.{ids_among, points_among};

use grid_base::{Kind, NoMemory, Point};
use rose_values::PointsValue;
use std::alloc::Global;
use std::marker::Model;

/// Ids of originals, ascending without repeats. Contracts see the list.
#[derive(Debug, Drop)]
pub struct IdList {
    list: Vec<u32>,
}

impl Model for IdList {
    ghost use Rattle.std.specs.Prelude.{◌<◌, ℕ, List, AllPairs};

    ghost Value = { List ℕ };

    ghost view = { λ l. l.list.items };

    ghost invariant = { λ l. AllPairs (λ m n. m < n) l.list.items };
}

impl IdList {
    /// The list of these ids, which ascend without repeats; there may be none.
    pub fn new(list: Vec<u32>) -> IdList
        requires { AllPairs (λ m n. m < n) list.items }
        ensures { result ≡ list.items }
    {
        IdList { list }
    }

    /// Its ids, ascending.
    pub fn ids(&self) -> &[u32]
        ensures ids { result.now ≡ self.now }
        ensures ascending { AllPairs (λ m n. m < n) self.now }
    {
        self.list.as_slice()
    }

    /// Its ids, ascending, given back. No memory is taken.
    pub fn into_ids(self) -> Vec<u32>
        ensures ids { result.items ≡ self }
        ensures ascending { AllPairs (λ m n. m < n) result.items }
    {
        self.list
    }
}

/// What a value is made of: explicit points, or originals by their ids.
#[derive(Debug, Drop)]
pub enum Parts {
    Points(PointsValue),
    Ids(IdList),
}

impl Parts {
    // The same parts once more.
    fn copied(&self, alloc: Global) -> Result<Parts, NoMemory>
        ensures same { IfOk result (λ copy. copy ≡ self.now) }
    {
        match self {
            Parts::Points(value) => {
                let list = Vec::from_slice(alloc, value.points())?;
                Ok(Parts::Points(PointsValue::new(list)))
            }
            Parts::Ids(ids) => {
                let list = Vec::from_slice(alloc, ids.ids())?;
                Ok(Parts::Ids(IdList::new(list)))
            }
        }
    }

    // The ids among the parts, ascending.
    pub(crate) fn ids(&self) -> &[u32]
        ensures ids { result.now ≡ ids_among self.now }
        ensures ascending { AllPairs (λ m n. m < n) result.now }
    {
        match self {
            Parts::Points(_) => &[],
            Parts::Ids(list) => list.ids(),
        }
    }

    // The points among the parts, ascending.
    pub(crate) fn points(&self) -> &[Point]
        ensures points { result.now ≡ points_among self.now }
        ensures ascending { ArePointsAscending result.now }
    {
        match self {
            Parts::Points(value) => value.points(),
            Parts::Ids(_) => &[],
        }
    }
}

/// What a name stands for. Its segments are led by the present chains of its parts.
#[derive(Debug, Drop)]
pub struct Value {
    pub kind: Kind,
    pub parts: Parts,
}

impl Value {
    // The same value once more.
    pub(crate) fn copied(&self, alloc: Global) -> Result<Value, NoMemory>
        ensures same { IfOk result (λ copy. copy ≡ self.now) }
    {
        Ok(Value {
            kind: self.kind,
            parts: self.parts.copied(alloc)?,
        })
    }
}
