//! Values by name, in the order in which they were defined, with counts of the uses of ids and points.
ghost use Rattle.std.specs.Prelude.{◌≡◌, ◌↔◌, ◌++◌, ◌∷◌, [], Err, IsTrue, IfOk, OnOk, OnErr};
ghost use Rattle.std.specs.Prelude.{length, slice_get};
ghost use Rattle.std.specs.Map.{keys_of};
ghost use Rattle.std.specs.Map.Iter.{ShowsInOrder, deref};
ghost use Rattle.std.specs.Option.{option_copied};
ghost use Rattle.value_table.specs.Table.{value_named, IsNamed, without, HasDistinctNames};
ghost use Rattle.value_table.specs.Table.{users_of, users_of_point};

use crate::definitions::{Definition, Definitions};
use crate::users;
use crate::value::Value;
use grid_base::{NoMemory, Point};
use std::alloc::Global;
use std::collections::BTreeMap;
use std::collections::btree_map::Values;
use std::marker::Model;
use thiserror::Error;

/// Why a value isn't defined.
#[derive(Clone, Copy, Debug, PartialEq, Eq, Error)]
pub enum TableError {
    /// The name is there already; drop it first.
    #[error("the name is taken")]
    Taken,
    /// Memory ran out.
    #[error("no memory")]
    NoMemory,
}

/// Values by name, in the order in which they were defined. Contracts see the list of names with
/// their values.
#[derive(Drop)]
pub struct Table {
    definitions: Definitions,
    ids: BTreeMap<u32, u64>,
    points: BTreeMap<Point, u64>,
}

impl Model for Table {
    ghost use Rattle.value_table.specs.Table.{NamedValues};

    ghost Value = { NamedValues };

    ghost use Rattle.value_table.specs.Kept.{CountsUses};

    ghost view = { λ t. t.definitions };

    ghost invariant = { λ t. CountsUses t.definitions t.ids t.points };
}

impl Table {
    /// A table without values.
    pub fn new(alloc: Global) -> Table
        ensures { result ≡ [] }
    {
        Table {
            definitions: Definitions::new(alloc),
            ids: BTreeMap::new(alloc),
            points: BTreeMap::new(alloc),
        }
    }

    /// The same table once more: each name and what is kept of it is copied once.
    pub fn copied(&self) -> Result<Table, NoMemory>
        ensures same { IfOk result (λ copy. copy ≡ self.now) }
    {
        Ok(Table {
            definitions: self.definitions.copied()?,
            ids: self.ids.clone()?,
            points: self.points.clone()?,
        })
    }

    /// Gives `name` to `v`, after all others.
    pub fn define(&mut self, name: &str, v: Value) -> Result<(), TableError>
        ensures ok { OnOk result (self.new ≡ self.old ++ (name.now, v) ∷ []) }
        ensures taken { (result ≡ Err TableError.Taken) ↔ IsNamed name.now self.old }
        ensures unchanged { OnErr result (self.new ≡ self.old) }
    {
        if self.has(name) {
            return Err(TableError::Taken);
        }
        match self.add(name, v) {
            Ok(()) => Ok(()),
            Err(NoMemory) => Err(TableError::NoMemory),
        }
    }

    // Whether the name is there.
    fn has(&self, name: &str) -> bool
        ensures { IsTrue result ↔ IsNamed name.now self.now }
    {
        self.definitions.get(name).is_some()
    }

    // Gives a name that isn't there to `v`, after all others.
    fn add(&mut self, name: &str, v: Value) -> Result<(), NoMemory>
        requires { ¬ IsNamed name.now self.old }
        ensures ok { OnOk result (self.new ≡ self.old ++ (name.now, v) ∷ []) }
        ensures unchanged { OnErr result (self.new ≡ self.old) }
    {
        // There are fewer than 2^63 definitions, so each count is.
        let _ = self.definitions.len();
        users::note(&mut self.ids, &mut self.points, &v)?;
        match self.definitions.put(name, v) {
            Ok(()) => Ok(()),
            Err(v) => {
                users::forget(&mut self.ids, &mut self.points, v);
                Err(NoMemory)
            }
        }
    }

    /// Takes `name` and its value out, and says whether it was there.
    pub fn drop_name(&mut self, name: &str) -> bool
        ensures found { IsTrue result ↔ IsNamed name.now self.old }
        ensures others { self.new ≡ without name.now self.old }
    {
        match self.definitions.take(name) {
            Some(v) => {
                users::forget(&mut self.ids, &mut self.points, v);
                true
            }
            None => false,
        }
    }

    /// How many values there are.
    pub fn len(&self) -> usize
        ensures len { result ≡ length self.now }
        ensures distinct { HasDistinctNames self.now }
    {
        self.definitions.len()
    }

    /// The names with their values, in the order of definition.
    pub fn definitions(&self) -> Values<'_, u64, Definition>
        ensures definitions { result ≡ self.now }
        ensures runs { ShowsInOrder (deref {X = Definition}) }
    {
        self.definitions.all()
    }

    /// Of the names, in the order of definition, the one behind `k` others; none past the last. It passes these: to see all,
    /// go through `definitions`.
    pub fn name_at(&self, k: usize) -> Option<&str>
        ensures { option_copied result ≡ slice_get (keys_of self.now) k }
    {
        match self.definitions.all().nth(k) {
            Some(definition) => Some(definition.name()),
            None => None,
        }
    }

    /// The value with this name.
    pub fn get(&self, name: &str) -> Option<&Value>
        ensures { option_copied result ≡ value_named name.now self.now }
    {
        self.definitions.get(name)
    }

    /// How many values name the id among their parts.
    pub fn users_of(&self, id: u32) -> u64
        ensures { result ≡ users_of self.now id }
    {
        users::count_of(&self.ids, &id)
    }

    /// How many values name the point among their parts.
    pub fn users_of_point(&self, p: &Point) -> u64
        ensures { result ≡ users_of_point self.now p.now }
    {
        users::count_of(&self.points, p)
    }
}
