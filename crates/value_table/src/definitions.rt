//! Names with their values. Each definition has a number, and numbers are given in turn: their order is
//! that of definition, and a name that goes moves no other.
ghost use Rattle.std.specs.Prelude.{◌≡◌, ◌<◌, ◌^◌, ◌↔◌, ◌++◌, ◌∷◌, [], length};
ghost use Rattle.std.specs.Prelude.{IsTrue, IfOk, IfErr, OnOk, OnErr};
ghost use Rattle.std.specs.Map.{remove_entry};
ghost use Rattle.std.specs.Map.Iter.{ShowsInOrder, deref};
ghost use Rattle.std.specs.Option.{option_copied};
ghost use Rattle.std.specs.Str.{bytes_eq};
ghost use Rattle.std.specs.String.{string_bytes};
ghost use Rattle.value_table.specs.Table.{value_named, IsNamed, without, HasDistinctNames};

use crate::value::Value;
use grid_base::NoMemory;
use indexmap::IndexMap;
use std::alloc::Global;
use std::collections::BTreeMap;
use std::collections::btree_map::Values;
use std::hash::{BuildHasherDefault, DefaultHasher};
use std::marker::Model;

// Each name's number. The order of this map means nothing, so a name is dropped in constant time. The hash
// is SipHash: of the faster one that maps have by default, names that collide can be worked out.
type Numbers = IndexMap<String, u64, BuildHasherDefault<DefaultHasher>>;

/// A name with its value. Contracts see the pair.
#[derive(Drop)]
pub struct Definition {
    name: String,
    value: Value,
}

impl Model for Definition {
    ghost use Rattle.std.specs.Prelude.{ℕ, List};
    ghost use Rattle.std.specs.String.{string_bytes};
    ghost use Rattle.value_table.specs.declared.value.Value.{Value as NamedValue};

    ghost Value = { List ℕ × NamedValue };

    ghost view = { λ d. (string_bytes d.name, d.value) };
}

impl Definition {
    /// The name.
    pub fn name(&self) -> &str
        ensures { result.now ≡ self.now.0 }
    {
        self.name.as_str()
    }

    /// The value.
    pub fn value(&self) -> &Value
        ensures { result.now ≡ self.now.1 }
    {
        &self.value
    }
}

// Names with their values, in the order of definition. Contracts see the list.
#[derive(Drop)]
pub(crate) struct Definitions {
    numbers: Numbers,
    by_number: BTreeMap<u64, Definition>,
    next: u64,
    alloc: Global,
}

impl Model for Definitions {
    ghost use Rattle.value_table.specs.Table.{NamedValues};
    ghost use Rattle.value_table.specs.Kept.{listed, IsNumbered};

    ghost Value = { NamedValues };

    ghost view = { λ d. listed d.by_number };

    ghost invariant = { λ d. IsNumbered d.numbers d.by_number d.next };
}

impl Definitions {
    pub(crate) fn new(alloc: Global) -> Definitions
        ensures { result ≡ [] }
    {
        Definitions {
            numbers: IndexMap::with_hasher(alloc, BuildHasherDefault::new()),
            by_number: BTreeMap::new(alloc),
            next: 0,
            alloc,
        }
    }

    // The same once more. Numbers are given anew.
    pub(crate) fn copied(&self) -> Result<Definitions, NoMemory>
        ensures same { IfOk result (λ copy. copy ≡ self.now) }
    {
        let mut copy = Definitions::new(self.alloc);
        copy.numbers.reserve(self.by_number.len())?;
        for definition in self.by_number.values() {
            let value = definition.value().copied(self.alloc)?;
            if copy.put(definition.name(), value).is_err() {
                return Err(NoMemory);
            }
        }
        Ok(copy)
    }

    // Gives `name`, which isn't there, to `value`, after all others. Where memory runs out the value comes back.
    pub(crate) fn put(&mut self, name: &str, value: Value) -> Result<(), Value>
        requires { ¬ IsNamed name.now self.old }
        ensures ok { OnOk result (self.new ≡ self.old ++ (name.now, value) ∷ []) }
        ensures value_returned { IfErr result (λ back. back ≡ value) }
        ensures unchanged { OnErr result (self.new ≡ self.old) }
    {
        let number = self.next;
        let Some(next) = number.checked_add(1) else {
            return Err(value);
        };
        let Ok((key, name)) = twice(self.alloc, name) else {
            return Err(value);
        };
        if self.numbers.reserve(1).is_err() {
            return Err(value);
        }
        if let Err(failed) = self.by_number.insert(number, Definition { name, value }) {
            let (_, definition) = failed.value;
            return Err(definition.value);
        }
        match self.numbers.insert(key, number) {
            Ok(_) => {
                self.next = next;
                Ok(())
            }
            Err(_) => unreachable!(),
        }
    }

    // Takes `name` out, if it is there, and gives its value.
    pub(crate) fn take(&mut self, name: &str) -> Option<Value>
        ensures value { result ≡ value_named name.now self.old }
        ensures others { self.new ≡ without name.now self.old }
        ensures taken { self.new ≡ remove_entry (bytes_eq name.now) self.old }
    {
        let number = self.numbers.swap_remove(name)?;
        let Some(definition) = self.by_number.remove(&number) else {
            unreachable!()
        };
        Some(definition.value)
    }

    // The value with this name.
    pub(crate) fn get(&self, name: &str) -> Option<&Value>
        ensures { option_copied result ≡ value_named name.now self.now }
    {
        let number = self.numbers.get(name)?;
        let definition = self.by_number.get(number)?;
        Some(definition.value())
    }

    pub(crate) fn len(&self) -> usize
        ensures len { result ≡ length self.now }
        ensures below_2_63 { result < 2 ^ 63 }
        ensures distinct { HasDistinctNames self.now }
    {
        self.by_number.len()
    }

    // All, in the order of the list.
    pub(crate) fn all(&self) -> Values<'_, u64, Definition>
        ensures definitions { result ≡ self.now }
        ensures runs { ShowsInOrder (deref {X = Definition}) }
    {
        self.by_number.values()
    }
}

// The name twice.
fn twice(alloc: Global, name: &str) -> Result<(String, String), NoMemory>
    ensures { IfOk result (λ names. (string_bytes names.0 ≡ name.now) × (string_bytes names.1 ≡ name.now)) }
{
    Ok((
        String::from_str(alloc, name)?,
        String::from_str(alloc, name)?,
    ))
}
