//! Lists of names, as the lines write them.
ghost use Rattle.std.specs.Prelude.{◌≡◌, ℕ, List};

use crate::name::Name;
use std::marker::Model;

/// A list of names.
#[derive(Debug, Drop)]
pub struct Names {
    names: Vec<Name>,
}

impl Model for Names {
    ghost Value = { List (List ℕ) };

    ghost view = { λ n. n.names.items };
}

impl Names {
    /// The list of these names.
    pub fn new(names: Vec<Name>) -> Names
        ensures { result ≡ names.items }
    {
        Names { names }
    }

    /// Its names in order.
    pub fn names(&self) -> &[Name]
        ensures { result.now ≡ self.now }
    {
        self.names.as_slice()
    }

    /// Its names in order, given back. No memory is taken.
    pub fn into_names(self) -> Vec<Name>
        ensures { result.items ≡ self }
    {
        self.names
    }
}

/// A list of names, each with a number as its key.
#[derive(Debug, Drop)]
pub struct KeyedNames {
    names: Vec<(Name, u64)>,
}

impl Model for KeyedNames {
    ghost Value = { List (List ℕ × ℕ) };

    ghost view = { λ n. n.names.items };
}

impl KeyedNames {
    /// The list of these names and keys.
    pub fn new(names: Vec<(Name, u64)>) -> KeyedNames
        ensures { result ≡ names.items }
    {
        KeyedNames { names }
    }

    /// Its names and their keys in order.
    pub fn names(&self) -> &[(Name, u64)]
        ensures { result.now ≡ self.now }
    {
        self.names.as_slice()
    }

    /// Its names and their keys in order, given back. No memory is taken.
    pub fn into_names(self) -> Vec<(Name, u64)>
        ensures { result.items ≡ self }
    {
        self.names
    }
}
