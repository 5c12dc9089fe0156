//! Lists of places, as the lines write them.
ghost use Rattle.std.specs.Prelude.{◌≡◌, ℕ, List};
ghost use Rattle.line_grammar.specs.declared.command.At.{At};

use crate::command::At;
use std::marker::Model;

/// A list of places.
#[derive(Debug, Drop)]
pub struct Path {
    places: Vec<At>,
}

impl Model for Path {
    ghost Value = { List At };

    ghost view = { λ p. p.places.items };
}

impl Path {
    /// The list of these places.
    pub fn new(places: Vec<At>) -> Path
        ensures { result ≡ places.items }
    {
        Path { places }
    }

    /// Its places in order.
    pub fn places(&self) -> &[At]
        ensures { result.now ≡ self.now }
    {
        self.places.as_slice()
    }

    /// Its places in order, given back. No memory is taken.
    pub fn into_places(self) -> Vec<At>
        ensures { result.items ≡ self }
    {
        self.places
    }
}

/// A list of lists of places.
#[derive(Debug, Drop)]
pub struct Paths {
    paths: Vec<Path>,
}

impl Model for Paths {
    ghost Value = { List (List At) };

    ghost view = { λ p. p.paths.items };
}

impl Paths {
    /// The list of these lists.
    pub fn new(paths: Vec<Path>) -> Paths
        ensures { result ≡ paths.items }
    {
        Paths { paths }
    }

    /// Its lists in order.
    pub fn paths(&self) -> &[Path]
        ensures { result.now ≡ self.now }
    {
        self.paths.as_slice()
    }

    /// Its lists in order, given back. No memory is taken.
    pub fn into_paths(self) -> Vec<Path>
        ensures { result.items ≡ self }
    {
        self.paths
    }
}
