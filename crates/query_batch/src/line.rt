//! Lines that wait for an answer.
ghost use Rattle.std.specs.Prelude.{◌≡◌};

use std::marker::Model;

/// A line that isn't too long. Contracts see its bytes.
#[derive(Debug, Drop)]
pub struct Line {
    list: Vec<u8>,
}

impl Model for Line {
    ghost use Rattle.std.specs.Prelude.{List, ℕ};

    ghost Value = { List ℕ };

    ghost view = { λ l. l.list.items };
}

impl Line {
    /// The line of these bytes.
    pub fn new(bytes: Vec<u8>) -> Line
        ensures { result ≡ bytes.items }
    {
        Line { list: bytes }
    }

    /// Its bytes in order.
    pub fn bytes(&self) -> &[u8]
        ensures { result.now ≡ self.now }
    {
        self.list.as_slice()
    }
}
