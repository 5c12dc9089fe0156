//! Lists of items that are lines.
ghost use Rattle.std.specs.Prelude.{◌≡◌, ◌++◌, ◌∷◌, [], All, OnOk};
ghost use Rattle.realm_audit.specs.Items.{IsLine};

use grid_base::NoMemory;
use realm_audit::Item;
use std::alloc::Global;
use std::marker::Model;

/// Items each of which is a line. Contracts see the list.
#[derive(Drop)]
pub(crate) struct Lines {
    list: Vec<Item>,
}

impl Model for Lines {
    ghost use Rattle.std.specs.Prelude.{List, All};
    ghost use Rattle.realm_audit.specs.Items.{IsLine};
    ghost use Rattle.realm_audit.specs.declared.item.Item.{Item};

    ghost Value = { List Item };

    ghost view = { λ l. l.list.items };

    ghost invariant = { λ l. All IsLine l.list.items };
}

impl Lines {
    pub(crate) fn new(alloc: Global) -> Lines
        ensures { result ≡ [] }
    {
        Lines {
            list: Vec::new(alloc),
        }
    }

    /// Adds the line at the end.
    pub(crate) fn push(&mut self, item: Item) -> Result<(), NoMemory>
        requires line { IsLine item }
        ensures { OnOk result (self.new ≡ self.old ++ item ∷ []) }
    {
        self.list.push(item)?;
        Ok(())
    }

    pub(crate) fn into_items(self) -> Vec<Item>
        ensures items { result.items ≡ self }
        ensures lines { All IsLine result.items }
    {
        self.list
    }
}
