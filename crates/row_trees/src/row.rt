//! An entry of a tree of rows, with its whole record.

use btree::Entry;
use std::marker::Model;

/// An entry with its whole record: as it is in the tree, or with a value of its own if its record is in a chain.
#[derive(Drop)]
pub struct Row {
    pub(crate) entry: Entry,
    pub(crate) long: Option<Vec<u8>>,
}

impl Model for Row {
    ghost use Rattle.btree.specs.Entries.{Entry as Listed};
    ghost use Rattle.row_trees.specs.Rows.{with_long_value};

    ghost Value = { Listed };

    ghost view = { λ row. with_long_value row.entry row.long };
}

impl Row {
    ghost use Rattle.std.specs.Prelude.{◌≡◌};

    /// Its key.
    pub fn key(&self) -> &[u8]
        ensures { result.now ≡ self.now.key }
    {
        self.entry.key()
    }

    /// Its record, and what follows it.
    pub fn value(&self) -> &[u8]
        ensures { result.now ≡ self.now.value }
    {
        match &self.long {
            Some(value) => value,
            None => self.entry.value(),
        }
    }
}
