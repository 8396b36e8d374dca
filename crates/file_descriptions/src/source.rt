//! What clauses of a SELECT are looked up in.

ghost use Rattle.std.specs.Prelude.{◌≡◌};
ghost use Rattle.source_tree.specs.ProgramFiles as meaning;
ghost use Rattle.file_descriptions.specs.Clauses as spec;
ghost use Rattle.file_descriptions.specs.Clauses.{IsKey};
ghost use Rattle.file_descriptions.specs.Sources.{IsSource, items_in};

use layout::Layout;
use name_table::{LookUp, NameTable, items_named};
use records::KeyPlace;
use source_tree::{Entry, FileDescription, QualifiedName, Reference};

/// The entries and FDs of a program, with the names and places of its items. No field reaches a statement.
#[derive(Clone, Copy)]
pub struct Source<'a, 'b> {
    pub storage: &'a [Entry],
    pub files: &'a [FileDescription],
    pub names: &'b NameTable<'a>,
    pub layout: &'b Layout,
}

impl Source<'_, '_> {
    /// The number of the only item that a name names.
    fn item_number(&self, name: &QualifiedName) -> Option<usize>
        requires { IsSource self.now }
        ensures { result ≡ spec.number_named (items_in self.now) name.now }
    {
        match self.names.look_up(name) {
            LookUp::One(number) => Some(number),
            LookUp::Unknown | LookUp::Several => None,
        }
    }

    /// The number of the item that a clause names.
    pub fn clause_number(&self, clause: &Option<Reference>) -> Option<usize>
        requires { IsSource self.now }
        ensures { result ≡ spec.clause_number (items_in self.now) clause.now }
    {
        match clause {
            Some(one) => self.item_number(&one.item),
            None => None,
        }
    }

    /// The part of the record that a key is.
    pub fn key_place(&self, key: &Reference) -> KeyPlace
        requires source { IsSource self.now }
        requires key { IsKey (items_in self.now) key.now }
        ensures { result ≡ meaning.key_place (items_in self.now) key.now }
    {
        items_named();
        match self.item_number(&key.item) {
            Some(number) => {
                let one = &self.layout.items.as_slice()[number];
                KeyPlace {
                    offset: one.offset as u16,
                    length: one.item.length as u16,
                }
            }
            None => KeyPlace {
                offset: 0,
                length: 0,
            },
        }
    }
}
