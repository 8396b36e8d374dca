//! The characters of a source text that tokens are made of.

ghost use Rattle.std.specs.Prelude.{◌≡◌};

use lexical::Place;
use sqlite_items::Items;
use std::marker::Model;

/// A character and where it stands. A line's end is one space.
#[derive(Clone, Copy, PartialEq, Eq)]
pub struct Character {
    pub byte: u8,
    pub place: Place,
}

/// The characters of a source text in order, continued lines joined, without sequence numbers, comments and line ends.
#[derive(Drop)]
pub struct Lines {
    characters: Items<Character>,
}

impl Model for Lines {
    ghost use Rattle.std.specs.Prelude.{List};
    ghost use Rattle.std.specs.Coded.{coded_list};
    ghost use Rattle.source_lines.specs.declared.lines.Character.{Character};

    ghost Value = { List Character };

    ghost view = { λ lines. lines.characters };
}

impl Lines {
    pub(crate) fn new(characters: Items<Character>) -> Lines
        ensures { result ≡ characters }
    {
        Lines { characters }
    }

    pub fn characters(&self) -> &[Character]
        ensures { result.now ≡ self.now }
    {
        self.characters.as_slice()
    }
}
