//! References to items and condition names.

ghost use Rattle.std.specs.Prelude.{◌≡◌, IfOk};

use crate::literal::Integer;
use crate::name::Name;
use sqlite_items::Items;
use std::alloc::{AllocError, Global};
use std::marker::Model;

/// A name and its qualifiers, the nearest group first; the last one may be a file (COBOL-85, Nucleus, "Qualification").
#[derive(Drop)]
pub struct QualifiedName {
    pub name: Name,
    pub qualifiers: Items<Name>,
}

/// What is added to the item of a subscript.
#[derive(Drop)]
pub enum Adjustment {
    Nothing,
    Plus(Integer),
    Minus(Integer),
}

/// A subscript (COBOL-85, Nucleus, "Subscripting").
#[derive(Drop)]
pub enum Subscript {
    Literal(Integer),
    Item {
        item: QualifiedName,
        adjustment: Adjustment,
    },
}

/// A part of an item: its first place, counted from 1, and its length, which without one goes to the item's end (ISO 1989:1985, Nucleus,
/// "Reference modification").
#[derive(Drop)]
pub struct Part {
    pub first: Subscript,
    pub length: Option<Subscript>,
}

/// A part in memory of its own: few references have one, and those without stay small.
#[derive(Drop)]
pub struct BoxedPart {
    part: Box<Part>,
}

impl Model for BoxedPart {
    ghost use Rattle.source_tree.specs.declared.reference.Part.{Part};

    ghost Value = { Part };

    ghost view = { λ boxed. boxed.part.value };
}

impl BoxedPart {
    pub fn new(alloc: Global, part: Part) -> Result<BoxedPart, AllocError>
        ensures { IfOk result (λ boxed. boxed ≡ part) }
    {
        Ok(BoxedPart {
            part: Box::new(alloc, part)?,
        })
    }

    pub fn part(&self) -> &Part
        ensures { result.now ≡ self.now }
    {
        &self.part
    }
}

/// A reference. Its place is that of its name.
#[derive(Drop)]
pub struct Reference {
    pub item: QualifiedName,
    pub subscripts: Items<Subscript>,
    pub part: Option<BoxedPart>,
}
