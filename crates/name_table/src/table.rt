//! Tables of names, in the order of declaration.

ghost use Rattle.std.specs.Prelude.{◌≡◌, ◌∷◌, ◌++◌, [], slice_get, IfOk, OnOk};
ghost use Rattle.std.specs.Option.{option_copied};
ghost use Rattle.name_table.specs.Positions as spec;
ghost use Rattle.name_table.specs.Table.{IsNoted, IsTable, name_path, calls_in, noted_in};

use crate::look_up::LookUp;
use crate::qualification::{is_called, is_within};
use indexmap::IndexMap;
use source_tree::{Name, QualifiedName};
use std::alloc::{AllocError, Global};

/// The name under which something is declared, if it has one, and the names around it, the nearest first.
#[derive(Drop)]
pub struct Declared<'a> {
    pub name: Option<&'a Name>,
    pub around: Vec<&'a Name>,
}

/// What is declared, by its names. Each thing has a number: how many were declared before it.
#[derive(Drop)]
pub struct NameTable<'a> {
    pub(crate) declared: Vec<Declared<'a>>,
    /// The last thing of each name, by the name's characters.
    last: IndexMap<&'a [u8], usize>,
    /// For each thing the one before it that has the same name.
    before: Vec<Option<usize>>,
}

/// Notes the number of a thing as the last one of its name. Answers the one before it.
pub(crate) fn noted<'a>(
    last: &mut IndexMap<&'a [u8], usize>,
    name: Option<&'a Name>,
    number: usize,
) -> Result<Option<usize>, AllocError>
    ensures before { IfOk result (λ before. before ≡ noted_in last.old (option_copied name.entry)) }
    ensures last { OnOk result (IsNoted last.old last.new (option_copied name.entry) number) }
{
    let Some(name) = name else {
        return Ok(None);
    };
    Ok(last.insert(name.characters.as_slice(), number)?)
}

impl<'a> NameTable<'a> {
    /// A table in which nothing is declared.
    pub fn new(alloc: Global) -> NameTable<'a>
        ensures table { IsTable result }
        ensures calls { calls_in result ≡ [] }
    {
        NameTable {
            declared: Vec::new(alloc),
            last: IndexMap::new(alloc),
            before: Vec::new(alloc),
        }
    }

    /// The table with one more thing.
    pub fn with(
        self,
        name: Option<&'a Name>,
        around: Vec<&'a Name>,
    ) -> Result<NameTable<'a>, AllocError>
        requires { IsTable self }
        ensures table { IfOk result IsTable }
        ensures calls { IfOk result (λ table. calls_in table
            ≡ calls_in self.entry ++ name_path name.entry around.entry.items ∷ []) }
    {
        let mut table = self;
        table.add(name, around)?;
        Ok(table)
    }

    /// Declares one more thing.
    pub(crate) fn add(
        &mut self,
        name: Option<&'a Name>,
        around: Vec<&'a Name>,
    ) -> Result<(), AllocError>
        requires { IsTable self.old }
        ensures table { OnOk result (IsTable self.new) }
        ensures calls { OnOk result (calls_in self.new
            ≡ calls_in self.old ++ name_path name.entry around.entry.items ∷ []) }
    {
        let number = self.declared.len();
        let former = noted(&mut self.last, name, number)?;
        self.before.push(former)?;
        self.declared.push(Declared { name, around })?;
        Ok(())
    }

    /// A name with its qualifiers names the thing of that number, alone or among others.
    pub fn is_named(&self, reference: &QualifiedName, number: usize) -> bool
        ensures { result ≡ spec.names_called reference.now (slice_get (calls_in self.now) number) }
    {
        match self.declared.get(number) {
            Some(one) => {
                is_called(&reference.name, one.name)
                    && is_within(reference.qualifiers.as_slice(), &one.around)
            }
            None => false,
        }
    }

    /// What a name with its qualifiers names.
    pub fn look_up(&self, reference: &QualifiedName) -> LookUp
        requires { IsTable self.now }
        ensures { result ≡ spec.look_up reference.now (calls_in self.now) }
    {
        let mut found = LookUp::Unknown;
        let mut next = self.last.get(reference.name.characters.as_slice()).copied();
        'same: while let Some(number) = next {
            let qualifiers = reference.qualifiers.as_slice();
            if is_within(qualifiers, &self.declared[number].around) {
                found = found.with(number);
            }
            next = self.before[number];
        }
        found
    }
}
