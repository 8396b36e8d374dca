//! The rules of SELECTs: 66 the file's name on the volume, 58 and 60 the keys of each organization, 69 the number of alternate keys, 59 FILE
//! STATUS (COBOL-85, Sequential, Relative and Indexed I-O, "File control entry").

ghost use Rattle.std.specs.Prelude.{◌≡◌, ◌<◌, ◌+◌, ◌^◌, [], drop, length, map};
ghost use Rattle.std.specs.List.{list_all};
ghost use Rattle.entry_rules.specs.Checks.{IsFirstBreach, IsFirstFault};
ghost use Rattle.entry_rules.specs.RecordAreas.{length_of};
ghost use Rattle.records.specs.Spec.{is_letter, is_name};
ghost use Rattle.records.specs.Tests.{is_sequential};
ghost use Rattle.source_tree.specs.Broken.{each};
ghost use Rattle.source_tree.specs.EntryRules.{entry_rules};
ghost use Rattle.source_tree.specs.FileRules as spec;
ghost use Rattle.source_tree.specs.ProgramFiles.{described_file};
ghost use Rattle.source_tree.specs.Records.{storage_areas};
ghost use Rattle.declarations.specs.Found.{AreDeclared, items_of};
ghost use Rattle.declarations.specs.Selecting as selecting;

use crate::declared_items::DeclaredItems;
use crate::record_area::RecordArea;
use entry_rules::{BrokenRule, CheckError, Rule};
use layout::storage_areas;
use source_tree::{
    Access, AlternateKeyClause, FileDescription, Name, OrganizationClause, Reference, Select,
};
use std::alloc::Global;

/// The most bytes of a file's name on the volume.
const MOST_NAME_BYTES: usize = 30;

/// The most alternate keys of a file (own choice).
const MOST_ALTERNATE_KEYS: usize = 7;

impl<'a> DeclaredItems<'a> {
    /// With random or dynamic access a relative file has RELATIVE KEY.
    fn relative_rules(&self, there: RecordArea<'_>, one: &Select) -> Result<(), BrokenRule>
        requires { AreDeclared self.now }
        ensures { IsFirstBreach result (spec.relative_rules (items_of self.now)
            (selecting.described_of there.entry) one.now one.now.relative_key) }
    {
        match &one.relative_key {
            None => Rule::RelativeKey.broken_if(!is_sequential(one.access), one.name.place),
            Some(key) => self.relative_key_rules(there, key),
        }
    }

    /// A relative file has no other keys.
    fn relative_file_rules(&self, there: RecordArea<'_>, one: &Select) -> Result<(), BrokenRule>
        requires { AreDeclared self.now }
        ensures { IsFirstBreach result (selecting.relative_file_rules (items_of self.now)
            (selecting.described_of there.entry) one.now) }
    {
        self.relative_rules(there, one)?;
        other_clause_rules(&one.record_key)?;
        other_keys_rules(one.alternate_keys.as_slice())
    }

    /// Alternate keys after keys of which these are the first bytes. No two keys have the same.
    fn alternates_rules(
        &self,
        there: RecordArea<'_>,
        before: &mut Vec<u32>,
        all: &[AlternateKeyClause],
    ) -> Result<(), CheckError>
        requires { AreDeclared self.now }
        ensures { IsFirstFault result (spec.alternate_rules (items_of self.now)
            (selecting.described_of there.entry) before.old.items all.now) }
    {
        for one in all {
            let offset = self.key_rules(there, before, &one.key)?;
            before.insert(0, offset)?;
        }
        Ok(())
    }

    /// RECORD KEY, and the alternate keys.
    fn keys_rules(
        &self,
        alloc: Global,
        there: RecordArea<'_>,
        prime: &Reference,
        alternates: &[AlternateKeyClause],
    ) -> Result<(), CheckError>
        requires { AreDeclared self.now }
        ensures { IsFirstFault result (selecting.keys_rules (items_of self.now)
            (selecting.described_of there.entry) prime.now alternates.now) }
    {
        let first = self.key_rules(there, &[], prime)?;
        let mut before = Vec::from_slice(alloc, &[first])?;
        self.alternates_rules(there, &mut before, alternates)
    }

    /// An indexed file has RECORD KEY.
    fn indexed_rules(
        &self,
        alloc: Global,
        there: RecordArea<'_>,
        one: &Select,
    ) -> Result<(), CheckError>
        requires { AreDeclared self.now }
        ensures { IsFirstFault
            result (spec.indexed_rules (items_of self.now) (selecting.described_of there.entry)
            one.now.name one.now.record_key one.now.alternate_keys) }
    {
        match &one.record_key {
            None => Ok(Rule::FileKey.broken_if(true, one.name.place)?),
            Some(key) => self.keys_rules(alloc, there, key, one.alternate_keys.as_slice()),
        }
    }

    /// An indexed file has no RELATIVE KEY.
    fn indexed_file_rules(
        &self,
        alloc: Global,
        there: RecordArea<'_>,
        one: &Select,
    ) -> Result<(), CheckError>
        requires { AreDeclared self.now }
        ensures { IsFirstFault result (selecting.indexed_file_rules (items_of self.now)
            (selecting.described_of there.entry) one.now) }
    {
        other_clause_rules(&one.relative_key)?;
        self.indexed_rules(alloc, there, one)
    }

    /// The keys, by the file's organization.
    fn organization_rules(
        &self,
        alloc: Global,
        there: RecordArea<'_>,
        one: &Select,
    ) -> Result<(), CheckError>
        requires { AreDeclared self.now }
        ensures { IsFirstFault result (spec.organization_rules (items_of self.now)
            (selecting.described_of there.entry) one.now.organization one.now) }
    {
        match one.organization {
            OrganizationClause::Sequential => Ok(sequential_rules(one)?),
            OrganizationClause::Relative => Ok(self.relative_file_rules(there, one)?),
            OrganizationClause::Indexed => self.indexed_file_rules(alloc, there, one),
        }
    }

    /// What follows the keys: their number, and FILE STATUS in one of so many areas.
    fn later_rules(&self, areas: u32, one: &Select) -> Result<(), BrokenRule>
        requires { AreDeclared self.now }
        ensures { IsFirstBreach result (selecting.later_rules (items_of self.now) areas one.now) }
    {
        excess_rules(one.alternate_keys.as_slice())?;
        self.status_rules(areas, &one.status)
    }

    /// A SELECT.
    fn select_rules(
        &self,
        alloc: Global,
        areas: u32,
        there: RecordArea<'_>,
        one: &Select,
    ) -> Result<(), CheckError>
        requires { AreDeclared self.now }
        ensures { IsFirstFault result (selecting.select_rules_in (items_of self.now) areas
            (selecting.described_of there.entry) one.now) }
    {
        let assigned = &one.assigned;
        Rule::AssignedName.broken_if(!is_name(assigned.characters.as_slice()), assigned.place)?;
        self.organization_rules(alloc, there, one)?;
        self.later_rules(areas, one)?;
        Ok(())
    }

    /// The SELECTs of a program whose entries keep their rules, and whose record areas have so many bytes.
    pub(crate) fn selects_rules(&self, alloc: Global, lengths: &[u32]) -> Result<(), CheckError>
        requires declared { AreDeclared self.now }
        requires storage { entry_rules self.now.storage.now ≡ [] }
        requires files { spec.descriptions_rules self.now.storage.now self.now.descriptions.now
            ≡ [] }
        requires lengths { lengths.now ≡ map length_of self.now.descriptions.now }
        ensures { IsFirstFault result (each (spec.select_rules (items_of self.now)
            (storage_areas self.now.storage.now) self.now.descriptions.now)
            self.now.selects.now) }
    {
        let areas = storage_areas(self.storage);
        let selects = self.selects;
        for one in selects {
            let there = described(areas, lengths, self.descriptions, &one.name);
            self.select_rules(alloc, areas, there, one)?;
        }
        Ok(())
    }
}

fn is_letter(byte: u8) -> bool
    ensures { result ≡ is_letter byte }
{
    byte >= 1
}

fn are_letters(name: &[u8]) -> bool
    ensures { result ≡ list_all is_letter name.now }
{
    name.iter().all(|byte| is_letter(*byte))
}

/// A file on the volume can have that name: 1 to 30 bytes, none of them 0.
fn is_name(name: &[u8]) -> bool
    ensures { result ≡ is_name name.now }
{
    1 <= name.len() && name.len() <= MOST_NAME_BYTES && are_letters(name)
}

fn is_sequential(access: Access) -> bool
    ensures { result ≡ is_sequential access }
{
    matches!(access, Access::Sequential)
}

/// Where the records of the file of that name stand, the first of these having that area; these are the bytes of each record area.
fn described<'a>(
    first: u32,
    lengths: &[u32],
    descriptions: &'a [FileDescription],
    name: &Name,
) -> RecordArea<'a>
    requires lengths { lengths.now ≡ map length_of descriptions.now }
    requires areas { first + length descriptions.now < 2 ^ 32 }
    ensures { selecting.described_of result ≡ described_file first name.now descriptions.now }
{
    for (i, one) in descriptions.iter().enumerate() {
        if name.characters.as_slice() == one.name.characters.as_slice() {
            return RecordArea {
                area: first + i as u32,
                entries: one.entries.as_slice(),
                bytes: lengths[i],
            };
        }
    }
    RecordArea {
        area: first + descriptions.len() as u32,
        entries: &[],
        bytes: 0,
    }
}

/// A key clause of another organization.
fn other_clause_rules(clause: &Option<Reference>) -> Result<(), BrokenRule>
    ensures { IsFirstBreach result (spec.in_clause spec.another_clause clause.now) }
{
    match clause {
        None => Ok(()),
        Some(one) => Rule::FileKey.broken_if(true, one.item.name.place),
    }
}

/// Alternate keys of another organization.
fn other_keys_rules(keys: &[AlternateKeyClause]) -> Result<(), BrokenRule>
    ensures { IsFirstBreach result (each spec.another_key keys.now) }
{
    match keys {
        [] => Ok(()),
        [one, ..] => Rule::FileKey.broken_if(true, one.key.item.name.place),
    }
}

/// There are no more alternate keys than may be.
fn excess_rules(keys: &[AlternateKeyClause]) -> Result<(), BrokenRule>
    ensures { IsFirstBreach result (each spec.excess_key (drop spec.most_alternate_keys keys.now)) }
{
    match keys.get(MOST_ALTERNATE_KEYS) {
        Some(one) => Rule::Limit.broken_if(true, one.key.item.name.place),
        None => Ok(()),
    }
}

/// A sequential file has sequential access, and no keys.
fn sequential_rules(one: &Select) -> Result<(), BrokenRule>
    ensures { IsFirstBreach result (selecting.sequential_rules one.now) }
{
    Rule::FileKey.broken_if(!is_sequential(one.access), one.name.place)?;
    other_clause_rules(&one.relative_key)?;
    other_clause_rules(&one.record_key)?;
    other_keys_rules(one.alternate_keys.as_slice())
}
