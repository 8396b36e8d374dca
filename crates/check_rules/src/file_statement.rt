//! The rules of file statements: 40 and 41 of files and records, 49 of the moves of INTO and FROM, 60 a START of a relative file without
//! RELATIVE KEY, 61 what organization or access doesn't permit, 62 phrases, KEY and NEXT, 63 the KEY of START (COBOL-85, Sequential,
//! Relative and Indexed I-O).

ghost use Rattle.std.specs.Prelude.{◌≡◌, Some, slice_get};
ghost use Rattle.entry_rules.specs.Checks.{IsFirstBreach};
ghost use Rattle.source_tree.specs.Broken.{each};
ghost use Rattle.source_tree.specs.FileRules.{clause_item};
ghost use Rattle.source_tree.specs.FilingRules as spec;
ghost use Rattle.source_tree.specs.Places.{LocatedItem};
ghost use Rattle.file_descriptions.specs.Files.{file_in, place_at};
ghost use Rattle.check_rules.specs.Filed as filed;
ghost use Rattle.check_rules.specs.References.{named_rules};
ghost use Rattle.declarations.specs.Named.{files_in, items_in};

use crate::asked::Asked;
use crate::checker::Checker;
use crate::file_keys::{is_key_item, is_start_item};
use crate::file_phrases::{
    is_in_sequence, is_random, is_relative, is_sequential, phrase_kind_rules, read_phrase_rules,
};
use crate::references::shape_rules;
use crate::sent::Sent;
use declarations::no_part_rules;
use entry_rules::{BrokenRule, Rule};
use file_descriptions::ProgramFile;
use layout::PlacedItem;
use source_tree::{
    FilePhrases, FileStatement, Name, OpenMode, Opening, Place, Reference, Relation,
    RelationalOperator, StartKey, Statement,
};
use std::slice;

impl<'a> Checker<'a> {
    /// The item of RELATIVE KEY.
    fn relative_key(&self, file: &ProgramFile<'_>) -> Option<&PlacedItem>
        ensures { filed.IsPlaced
            (place_at (items_in self.now.declarations.now) file.now.relative_key) result }
    {
        let number = file.relative_key?;
        self.declarations.layout.items.as_slice().get(number)
    }

    /// A file of OPEN: only sequential files are extended.
    fn opening_rules(&self, one: &Opening) -> Result<(), BrokenRule>
        ensures { IsFirstBreach result (spec.open_rules (items_in self.now.declarations.now)
            (files_in self.now.declarations.now) one.now) }
    {
        let file = self.declarations.file_named(&one.file)?;
        let is_extended = matches!(one.mode, OpenMode::Extend) && !is_sequential(file.organization);
        Rule::FileStatement.broken_if(is_extended, one.file.place)
    }

    fn openings_rules(&self, all: &[Opening]) -> Result<(), BrokenRule>
        ensures { IsFirstBreach result (each (spec.open_rules (items_in self.now.declarations.now)
            (files_in self.now.declarations.now)) all.now) }
    {
        for one in all {
            self.opening_rules(one)?;
        }
        Ok(())
    }

    fn closing_rules(&self, one: &Name) -> Result<(), BrokenRule>
        ensures { IsFirstBreach result (spec.close_rules (items_in self.now.declarations.now)
            (files_in self.now.declarations.now) one.now) }
    {
        self.declarations.file_named(one)?;
        Ok(())
    }

    fn closings_rules(&self, all: &[Name]) -> Result<(), BrokenRule>
        ensures { IsFirstBreach result (each (spec.close_rules (items_in self.now.declarations.now)
            (files_in self.now.declarations.now)) all.now) }
    {
        for one in all {
            self.closing_rules(one)?;
        }
        Ok(())
    }

    /// The item of KEY of READ, which is a key of the file.
    fn read_key_item_rules(&self, file: &ProgramFile<'_>, key: &Reference) -> Result<(), BrokenRule>
        ensures { IsFirstBreach result (clause_item (items_in self.now.declarations.now)
            (spec.read_key_item (file_in (items_in self.now.declarations.now) file.now)) key.now) }
    {
        let (number, found) = self.declarations.numbered_item(&key.item)?;
        no_part_rules(key)?;
        let is_key = is_key_item(&self.declarations.names, file, key, found, number);
        Rule::FilePhrase.broken_if(!is_key, key.item.name.place)
    }

    /// KEY of READ, which a READ in sequence hasn't.
    fn read_key_rules(
        &self,
        in_sequence: bool,
        file: &ProgramFile<'_>,
        key: &Option<Reference>,
    ) -> Result<(), BrokenRule>
        ensures { IsFirstBreach result (spec.read_key_rules
            (items_in self.now.declarations.now) (files_in self.now.declarations.now) in_sequence
            (file_in (items_in self.now.declarations.now) file.now) key.now) }
    {
        let Some(one) = key else {
            return Ok(());
        };
        Rule::FilePhrase.broken_if(in_sequence, one.item.name.place)?;
        self.read_key_item_rules(file, one)
    }

    /// INTO, to which what the file sends may be moved.
    fn into_rules(&self, file: &ProgramFile<'_>, into: &Option<Reference>) -> Result<(), BrokenRule>
        ensures { IsFirstBreach result (spec.into_rules
            (items_in self.now.declarations.now) (files_in self.now.declarations.now)
            (file_in (items_in self.now.declarations.now) file.now) into.now) }
    {
        match into {
            None => Ok(()),
            Some(one) => self.item_rules(Asked::Receives(Sent::by_item(file.sent)), one),
        }
    }

    /// A READ of a file that was found: with NEXT it has no random access.
    fn read_file_rules<S>(
        &self,
        next: bool,
        file: &ProgramFile<'_>,
        place: Place,
        phrases: &FilePhrases<S>,
    ) -> Result<(), BrokenRule>
        ensures { IsFirstBreach result (filed.read_file_rules place next phrases.now
            (file_in (items_in self.now.declarations.now) file.now)) }
    {
        let access = file.select.access;
        Rule::FilePhrase.broken_if(next && is_random(access), place)?;
        read_phrase_rules(place, is_in_sequence(access, next), phrases)
    }

    /// A READ of a file, which is named at that place.
    fn read_found_rules<S>(
        &self,
        file: &ProgramFile<'_>,
        place: Place,
        next: bool,
        into: &Option<Reference>,
        key: &Option<Reference>,
        phrases: &FilePhrases<S>,
    ) -> Result<(), BrokenRule>
        ensures { IsFirstBreach result (spec.read_rules (items_in self.now.declarations.now)
            (files_in self.now.declarations.now) place next into.now key.now phrases.now
            (file_in (items_in self.now.declarations.now) file.now)) }
    {
        self.read_file_rules(next, file, place, phrases)?;
        self.read_key_rules(is_in_sequence(file.select.access, next), file, key)?;
        self.into_rules(file, into)
    }

    fn read_rules<S>(
        &self,
        name: &Name,
        next: bool,
        into: &Option<Reference>,
        key: &Option<Reference>,
        phrases: &FilePhrases<S>,
    ) -> Result<(), BrokenRule>
        ensures { IsFirstBreach result (spec.file_named_rules (items_in self.now.declarations.now)
            (files_in self.now.declarations.now) name.now (spec.read_rules
            (items_in self.now.declarations.now) (files_in self.now.declarations.now) name.now.place
            next into.now key.now phrases.now)) }
    {
        let file = self.declarations.file_named(name)?;
        self.read_found_rules(file, name.place, next, into, key, phrases)
    }

    /// The 01 record of an FD. It is the item of that number, which has that area.
    fn record_item_rules<S>(
        &self,
        place: Place,
        number: usize,
        area: u32,
        phrases: &FilePhrases<S>,
    ) -> Result<(), BrokenRule>
        ensures { (one : LocatedItem)
            → slice_get (items_in self.now.declarations.now) number ≡ Some one → area ≡ one.area
            → IsFirstBreach result (spec.record_item (items_in self.now.declarations.now)
            (files_in self.now.declarations.now) phrases.now place one) }
    {
        Rule::UnknownName.broken_if(!self.declarations.is_record(number), place)?;
        let file = self.declarations.file_with(place, area)?;
        phrase_kind_rules(place, file.organization, phrases)
    }

    /// The record of WRITE and REWRITE: the 01 record of an FD, without a part.
    fn record_named_rules<S>(
        &self,
        one: &Reference,
        phrases: &FilePhrases<S>,
    ) -> Result<(), BrokenRule>
        ensures { IsFirstBreach result (named_rules (items_in self.now.declarations.now)
            (filed.whole_record (items_in self.now.declarations.now)
            (files_in self.now.declarations.now) phrases.now one.now) one.now) }
    {
        let (number, found) = self.declarations.numbered_item(&one.item)?;
        shape_rules(one, found)?;
        no_part_rules(one)?;
        self.record_item_rules(one.item.name.place, number, found.area, phrases)
    }

    /// FROM, which is moved to the record.
    fn from_rules(&self, to: &Reference, from: &Option<Reference>) -> Result<(), BrokenRule>
        ensures { IsFirstBreach result (spec.from_rules (items_in self.now.declarations.now)
            (files_in self.now.declarations.now) to.now from.now) }
    {
        match from {
            None => Ok(()),
            Some(item) => self.move_item_rules(item, slice::from_ref(to)),
        }
    }

    fn record_rules<S>(
        &self,
        one: &Reference,
        from: &Option<Reference>,
        phrases: &FilePhrases<S>,
    ) -> Result<(), BrokenRule>
        ensures { IsFirstBreach result (spec.record_rules (items_in self.now.declarations.now)
            (files_in self.now.declarations.now) one.now from.now phrases.now) }
    {
        self.record_named_rules(one, phrases)?;
        self.parenthesized_rules(one)?;
        self.from_rules(one, from)
    }

    fn delete_rules<S>(&self, name: &Name, phrases: &FilePhrases<S>) -> Result<(), BrokenRule>
        ensures { IsFirstBreach result (spec.file_named_rules
            (items_in self.now.declarations.now) (files_in self.now.declarations.now)
            name.now (spec.delete_rules (items_in self.now.declarations.now)
            (files_in self.now.declarations.now) name.now.place phrases.now)) }
    {
        let file = self.declarations.file_named(name)?;
        Rule::FileStatement.broken_if(is_sequential(file.organization), name.place)?;
        phrase_kind_rules(name.place, file.organization, phrases)
    }

    /// The item of KEY of START.
    fn start_item_rules(&self, file: &ProgramFile<'_>, key: &Reference) -> Result<(), BrokenRule>
        ensures { IsFirstBreach result (clause_item (items_in self.now.declarations.now)
            (spec.start_key_item (file_in (items_in self.now.declarations.now) file.now)) key.now) }
    {
        let (number, found) = self.declarations.numbered_item(&key.item)?;
        no_part_rules(key)?;
        let is_start = is_start_item(&self.declarations.names, file, key, found, number);
        Rule::StartKey.broken_if(!is_start, key.item.name.place)
    }

    fn start_key_rules(
        &self,
        file: &ProgramFile<'_>,
        key: &Option<StartKey>,
    ) -> Result<(), BrokenRule>
        ensures { IsFirstBreach result (spec.start_key_rules
            (items_in self.now.declarations.now) (files_in self.now.declarations.now)
            (file_in (items_in self.now.declarations.now) file.now) key.now) }
    {
        let Some(one) = key else {
            return Ok(());
        };
        Rule::StartKey.broken_if(!is_start_operator(one.operator), one.key.item.name.place)?;
        self.start_item_rules(file, &one.key)
    }

    /// START stands not on sequential files, not with random access, and on relative files with RELATIVE KEY alone.
    fn start_file_rules(&self, file: &ProgramFile<'_>, place: Place) -> Result<(), BrokenRule>
        ensures { IsFirstBreach result
            (filed.start_file_rules place (file_in (items_in self.now.declarations.now) file.now)) }
    {
        let is_unordered = is_sequential(file.organization) || is_random(file.select.access);
        Rule::FileStatement.broken_if(is_unordered, place)?;
        let has_no_key = is_relative(file.organization) && self.relative_key(file).is_none();
        Rule::RelativeKey.broken_if(has_no_key, place)
    }

    /// A START of a file, which is named at that place.
    fn start_found_rules<S>(
        &self,
        file: &ProgramFile<'_>,
        place: Place,
        key: &Option<StartKey>,
        phrases: &FilePhrases<S>,
    ) -> Result<(), BrokenRule>
        ensures { IsFirstBreach result (spec.start_rules (items_in self.now.declarations.now)
            (files_in self.now.declarations.now) place key.now phrases.now
            (file_in (items_in self.now.declarations.now) file.now)) }
    {
        self.start_file_rules(file, place)?;
        self.start_key_rules(file, key)?;
        phrase_kind_rules(place, file.organization, phrases)
    }

    fn start_rules<S>(
        &self,
        name: &Name,
        key: &Option<StartKey>,
        phrases: &FilePhrases<S>,
    ) -> Result<(), BrokenRule>
        ensures { IsFirstBreach result (spec.file_named_rules
            (items_in self.now.declarations.now) (files_in self.now.declarations.now)
            name.now (spec.start_rules (items_in self.now.declarations.now)
            (files_in self.now.declarations.now) name.now.place key.now phrases.now)) }
    {
        let file = self.declarations.file_named(name)?;
        self.start_found_rules(file, name.place, key, phrases)
    }

    /// A file statement without those in its phrases.
    pub fn filing_rules(&self, one: &FileStatement<Statement>) -> Result<(), BrokenRule>
        ensures { IsFirstBreach result (spec.filing_rules (items_in self.now.declarations.now)
            (files_in self.now.declarations.now) one.now) }
    {
        match one {
            FileStatement::Open { files } => self.openings_rules(files.as_slice()),
            FileStatement::Close { files } => self.closings_rules(files.as_slice()),
            FileStatement::Read {
                file,
                next,
                into,
                key,
                phrases,
            } => self.read_rules(file, *next, into, key, phrases),
            FileStatement::Write {
                record,
                from,
                phrases,
            } => self.record_rules(record, from, phrases),
            FileStatement::Rewrite {
                record,
                from,
                phrases,
            } => self.record_rules(record, from, phrases),
            FileStatement::Delete { file, phrases } => self.delete_rules(file, phrases),
            FileStatement::Start { file, key, phrases } => self.start_rules(file, key, phrases),
        }
    }
}

/// =, > and >=, and < after NOT, which START permits.
fn is_start_operator(one: RelationalOperator) -> bool
    ensures { result ≡ spec.is_start_operator one }
{
    if one.negated {
        matches!(one.relation, Relation::Less)
    } else {
        matches!(
            one.relation,
            Relation::Equal | Relation::Greater | Relation::GreaterOrEqual
        )
    }
}
