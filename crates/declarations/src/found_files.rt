//! The files that names name, and those of record areas: rule 40 where there is none, 41 where there are several.

ghost use Rattle.std.specs.Prelude.{◌≡◌};
ghost use Rattle.source_tree.specs.ProgramFiles.{files_named, files_with};
ghost use Rattle.declarations.specs.Named.{files_in, items_in};
ghost use Rattle.declarations.specs.FoundFiles.{IsFileFound};

use crate::declarations::Declarations;
use entry_rules::{BrokenRule, Rule};
use file_descriptions::ProgramFile;
use source_tree::{Name, Place};

impl<'a> Declarations<'a> {
    /// The file of that name.
    pub fn file_named(&self, name: &Name) -> Result<&ProgramFile<'a>, BrokenRule>
        ensures { IsFileFound (items_in self.now) name.now.place result
            (files_named (files_in self.now) name.now) }
    {
        name_table::files_named_once();
        match self.files.file_named(name) {
            Some(file) => Ok(file),
            None => Err(BrokenRule {
                rule: Rule::UnknownName,
                place: name.place,
            }),
        }
    }

    /// The file whose records have that area, where one of them is named at that place.
    pub fn file_with(&self, place: Place, area: u32) -> Result<&ProgramFile<'a>, BrokenRule>
        ensures { IsFileFound (items_in self.now) place result
            (files_with (files_in self.now) area) }
    {
        let mut found = None;
        for file in &self.files.files {
            if file.area == area {
                if let Some(_) = found {
                    return Err(BrokenRule {
                        rule: Rule::AmbiguousName,
                        place,
                    });
                }
                found = Some(file);
            }
        }
        match found {
            Some(file) => Ok(file),
            None => Err(BrokenRule {
                rule: Rule::UnknownName,
                place,
            }),
        }
    }
}
