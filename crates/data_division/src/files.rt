//! File description entries with their records, and the file section (COBOL-85, Sequential I-O, "File description entry").

ghost use Rattle.std.specs.Prelude.{◌≡◌};
ghost use Rattle.grammar.specs.Reading.{Reads};
ghost use Rattle.data_division.specs.Files as spec;

use crate::entry_lists::Entries;
use crate::file_clauses::file_clauses;
use grammar::{Part, ReadFault, Tokens, beside, name, several};
use source_tree::FileDescription;
use sqlite_items::Items;
use std::alloc::Global;
use tokens::Reserved;

/// The files of the file section; none where FILE doesn't come next.
#[tactic(auto, unfolding(crate::specs::Files::file_section_reader, crate::specs::Files::described_reader))]
pub fn file_section(
    alloc: Global,
    tokens: &mut Tokens<'_>,
) -> Result<Items<FileDescription>, ReadFault>
    ensures { Reads (spec.file_section_reader tokens.old) result tokens.new }
{
    if !tokens.at_word(Reserved::File) {
        return Ok(Items::new(alloc));
    }
    tokens.heading(&[Reserved::File, Reserved::Section])?;
    several(&Files, alloc, tokens)
}

/// An FD and the entries of its records.
#[tactic(auto, unfolding(crate::specs::Files::file_reader))]
fn file(alloc: Global, tokens: &mut Tokens<'_>) -> Result<FileDescription, ReadFault>
    ensures { Reads (spec.file_reader tokens.old) result tokens.new }
{
    tokens.expect(Reserved::Fd)?;
    let name = name(alloc, tokens)?;
    let (name, _clauses) = beside(name, file_clauses(alloc, tokens))?;
    let (name, ()) = beside(name, tokens.period())?;
    let (name, entries) = beside(name, several(&Entries, alloc, tokens))?;
    Ok(FileDescription { name, entries })
}

/// Files in a list.
struct Files;

impl Part<FileDescription> for Files {
    ghost use Rattle.data_division.specs.Files as spec;

    ghost ready = { λ _. Unit {0} };

    ghost reading = { λ _. spec.file_reader };

    ghost beginning = { λ _. spec.begins_file };

    fn read(&self, alloc: Global, tokens: &mut Tokens<'_>) -> Result<FileDescription, ReadFault> {
        file(alloc, tokens)
    }

    fn begins(&self, tokens: &Tokens<'_>) -> bool {
        tokens.at_word(Reserved::Fd)
    }
}
