//! The data division: its files, and the entries of its working-storage section (COBOL-85, Nucleus, "Data division").

ghost use Rattle.std.specs.Prelude.{◌≡◌};
ghost use Rattle.grammar.specs.Reading.{Reads};
ghost use Rattle.data_division.specs.Division as spec;

use crate::entry_lists::Entries;
use crate::files::file_section;
use grammar::{ReadFault, Tokens, any, beside};
use source_tree::{Entry, FileDescription};
use sqlite_items::Items;
use std::alloc::Global;
use tokens::Reserved;

/// What a data division describes.
#[derive(Drop)]
pub struct DataDivision {
    pub files: Items<FileDescription>,
    /// The entries of working storage.
    pub storage: Items<Entry>,
}

/// The entries of the working-storage section; none where WORKING-STORAGE doesn't come next.
#[tactic(auto, unfolding(crate::specs::Division::working_storage_reader, crate::specs::Division::stored_reader))]
fn working_storage(alloc: Global, tokens: &mut Tokens<'_>) -> Result<Items<Entry>, ReadFault>
    ensures { Reads (spec.working_storage_reader tokens.old) result tokens.new }
{
    if !tokens.at_word(Reserved::WorkingStorage) {
        return Ok(Items::new(alloc));
    }
    tokens.heading(&[Reserved::WorkingStorage, Reserved::Section])?;
    any(&Entries, alloc, tokens)
}

#[tactic(auto, unfolding(crate::specs::Division::sections_reader))]
fn sections(alloc: Global, tokens: &mut Tokens<'_>) -> Result<DataDivision, ReadFault>
    ensures { Reads (spec.sections_reader tokens.old) result tokens.new }
{
    tokens.heading(&[Reserved::Data, Reserved::Division])?;
    let files = file_section(alloc, tokens)?;
    let (files, storage) = beside(files, working_storage(alloc, tokens))?;
    Ok(DataDivision { files, storage })
}

/// The files and the entries of working storage; none where DATA doesn't come next.
#[tactic(auto, unfolding(crate::specs::Division::data_division_reader))]
pub fn data_division(alloc: Global, tokens: &mut Tokens<'_>) -> Result<DataDivision, ReadFault>
    ensures { Reads (spec.data_division_reader tokens.old) result tokens.new }
{
    if tokens.at_word(Reserved::Data) {
        return sections(alloc, tokens);
    }
    Ok(DataDivision {
        files: Items::new(alloc),
        storage: Items::new(alloc),
    })
}
