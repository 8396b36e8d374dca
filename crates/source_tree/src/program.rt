//! Programs, sections, paragraphs and sentences.

use crate::entry::Entry;
use crate::name::Name;
use crate::select::{FileDescription, Select};
use crate::statement::Statement;
use sqlite_items::Items;

/// The statements up to a period, one or more. The period ends every statement that is still open, so the statements of
/// a sentence hold none of the next one.
#[derive(Drop)]
pub struct Sentence {
    pub statements: Items<Statement>,
}

/// A paragraph, which may have no sentence. Sentences before the first paragraph's name are one without a name
/// (own choice).
#[derive(Drop)]
pub struct Paragraph {
    pub name: Option<Name>,
    pub sentences: Items<Sentence>,
}

/// A section. The paragraphs that belong to no section are one without a name, which comes first (own choice).
#[derive(Drop)]
pub struct Section {
    pub name: Option<Name>,
    pub paragraphs: Items<Paragraph>,
}

/// A program by its name in PROGRAM-ID, with its files as SELECTs and FDs say them, the entries of its working storage and the
/// sections of its procedure division.
#[derive(Drop)]
pub struct Program {
    pub name: Name,
    pub selects: Items<Select>,
    pub files: Items<FileDescription>,
    pub storage: Items<Entry>,
    pub sections: Items<Section>,
}
