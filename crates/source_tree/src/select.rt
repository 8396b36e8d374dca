//! The files of a program: the entries of FILE-CONTROL and of the FILE SECTION (COBOL-85, Sequential, Relative and Indexed I-O).

use crate::entry::Entry;
use crate::name::Name;
use crate::reference::Reference;
use lexical::Place;
use records::Access;
use sqlite_items::Items;

/// ORGANIZATION.
#[derive(Clone, Copy, PartialEq, Eq)]
pub enum OrganizationClause {
    Sequential,
    Relative,
    Indexed,
}

/// The file's name on the volume: the bytes of a nonnumeric literal, or a word in upper case, in ASCII.
#[derive(Drop)]
pub struct AssignedName {
    pub characters: Items<u8>,
    pub place: Place,
}

/// ALTERNATE RECORD KEY, with DUPLICATES or without.
#[derive(Drop)]
pub struct AlternateKeyClause {
    pub key: Reference,
    pub duplicates: bool,
}

/// A SELECT, which stands where the file's name does. Without their clauses organization and access are sequential.
#[derive(Drop)]
pub struct Select {
    pub optional: bool,
    pub name: Name,
    pub assigned: AssignedName,
    pub organization: OrganizationClause,
    pub access: Access,
    pub relative_key: Option<Reference>,
    pub record_key: Option<Reference>,
    /// In the order of writing.
    pub alternate_keys: Items<AlternateKeyClause>,
    /// FILE STATUS.
    pub status: Option<Reference>,
}

/// An FD with the entries of its records. LABEL RECORDS, BLOCK CONTAINS, RECORD CONTAINS and DATA RECORDS, which have no effect,
/// aren't kept.
#[derive(Drop)]
pub struct FileDescription {
    pub name: Name,
    pub entries: Items<Entry>,
}
