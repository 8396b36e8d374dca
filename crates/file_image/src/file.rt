//! The files that code names.

use data_instructions::ItemIndex;
use records::{Access, AlternateKey, Organization};
use sqlite_items::Items;

/// A file of the table, which counts from 0. A status that is received names its file by a byte.
#[derive(Clone, Copy)]
pub struct FileIndex {
    pub number: u8,
}

/// A file of a program, as its SELECT and its FD say it, and what a file statement works on.
#[derive(Drop)]
pub struct CodeFile {
    /// Its name on the volume.
    pub name: Items<u8>,
    pub organization: Organization,
    /// The bytes of a record.
    pub record_length: u16,
    /// In order of place.
    pub alternates: Items<AlternateKey>,
    pub access: Access,
    pub optional: bool,
    /// The area of its records.
    pub area: u32,
    /// The item of RELATIVE KEY.
    pub relative_key: Option<ItemIndex>,
    /// The item of FILE STATUS.
    pub status: Option<ItemIndex>,
}
