//! Where the records of a file stand.

ghost use Rattle.std.specs.Prelude.{◌≡◌};
ghost use Rattle.source_tree.specs.Records.{record_length};

use source_tree::Entry;

/// The area of a file's records, their entries, and how many bytes the longest has.
#[derive(Clone, Copy)]
pub(crate) struct RecordArea<'a> {
    pub(crate) area: u32,
    pub(crate) entries: &'a [Entry],
    pub(crate) bytes: u32,
    ghost measured: { bytes ≡ record_length entries.now },
}
