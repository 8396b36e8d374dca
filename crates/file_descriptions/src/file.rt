//! One file of a program.

ghost use Rattle.std.specs.Prelude.{◌≡◌, IfOk};
ghost use Rattle.source_tree.specs.ProgramFiles as meaning;
ghost use Rattle.file_descriptions.specs.Clauses.{KeepsClauses};
ghost use Rattle.file_descriptions.specs.Descriptions.{KeepsDescriptions, described_in};
ghost use Rattle.file_descriptions.specs.Files as spec;
ghost use Rattle.file_descriptions.specs.Sources.{IsSource, data_in, items_in};

use crate::description::file_records;
use crate::source::Source;
use items::Item;
use records::{AlternateKey, Organization};
use source_tree::Select;
use std::alloc::{AllocError, Global};

/// A file of a program, as its SELECT and its FD say it.
#[derive(Drop)]
pub struct ProgramFile<'a> {
    /// Its SELECT, with its name, its name on the volume, ACCESS and OPTIONAL.
    pub select: &'a Select,
    /// Its place among the SELECTs, from 0.
    pub number: usize,
    /// With the prime key of an indexed file.
    pub organization: Organization,
    /// The bytes of its longest record.
    pub record_length: u16,
    /// In order of place.
    pub alternates: Vec<AlternateKey>,
    /// The area of its records.
    pub area: u32,
    /// The items of RELATIVE KEY and FILE STATUS, by their numbers in the order of the layout.
    pub relative_key: Option<usize>,
    pub status: Option<usize>,
    /// What READ INTO moves.
    pub sent: Item,
}

/// The file of a SELECT that has so many before it.
pub fn program_file<'a>(
    alloc: Global,
    source: Source<'_, '_>,
    number: usize,
    select: &'a Select,
) -> Result<ProgramFile<'a>, AllocError>
    requires source { IsSource source }
    requires descriptions { KeepsDescriptions (data_in source) }
    requires clauses { KeepsClauses (items_in source) select.now }
    ensures file { IfOk result
        (λ one. spec.file_in (items_in source.entry) one ≡ meaning.file_by (items_in source.entry)
        number select.entry.now (described_in (data_in source.entry) select.entry.now.name)) }
    ensures numbers { IfOk result (λ one. spec.numbers_in one
        ≡ spec.clause_numbers (items_in source.entry) select.entry.now) }
{
    let found = file_records(alloc, source.storage, source.files, &select.name)?;
    let alternates = source.alternates(alloc, select.alternate_keys.as_slice())?;
    Ok(ProgramFile {
        select,
        number,
        organization: source.organization(select.organization, &select.record_key),
        record_length: found.record_length,
        alternates,
        area: found.area,
        relative_key: source.clause_number(&select.relative_key),
        status: source.clause_number(&select.status),
        sent: found.sent,
    })
}
