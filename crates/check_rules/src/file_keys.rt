//! The items that KEY of READ and START name.

ghost use Rattle.std.specs.Prelude.{◌≡◌, map, slice_get};
ghost use Rattle.std.specs.List.{list_any};
ghost use Rattle.name_table.specs.Table.{calls_in};
ghost use Rattle.source_tree.specs.FilingRules as spec;
ghost use Rattle.check_rules.specs.Filed as filed;
ghost use Rattle.check_rules.specs.FiledKeys as keys;

use crate::file_phrases::is_relative;
use declarations::is_plain;
use file_descriptions::ProgramFile;
use items::Kind;
use layout::PlacedItem;
use name_table::NameTable;
use records::{AlternateKey, KeyPlace, Organization};
use source_tree::{AlternateKeyClause, Reference, Select};

/// The item of that number is a key of the file.
pub(crate) fn is_key_item(
    names: &NameTable<'_>,
    file: &ProgramFile<'_>,
    reference: &Reference,
    one: &PlacedItem,
    number: usize,
) -> bool
    ensures { result
        ≡ filed.is_key_item file.now reference.now one.now (slice_get (calls_in names.now) number) }
{
    is_plain(reference, one) && names_key(names, file.select, number)
}

/// The item of that number is a key of the file, begins one, or is RELATIVE KEY.
pub(crate) fn is_start_item(
    names: &NameTable<'_>,
    file: &ProgramFile<'_>,
    reference: &Reference,
    one: &PlacedItem,
    number: usize,
) -> bool
    ensures { result ≡ filed.is_start_item file.now reference.now one.now
        (slice_get (calls_in names.now) number) }
{
    is_key_item(names, file, reference, one, number)
        || begins_key_item(file, reference, one)
        || is_relative_key(names, file, reference, one, number)
}

/// A clause names the item of that number.
fn clause_names(names: &NameTable<'_>, clause: &Option<Reference>, number: usize) -> bool
    ensures { result ≡ keys.clause_names clause.now (slice_get (calls_in names.now) number) }
{
    match clause {
        Some(one) => names.is_named(&one.item, number),
        None => false,
    }
}

/// One of the clauses names the item of that number.
fn alternates_name(names: &NameTable<'_>, clauses: &[AlternateKeyClause], number: usize) -> bool
    ensures { result
        ≡ list_any (keys.alternate_names (slice_get (calls_in names.now) number)) clauses.now }
{
    for clause in clauses {
        if names.is_named(&clause.key.item, number) {
            return true;
        }
    }
    false
}

/// RECORD KEY or ALTERNATE RECORD KEY names the item of that number.
fn names_key(names: &NameTable<'_>, select: &Select, number: usize) -> bool
    ensures { result ≡ keys.names_key select.now (slice_get (calls_in names.now) number) }
{
    clause_names(names, &select.record_key, number)
        || alternates_name(names, select.alternate_keys.as_slice(), number)
}

/// The item begins where the key does, and is no longer.
fn begins_key(key: KeyPlace, one: &PlacedItem) -> bool
    ensures { result ≡ spec.begins_key (keys.place_of one.now) key }
{
    one.offset == u32::from(key.offset) && one.item.length <= u32::from(key.length)
}

fn begins_alternate_key(alternates: &[AlternateKey], one: &PlacedItem) -> bool
    ensures { result ≡ list_any (spec.begins_key (keys.place_of one.now))
        (map keys.key_place_of alternates.now) }
{
    for key in alternates {
        if begins_key(key.place, one) {
            return true;
        }
    }
    false
}

/// The item begins a key of the file.
fn begins_key_of(file: &ProgramFile<'_>, one: &PlacedItem) -> bool
    ensures { result ≡ list_any (spec.begins_key (keys.place_of one.now))
        (spec.keys_by file.now.organization file.now.alternates.items) }
{
    match file.organization {
        Organization::Indexed(prime) => {
            begins_key(prime, one) || begins_alternate_key(&file.alternates, one)
        }
        _ => false,
    }
}

/// A group, or an alphanumeric item.
fn is_text(kind: Kind) -> bool
    ensures { result ≡ spec.is_text_kind kind }
{
    matches!(kind, Kind::Group | Kind::Alphanumeric { .. })
}

/// The item is one of the file's record, without subscripts.
fn is_in_record(file: &ProgramFile<'_>, reference: &Reference, one: &PlacedItem) -> bool
    ensures { result ≡ filed.is_in_record file.now reference.now one.now }
{
    is_plain(reference, one) && one.area == file.area
}

/// The item is a text that begins a key of the file.
fn begins_key_item(file: &ProgramFile<'_>, reference: &Reference, one: &PlacedItem) -> bool
    ensures { result ≡ filed.begins_key_item file.now reference.now one.now }
{
    is_in_record(file, reference, one) && is_text(one.item.kind) && begins_key_of(file, one)
}

/// The item of that number is the RELATIVE KEY of a relative file.
fn is_relative_key(
    names: &NameTable<'_>,
    file: &ProgramFile<'_>,
    reference: &Reference,
    one: &PlacedItem,
    number: usize,
) -> bool
    ensures { result ≡ filed.is_relative_key file.now reference.now one.now
        (slice_get (calls_in names.now) number) }
{
    is_relative(file.organization)
        && is_plain(reference, one)
        && clause_names(names, &file.select.relative_key, number)
}
