//! The verbs of file statements, as their files have them (COBOL-85, Sequential, Relative and Indexed I-O).

ghost use Rattle.std.specs.Prelude.{◌≡◌, ◌||◌, [], min, IfOk};
ghost use Rattle.records.specs.Stores.{key_length};
ghost use Rattle.records.specs.Tests.{is_sequential};
ghost use Rattle.records.specs.declared.key.KeyOfReference.TheVariants.{Alternate};
ghost use Rattle.records.specs.declared.verb.Verb.TheVariants as verbs;
ghost use Rattle.source_tree.specs.Filing as meaning;
ghost use Rattle.source_tree.specs.FilingRules.{read_key_rules, start_key_rules};
ghost use Rattle.source_tree.specs.ProgramFiles.{key_place};
ghost use Rattle.file_descriptions.specs.Clauses.{NamesOne};
ghost use Rattle.file_descriptions.specs.Files.{file_in};
ghost use Rattle.declarations.specs.Named.{items_in, files_in};
ghost use Rattle.statement_codegen.specs.Filed.{spec_in};

use condition_codegen::Emitter;
use file_descriptions::ProgramFile;
use records::{Access, AlternateKey, KeyOfReference, Organization, Relation, Verb};
use source_tree::{Reference, Relation as Asked, RelationalOperator, StartKey};
use std::alloc::AllocError;

/// The verb of READ.
pub fn read_verb(
    emitter: &Emitter<'_>,
    file: &ProgramFile<'_>,
    next: bool,
    key: &Option<Reference>,
) -> Result<Verb, AllocError>
    requires rules { read_key_rules
        (items_in emitter.now.declarations.now) (files_in emitter.now.declarations.now)
        (meaning.is_in_sequence (file_in (items_in emitter.now.declarations.now) file.now) next)
        (file_in (items_in emitter.now.declarations.now) file.now) key.now ≡ [] }
    ensures { IfOk result (λ verb. verb ≡ meaning.read_verb (items_in emitter.now.declarations.now)
        (file_in (items_in emitter.now.declarations.now) file.now) next key.now) }
{
    if is_in_sequence(file, next) {
        return Ok(Verb::ReadNext);
    }
    let Some(key) = key else {
        return Ok(Verb::Read(KeyOfReference::Prime));
    };
    let item = key_item(emitter, key);
    Ok(Verb::Read(key_from(&file.alternates, item.offset)?))
}

/// The verb of START.
pub fn start_verb(
    emitter: &Emitter<'_>,
    file: &ProgramFile<'_>,
    key: &Option<StartKey>,
) -> Result<Verb, AllocError>
    requires rules { start_key_rules
        (items_in emitter.now.declarations.now) (files_in emitter.now.declarations.now)
        (file_in (items_in emitter.now.declarations.now) file.now) key.now ≡ [] }
    ensures { IfOk
        result (λ verb. verb ≡ meaning.start_verb (items_in emitter.now.declarations.now)
        (file_in (items_in emitter.now.declarations.now) file.now) key.now) }
{
    let Some(one) = key else {
        let prime = KeyOfReference::Prime;
        let size = u32::from(key_size(file, prime));
        return start_on(file, Relation::Equal, prime, size);
    };
    let item = key_item(emitter, &one.key);
    let key = key_from(&file.alternates, item.offset)?;
    let relation = start_relation(one.operator);
    start_on(file, relation, key, item.length)
}

/// The item of a key, which names one item.
fn key_item(emitter: &Emitter<'_>, one: &Reference) -> KeyItem
    requires named { NamesOne (items_in emitter.now.declarations.now) one.now }
    ensures offset { result.offset
        ≡ (key_place (items_in emitter.now.declarations.now) one.now).offset }
    ensures length { result.length
        ≡ (key_place (items_in emitter.now.declarations.now) one.now).length }
{
    match emitter
        .declarations
        .layout
        .items
        .get(emitter.item_number(&one.item))
    {
        Some(found) => KeyItem {
            offset: found.offset,
            length: found.item.length,
        },
        None => KeyItem {
            offset: 0,
            length: 0,
        },
    }
}

/// Where an item begins in its record, and how long it is.
#[derive(Clone, Copy)]
struct KeyItem {
    offset: u32,
    length: u32,
}

/// The alternate key of this number. It is refused where 8 bits don't hold the number.
fn alternate_key(number: usize) -> Result<KeyOfReference, AllocError>
    ensures { IfOk result (λ key. key ≡ Alternate number) }
{
    let Ok(number) = u8::try_from(number) else {
        return Err(AllocError);
    };
    Ok(KeyOfReference::Alternate(number))
}

/// The key that begins there: the first of these alternate keys that does, or else the prime key.
fn key_from(alternates: &[AlternateKey], offset: u32) -> Result<KeyOfReference, AllocError>
    ensures { IfOk result (λ key. key ≡ meaning.key_from 0 alternates.now offset) }
{
    for (number, one) in alternates.iter().enumerate() {
        if u32::from(one.place.offset) == offset {
            return alternate_key(number);
        }
    }
    Ok(KeyOfReference::Prime)
}

/// The bytes of a key; a file without keys has none.
fn key_size(file: &ProgramFile<'_>, key: KeyOfReference) -> u16
    ensures { result ≡ key_length (spec_in file.now) key }
{
    match key {
        KeyOfReference::Prime => match file.organization {
            Organization::Sequential | Organization::Relative => 0,
            Organization::Indexed(place) => place.length,
        },
        KeyOfReference::Alternate(number) => match file.alternates.get(usize::from(number)) {
            Some(one) => one.place.length,
            None => 0,
        },
    }
}

fn start_relation(one: RelationalOperator) -> Relation
    ensures { result ≡ meaning.start_relation one }
{
    match (one.negated, one.relation) {
        (false, Asked::Greater) => Relation::Greater,
        (false, Asked::GreaterOrEqual) => Relation::NotLess,
        (true, Asked::Less) => Relation::NotLess,
        _ => Relation::Equal,
    }
}

/// START by this relation, on so many bytes of a key, at most all of them. It is refused where 8 bits don't hold their number.
fn start_on(
    file: &ProgramFile<'_>,
    relation: Relation,
    key: KeyOfReference,
    size: u32,
) -> Result<Verb, AllocError>
    ensures { IfOk result
        (λ verb. verb ≡ verbs.Start relation key (min size (key_length (spec_in file.now) key))) }
{
    let count = size.min(u32::from(key_size(file, key)));
    let Ok(count) = u8::try_from(count) else {
        return Err(AllocError);
    };
    Ok(Verb::Start(relation, key, count))
}

/// READ in sequence, in place of by a key.
fn is_in_sequence(file: &ProgramFile<'_>, next: bool) -> bool
    ensures { result ≡ (is_sequential file.now.select.now.access || next) }
{
    matches!(file.select.access, Access::Sequential) || next
}
