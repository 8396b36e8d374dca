//! A row of a file statement: `VERB SELECT [NUMBER] [key K] [bytes N] [RECORD] -> STATUS [NUMBER] [RECORD]`.
//!
//! Before the arrow, the number is that of the RELATIVE KEY item (0 if it is left out), and the record is the record area (all `?` if it
//! is left out). After the arrow they are the number and the record that the statement leaves, if they change.
use crate::answer::Answer;
use crate::effect::Effect;
use crate::record::{read_record, record_of};
use crate::select::name_of;
use records::{FileSpec, KeyOfReference, OpenMode, Relation, Verb};
use row_scripts::{Fault, Words, look_up, number_of};
use std::alloc::Global;

/// A verb on the file of the SELECT at a place.
#[derive(Clone, Copy)]
pub struct FileCall {
    pub select: usize,
    pub verb: Verb,
}

/// A file statement, with the effect that is expected.
#[derive(Drop)]
pub struct Statement {
    pub call: FileCall,
    pub record: Vec<u8>,
    pub number: u64,
    pub expected: Effect,
}

const PRIME: KeyOfReference = KeyOfReference::Prime;

/// The verbs by their words, with the prime key. A START compares no byte yet.
const VERBS: [(&[u8], Verb); 13] = [
    (b"open-input", Verb::Open(OpenMode::Input)),
    (b"open-output", Verb::Open(OpenMode::Output)),
    (b"open-i-o", Verb::Open(OpenMode::InputOutput)),
    (b"open-extend", Verb::Open(OpenMode::Extend)),
    (b"close", Verb::Close),
    (b"read-next", Verb::ReadNext),
    (b"read", Verb::Read(PRIME)),
    (b"write", Verb::Write),
    (b"rewrite", Verb::Rewrite),
    (b"delete", Verb::Delete),
    (b"start-equal", Verb::Start(Relation::Equal, PRIME, 0)),
    (b"start-greater", Verb::Start(Relation::Greater, PRIME, 0)),
    (b"start-not-less", Verb::Start(Relation::NotLess, PRIME, 0)),
];

/// The verb of a word.
pub fn verb_of(word: &[u8]) -> Option<Verb> {
    look_up(&VERBS, word)
}

/// Whether a row is a statement.
pub fn is_statement(row: &[u8]) -> bool {
    Words::of(row).word().and_then(verb_of).is_some()
}

/// The key of a number: 0 is the prime key, and the alternate keys are counted from 1.
fn key_of(file: &FileSpec, number: u64) -> Option<KeyOfReference> {
    if number == 0 {
        return Some(KeyOfReference::Prime);
    }
    if number > file.alternates.len() as u64 {
        return None;
    }
    let index = u8::try_from(number).ok()?;
    Some(KeyOfReference::Alternate(index.saturating_sub(1)))
}

/// How many bytes a key has.
fn key_length(file: &FileSpec, number: u64) -> u8 {
    let mut length = 0;
    match file.organization {
        records::Organization::Indexed(place) if number == 0 => length = place.length,
        _ => {}
    }
    for (i, alternate) in file.alternates.iter().enumerate() {
        if (i as u64).wrapping_add(1) == number {
            length = alternate.place.length;
        }
    }
    u8::try_from(length).unwrap_or(0)
}

/// The key of a row: its number, and how many bytes a START compares.
#[derive(Clone, Copy)]
struct Key {
    number: u64,
    bytes: Option<u64>,
}

fn read_key(words: &mut Words<'_>) -> Option<Key> {
    let mut key = Key {
        number: 0,
        bytes: None,
    };
    if words.takes(b"key") {
        key.number = words.number()?;
    }
    if words.takes(b"bytes") {
        key.bytes = Some(words.number()?);
    }
    Some(key)
}

/// A verb with the key of the next words.
fn read_verb(words: &mut Words<'_>, verb: Verb, file: &FileSpec) -> Option<Verb> {
    let key = read_key(words)?;
    with_key(verb, key, file)
}

fn with_key(verb: Verb, key: Key, file: &FileSpec) -> Option<Verb> {
    let reference = key_of(file, key.number)?;
    Some(match verb {
        Verb::Read(_) => Verb::Read(reference),
        Verb::Start(relation, _, _) => {
            let whole = key_length(file, key.number);
            let bytes = match key.bytes {
                Some(bytes) => u8::try_from(bytes).ok()?,
                None => whole,
            };
            Verb::Start(relation, reference, bytes)
        }
        other => other,
    })
}

/// The next word as a number, if it is one.
fn number_ahead(words: &mut Words<'_>) -> Option<u64> {
    let number = words.ahead().and_then(number_of)?;
    words.word();
    Some(number)
}

fn read_answer(words: &mut Words<'_>) -> Option<Answer> {
    if !words.takes(b"->") {
        return None;
    }
    if words.takes(b"refused") {
        return Some(Answer::Refused(words.number()?));
    }
    match words.word() {
        Some([one, other]) => Some(Answer::Status([*one, *other])),
        _ => None,
    }
}

const WRONG: &str = "this is no file statement";

/// The verb of a row, and its SELECT, which is one of these.
pub fn read_file_call(words: &mut Words<'_>, selects: &[Vec<u8>]) -> Option<FileCall> {
    let verb = verb_of(words.word()?)?;
    let name = words.word()?;
    let select = selects.iter().position(|row| name_of(row) == Some(name))?;
    Some(FileCall { select, verb })
}

/// The statement of the words after the verb and the SELECT.
pub fn read_rest(
    alloc: Global,
    words: &mut Words<'_>,
    call: FileCall,
    file: &FileSpec,
) -> Result<Statement, Fault> {
    let length = file.record_length as usize;
    let number = number_ahead(words).unwrap_or(0);
    let Some(verb) = read_verb(words, call.verb, file) else {
        return Err(Fault::Spelling(WRONG));
    };
    let record = read_area(alloc, words, length)?;
    match read_expected(alloc, words, &record, number) {
        Ok(expected) => Ok(Statement {
            call: FileCall { verb, ..call },
            record,
            number,
            expected,
        }),
        Err(fault) => Err(fault),
    }
}

/// The record area before a statement.
fn read_area(alloc: Global, words: &mut Words<'_>, length: usize) -> Result<Vec<u8>, Fault> {
    match read_record(alloc, words, length)? {
        Some(record) => Ok(record),
        None => Ok(record_of(alloc, length, b'?')?),
    }
}

/// The record area after a statement on a record.
fn read_record_after(
    alloc: Global,
    words: &mut Words<'_>,
    record: &[u8],
) -> Result<Vec<u8>, Fault> {
    match read_record(alloc, words, record.len())? {
        Some(record) => Ok(record),
        None => Ok(Vec::from_slice(alloc, record)?),
    }
}

/// What is expected of a statement on a record and a number.
fn read_expected(
    alloc: Global,
    words: &mut Words<'_>,
    record: &[u8],
    number: u64,
) -> Result<Effect, Fault> {
    let Some(answer) = read_answer(words) else {
        return Err(Fault::Spelling(WRONG));
    };
    let number = number_ahead(words).unwrap_or(number);
    let record = read_record_after(alloc, words, record)?;
    if !words.is_done() {
        return Err(Fault::Spelling("there is more after the statement"));
    }
    Ok(Effect {
        answer,
        record,
        number,
    })
}
