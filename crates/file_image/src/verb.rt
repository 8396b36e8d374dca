//! Verbs of file statements in an image.

ghost use Rattle.std.specs.Prelude.{◌≡◌, ◌++◌, ◌∷◌, [], OnOk};
ghost use Rattle.answers.specs.Answer.{Gives};
ghost use Rattle.data_image.specs.Faults.{fault_of};
ghost use Rattle.data_image.specs.Spelling.{IsByte};
ghost use Rattle.data_image.specs.Reading.{told_at};
ghost use Rattle.file_image.specs.Spelling as spec;
ghost use Rattle.file_image.specs.Spelling.{key_bytes, verb_bytes, IsKeySpelled, IsVerbSpelled, read_at, start_at, verb_at};

use crate::key::{put_key, read_key};
use data_image::{ImageError, found, put_byte, read_byte};
use records::{KeyOfReference, OpenMode, Relation, Verb};
use std::alloc::AllocError;

// The first byte of each verb in an image.
const OPEN_INPUT: u8 = 1;

const OPEN_OUTPUT: u8 = 2;

const OPEN_INPUT_OUTPUT: u8 = 3;

const OPEN_EXTEND: u8 = 4;

const CLOSE: u8 = 5;

const READ_NEXT: u8 = 6;

const WRITE: u8 = 7;

const REWRITE: u8 = 8;

const DELETE: u8 = 9;

const READ: u8 = 10;

const START: u8 = 11;

// The byte of each relation.
const EQUAL: u8 = 1;

const GREATER: u8 = 2;

const NOT_LESS: u8 = 3;

/// Puts a verb.
pub fn put_verb(out: &mut Vec<u8>, verb: Verb) -> Result<(), AllocError>
    ensures bytes { OnOk result (out.new.items ≡ out.old.items ++ verb_bytes verb) }
    ensures fits { IsVerbSpelled verb }
{
    match verb {
        Verb::Open(OpenMode::Input) => put_byte(out, OPEN_INPUT),
        Verb::Open(OpenMode::Output) => put_byte(out, OPEN_OUTPUT),
        Verb::Open(OpenMode::InputOutput) => put_byte(out, OPEN_INPUT_OUTPUT),
        Verb::Open(OpenMode::Extend) => put_byte(out, OPEN_EXTEND),
        Verb::Close => put_byte(out, CLOSE),
        Verb::ReadNext => put_byte(out, READ_NEXT),
        Verb::Write => put_byte(out, WRITE),
        Verb::Rewrite => put_byte(out, REWRITE),
        Verb::Delete => put_byte(out, DELETE),
        Verb::Read(key) => put_read(out, key),
        Verb::Start(relation, key, count) => put_start(out, relation, key, count),
    }
}

/// The verb in front, and the bytes after it. 71 where the bytes end too soon, 72 at a byte that has no meaning.
#[tactic(auto, unfolding(crate::specs::Spelling::verb_at))]
pub fn read_verb(bytes: &[u8]) -> Result<(Verb, &[u8]), ImageError>
    ensures { Gives (λ x. (x.0, x.1.now)) fault_of result (verb_at bytes.now) }
{
    let (byte, rest) = read_byte(bytes)?;
    match byte {
        READ => read_read(rest),
        START => read_start(rest),
        _ => Ok((found(plain_verb_of(byte))?, rest)),
    }
}

fn relation_byte(relation: Relation) -> u8
    ensures { result ≡ spec.relation_byte relation }
{
    match relation {
        Relation::Equal => EQUAL,
        Relation::Greater => GREATER,
        Relation::NotLess => NOT_LESS,
    }
}

#[tactic(auto, unfolding(crate::specs::Spelling::relation_of))]
fn relation_of(byte: u8) -> Option<Relation>
    ensures { result ≡ spec.relation_of byte }
{
    match byte {
        EQUAL => Some(Relation::Equal),
        GREATER => Some(Relation::Greater),
        NOT_LESS => Some(Relation::NotLess),
        _ => None,
    }
}

fn put_read(out: &mut Vec<u8>, key: KeyOfReference) -> Result<(), AllocError>
    ensures bytes { OnOk result (out.new.items ≡ out.old.items ++ (10 ∷ key_bytes key)) }
    ensures fits { IsKeySpelled key }
{
    put_byte(out, READ)?;
    put_key(out, key)
}

fn put_start(
    out: &mut Vec<u8>,
    relation: Relation,
    key: KeyOfReference,
    count: u8,
) -> Result<(), AllocError>
    ensures bytes { OnOk result (out.new.items ≡ out.old.items
        ++ (11 ∷ (spec.relation_byte relation ∷ [] ++ key_bytes key ++ count ∷ []))) }
    ensures fits { IsKeySpelled key × IsByte count }
{
    put_byte(out, START)?;
    put_byte(out, relation_byte(relation))?;
    put_key(out, key)?;
    put_byte(out, count)
}

#[tactic(auto, unfolding(crate::specs::Spelling::plain_verb_of))]
fn plain_verb_of(byte: u8) -> Option<Verb>
    ensures { result ≡ spec.plain_verb_of byte }
{
    match byte {
        OPEN_INPUT => Some(Verb::Open(OpenMode::Input)),
        OPEN_OUTPUT => Some(Verb::Open(OpenMode::Output)),
        OPEN_INPUT_OUTPUT => Some(Verb::Open(OpenMode::InputOutput)),
        OPEN_EXTEND => Some(Verb::Open(OpenMode::Extend)),
        CLOSE => Some(Verb::Close),
        READ_NEXT => Some(Verb::ReadNext),
        WRITE => Some(Verb::Write),
        REWRITE => Some(Verb::Rewrite),
        DELETE => Some(Verb::Delete),
        _ => None,
    }
}

fn read_read(bytes: &[u8]) -> Result<(Verb, &[u8]), ImageError>
    ensures { Gives (λ x. (x.0, x.1.now)) fault_of result (read_at bytes.now) }
{
    let (key, rest) = read_key(bytes)?;
    Ok((Verb::Read(key), rest))
}

/// The relation in front, and the bytes after it.
#[tactic(auto, unfolding(data_image::specs::Reading::told_at))]
fn read_relation(bytes: &[u8]) -> Result<(Relation, &[u8]), ImageError>
    ensures { Gives (λ x. (x.0, x.1.now)) fault_of result (told_at spec.relation_of bytes.now) }
{
    let (byte, rest) = read_byte(bytes)?;
    Ok((found(relation_of(byte))?, rest))
}

fn read_start(bytes: &[u8]) -> Result<(Verb, &[u8]), ImageError>
    ensures { Gives (λ x. (x.0, x.1.now)) fault_of result (start_at bytes.now) }
{
    let (relation, rest) = read_relation(bytes)?;
    let (key, rest) = read_key(rest)?;
    let (count, rest) = read_byte(rest)?;
    Ok((Verb::Start(relation, key, count), rest))
}
