//! Instructions that set the truth, in an image.

ghost use Rattle.std.specs.Prelude.{◌≡◌, ◌++◌, ◌∷◌, [], OnOk};
ghost use Rattle.answers.specs.Answer.{Gives};
ghost use Rattle.data_image.specs.Faults.{fault_of};
ghost use Rattle.data_image.specs.Spelling.{short_bytes, FitsFourBytes};
ghost use Rattle.data_image.specs.Reading.{told_at};
ghost use Rattle.data_image.specs.Tests as spec;
ghost use Rattle.data_image.specs.Tests.{test_bytes, HasEntry};

use crate::byte::{found, put_byte, read_byte};
use crate::fault::ImageError;
use crate::number::{put_naming, put_short};
use data_instructions::Test;
use source_tree::{Class, Relation};
use std::alloc::AllocError;

// The first byte of each test in an image.
pub const COMPARE: u8 = 40;

pub const COMPARE_LITERAL: u8 = 41;

pub const COMPARE_NUMBERS: u8 = 42;

pub const CLASS: u8 = 43;

pub const OR_EQUAL: u8 = 44;

pub const OR_WITHIN: u8 = 45;

pub const INVERT: u8 = 46;

// The byte of each relation.
const LESS: u8 = 1;

const LESS_OR_EQUAL: u8 = 2;

const EQUAL: u8 = 3;

const NOT_EQUAL: u8 = 4;

const GREATER_OR_EQUAL: u8 = 5;

const GREATER: u8 = 6;

// The byte of each class.
const NUMERIC: u8 = 1;

const ALPHABETIC: u8 = 2;

const LOWER: u8 = 3;

const UPPER: u8 = 4;

/// Puts a test.
pub fn put_test(out: &mut Vec<u8>, test: Test) -> Result<(), AllocError>
    ensures bytes { OnOk result (out.new.items ≡ out.old.items ++ test_bytes test) }
    ensures fits { HasEntry test }
{
    match test {
        Test::Compare { relation } => put_telling(out, COMPARE, relation_byte(relation)),
        Test::CompareLiteral { relation, literal } => {
            put_compare_literal(out, literal.number, relation_byte(relation))
        }
        Test::CompareNumbers { relation } => {
            put_telling(out, COMPARE_NUMBERS, relation_byte(relation))
        }
        Test::Class { class } => put_telling(out, CLASS, class_byte(class)),
        Test::OrEqual { literal } => put_naming(out, OR_EQUAL, literal.number),
        Test::OrWithin { first } => put_naming(out, OR_WITHIN, first.number),
        Test::Invert => put_byte(out, INVERT),
    }
}

/// The relation in front, and the bytes after it.
#[tactic(auto, unfolding(crate::specs::Reading::told_at))]
pub fn read_relation(bytes: &[u8]) -> Result<(Relation, &[u8]), ImageError>
    ensures { Gives (λ x. (x.0, x.1.now)) fault_of result (told_at spec.relation_of bytes.now) }
{
    let (byte, rest) = read_byte(bytes)?;
    Ok((found(relation_of(byte))?, rest))
}

/// The class in front, and the bytes after it.
#[tactic(auto, unfolding(crate::specs::Reading::told_at))]
pub fn read_class(bytes: &[u8]) -> Result<(Class, &[u8]), ImageError>
    ensures { Gives (λ x. (x.0, x.1.now)) fault_of result (told_at spec.class_of bytes.now) }
{
    let (byte, rest) = read_byte(bytes)?;
    Ok((found(class_of(byte))?, rest))
}

fn relation_byte(relation: Relation) -> u8
    ensures { result ≡ spec.relation_byte relation }
{
    match relation {
        Relation::Less => LESS,
        Relation::LessOrEqual => LESS_OR_EQUAL,
        Relation::Equal => EQUAL,
        Relation::NotEqual => NOT_EQUAL,
        Relation::GreaterOrEqual => GREATER_OR_EQUAL,
        Relation::Greater => GREATER,
    }
}

fn class_byte(class: Class) -> u8
    ensures { result ≡ spec.class_byte class }
{
    match class {
        Class::Numeric => NUMERIC,
        Class::Alphabetic => ALPHABETIC,
        Class::AlphabeticLower => LOWER,
        Class::AlphabeticUpper => UPPER,
    }
}

fn put_telling(out: &mut Vec<u8>, first: u8, byte: u8) -> Result<(), AllocError>
    ensures { OnOk result (out.new.items ≡ out.old.items ++ (first ∷ byte ∷ [])) }
{
    put_byte(out, first)?;
    put_byte(out, byte)
}

fn put_compare_literal(out: &mut Vec<u8>, number: u32, relation: u8) -> Result<(), AllocError>
    ensures bytes { OnOk result
        (out.new.items ≡ out.old.items ++ (41 ∷ (short_bytes number ++ relation ∷ []))) }
    ensures fits { FitsFourBytes number }
{
    put_byte(out, COMPARE_LITERAL)?;
    put_short(out, number)?;
    put_byte(out, relation)
}

#[tactic(auto, unfolding(crate::specs::Tests::relation_of))]
fn relation_of(byte: u8) -> Option<Relation>
    ensures { result ≡ spec.relation_of byte }
{
    match byte {
        LESS => Some(Relation::Less),
        LESS_OR_EQUAL => Some(Relation::LessOrEqual),
        EQUAL => Some(Relation::Equal),
        NOT_EQUAL => Some(Relation::NotEqual),
        GREATER_OR_EQUAL => Some(Relation::GreaterOrEqual),
        GREATER => Some(Relation::Greater),
        _ => None,
    }
}

#[tactic(auto, unfolding(crate::specs::Tests::class_of))]
fn class_of(byte: u8) -> Option<Class>
    ensures { result ≡ spec.class_of byte }
{
    match byte {
        NUMERIC => Some(Class::Numeric),
        ALPHABETIC => Some(Class::Alphabetic),
        LOWER => Some(Class::AlphabeticLower),
        UPPER => Some(Class::AlphabeticUpper),
        _ => None,
    }
}
