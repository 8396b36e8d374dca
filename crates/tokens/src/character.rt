//! Classes of characters, and runs of them.

ghost use Rattle.std.specs.Prelude.{◌≡◌, ◌≤◌, length};
ghost use Rattle.answers.specs.Answer.{Gives};
ghost use Rattle.tokens.specs.Characters as spec;
ghost use Rattle.tokens.specs.Faults.{fault_of};

use crate::fault::TokenError;
use source_lines::Character;
use sqlite_items::Items;
use std::alloc::Global;

#[derive(Clone, Copy)]
pub enum Class {
    Digit,
    Letter,
    LetterOrDigit,
    Hyphen,
    /// A letter, a digit or a hyphen.
    InWord,
    /// Anything but a space.
    Nonblank,
    /// A space, a comma or a semicolon.
    Separator,
    /// A period, a comma or a semicolon.
    Ending,
    /// A quotation mark or an apostrophe.
    Mark,
}

pub fn is_in(class: Class, byte: u8) -> bool
    ensures { result ≡ spec.is_in class byte }
{
    match class {
        Class::Digit => byte.is_ascii_digit(),
        Class::Letter => byte.is_ascii_alphabetic(),
        Class::LetterOrDigit => byte.is_ascii_alphanumeric(),
        Class::Hyphen => byte == b'-',
        Class::InWord => byte.is_ascii_alphanumeric() || byte == b'-',
        Class::Nonblank => byte != b' ',
        Class::Separator => byte == b' ' || byte == b',' || byte == b';',
        Class::Ending => byte == b'.' || byte == b',' || byte == b';',
        Class::Mark => byte == b'"' || byte == b'\'',
    }
}

/// How many characters of the class stand at the front.
pub fn run(class: Class, characters: &[Character]) -> usize
    ensures value { result ≡ spec.run_size class characters.now }
    ensures within { result ≤ length characters.now }
{
    let mut size = 0;
    while size < characters.len() && is_in(class, characters[size].byte) {
        size += 1;
    }
    size
}

pub fn begins(class: Class, characters: &[Character]) -> bool
    ensures { result ≡ spec.begins_with_class class characters.now }
{
    match characters {
        [first, ..] => is_in(class, first.byte),
        [] => false,
    }
}

pub fn ends(class: Class, characters: &[Character]) -> bool
    ensures { result ≡ spec.ends_with_class class characters.now }
{
    match characters.last() {
        Some(last) => is_in(class, last.byte),
        None => false,
    }
}

pub fn has(class: Class, mut characters: &[Character]) -> bool
    ensures { result ≡ spec.has_class class characters.entry.now }
{
    while let [first, more @ ..] = characters {
        if is_in(class, first.byte) {
            return true;
        }
        characters = more;
    }
    false
}

pub fn bytes(alloc: Global, characters: &[Character]) -> Result<Vec<u8>, TokenError>
    ensures { Gives (λ text. text.items) fault_of result (Ok (spec.bytes characters.now)) }
{
    Ok(characters.iter().map(|c| c.byte).collect(alloc)?)
}

pub fn bytes_in_upper_case(alloc: Global, characters: &[Character]) -> Result<Vec<u8>, TokenError>
    ensures { Gives (λ text. text.items) fault_of result
        (Ok (spec.bytes_in_upper_case characters.now)) }
{
    Ok(
        characters
            .iter()
            .map(|c| c.byte.to_ascii_uppercase())
            .collect(alloc)?,
    )
}
