//! Words that are spelled almost alike.

ghost use Rattle.std.specs.Prelude.{◌≤◌};

use explanations::reserved_words;
use std::alloc::{AllocError, Global};
use std::str::from_utf8;
use strsim::osa_distance;

/// The greatest length of a word in which one wrong letter is enough to call it another word.
const SHORT: usize = 5;

/// Whether a list of words, separated by spaces, has this word.
pub fn has_word(list: &[u8], word: &[u8]) -> bool {
    for one in words_of(list) {
        if one.as_bytes() == word {
            return true;
        }
    }
    false
}

/// The reserved word that is spelled almost as this word is.
pub fn reserved_like(alloc: Global, word: &[u8]) -> Result<Option<&'static [u8]>, AllocError> {
    let mut nearest = None;
    let mut least = most_edits(word) + 1;
    for one in words_of(reserved_words()) {
        let edits = edits(alloc, one.as_bytes(), word)?;
        if edits < least {
            nearest = Some(one.as_bytes());
            least = edits;
        }
    }
    Ok(nearest)
}

/// Whether two words are spelled almost alike, and not the same.
pub fn is_alike(alloc: Global, one: &[u8], other: &[u8]) -> Result<bool, AllocError> {
    let edits = edits(alloc, one, other)?;
    Ok(edits > 0 && edits <= most_edits(other))
}

/// The words of a list.
pub fn words_of(list: &[u8]) -> std::str::SplitAsciiWhitespace<'_> {
    from_utf8(list).unwrap_or("").split_ascii_whitespace()
}

/// How many letters may be wrong in a word that is misspelt: one in five.
fn most_edits(word: &[u8]) -> usize
    ensures { result ≤ 2 }
{
    if word.len() < 3 {
        0
    } else if word.len() <= SHORT {
        1
    } else {
        2
    }
}

/// How many letters are added, left out, changed or exchanged with the next.
fn edits(alloc: Global, one: &[u8], other: &[u8]) -> Result<usize, AllocError> {
    match (from_utf8(one), from_utf8(other)) {
        (Ok(one), Ok(other)) => osa_distance(alloc, one, other),
        _ => Ok(usize::MAX),
    }
}
