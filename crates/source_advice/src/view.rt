//! The tokens of a source text around a place.

use crate::spelling::words_of;
use lexical::Place;
use source_lines::Character;
use std::alloc::{AllocError, Global};
use tokens::{Kind, Reserved, Token};

/// The last column of area A.
const AREA_A: u8 = 11;

/// What begins a word that ends a statement.
const END: &[u8] = b"END-";

/// The tokens of a source text, seen from one of them.
#[derive(Clone, Copy)]
pub struct View<'a> {
    pub tokens: &'a [Token],
    pub characters: &'a [Character],
    /// The number of the token at the place.
    pub at: usize,
    /// The number of the token PROCEDURE that begins the procedures, or of the end.
    procedures: usize,
}

impl<'a> View<'a> {
    /// Seen from the end.
    pub fn at_end(tokens: &'a [Token], characters: &'a [Character]) -> View<'a> {
        let at = tokens.len();
        let mut procedures = tokens.len();
        for (number, token) in tokens.iter().enumerate() {
            if matches!(token.kind, Kind::Reserved(Reserved::Procedure)) {
                procedures = number;
                break;
            }
        }
        View {
            tokens,
            characters,
            at,
            procedures,
        }
    }

    /// Seen from the token at a place, or from the end if none is there.
    pub fn at_place(self, place: Place) -> View<'a> {
        for (at, token) in self.tokens.iter().enumerate() {
            if token.place == place {
                return View { at, ..self };
            }
        }
        self
    }

    /// Seen from a token.
    pub fn from_token(self, at: usize) -> View<'a> {
        View { at, ..self }
    }

    /// Whether a token is in the procedure division.
    pub fn is_in_procedures(&self, number: usize) -> bool {
        self.procedures < number
    }

    /// Whether a token is the last of its line.
    pub fn is_last_of_line(&self, number: usize) -> bool {
        self.line(Some(number)) != self.line(number.checked_add(1))
    }

    /// The number of the token so many before the place.
    pub fn before(&self, distance: usize) -> Option<usize> {
        self.at.checked_sub(distance)
    }

    /// The number of the token so many after the place.
    pub fn after(&self, distance: usize) -> Option<usize> {
        self.at.checked_add(distance)
    }

    pub fn token(&self, number: Option<usize>) -> Option<&'a Token> {
        self.tokens.get(number?)
    }

    fn kind(&self, number: Option<usize>) -> Option<&'a Kind> {
        Some(&self.token(number)?.kind)
    }

    pub fn is_period(&self, number: Option<usize>) -> bool {
        matches!(self.kind(number), Some(Kind::Period))
    }

    /// Whether it is a user-defined word.
    pub fn is_word(&self, number: Option<usize>) -> bool {
        matches!(self.kind(number), Some(Kind::Word(_)))
    }

    pub fn is_reserved(&self, number: Option<usize>) -> bool {
        matches!(self.kind(number), Some(Kind::Reserved(_)))
    }

    pub fn is_numeric(&self, number: Option<usize>) -> bool {
        matches!(self.kind(number), Some(Kind::Numeric(_)))
    }

    pub fn is_literal(&self, number: Option<usize>) -> bool {
        matches!(
            self.kind(number),
            Some(Kind::Numeric(_) | Kind::Nonnumeric(_))
        )
    }

    pub fn is_operator(&self, number: Option<usize>) -> bool {
        matches!(self.kind(number), Some(Kind::Operator(_)))
    }

    /// The line of a token, or 0 where there is none.
    pub fn line(&self, number: Option<usize>) -> u32 {
        match self.token(number) {
            Some(token) => token.place.line,
            None => 0,
        }
    }

    /// Whether a token is the first of its line.
    pub fn is_first_of_line(&self, number: usize) -> bool {
        self.line(Some(number)) != self.line(number.checked_sub(1))
    }

    /// Whether a token begins in area A.
    pub fn is_in_area_a(&self, number: usize) -> bool {
        match self.token(Some(number)) {
            Some(token) => token.place.column <= AREA_A,
            None => false,
        }
    }

    /// Whether a token follows directly after the one before it.
    pub fn is_joined(&self, number: Option<usize>) -> bool {
        let Some(after) = number else {
            return false;
        };
        match (self.token(after.checked_sub(1)), self.token(number)) {
            (Some(one), Some(two)) => one.span.end == two.span.start,
            _ => false,
        }
    }

    /// The characters of a token: none where there is none.
    fn spelling(&self, number: Option<usize>) -> &'a [Character] {
        match self.token(number) {
            Some(token) => self
                .characters
                .get(token.span.start..token.span.end)
                .unwrap_or(&[]),
            None => &[],
        }
    }

    /// Whether a token is this word, in upper case.
    pub fn reads(&self, number: Option<usize>, word: &[u8]) -> bool {
        is_spelled(self.spelling(number), word)
    }

    /// Whether a token is one of these words, in upper case, which are separated by spaces.
    pub fn reads_one_of(&self, number: Option<usize>, words: &[u8]) -> bool {
        for word in words_of(words) {
            if self.reads(number, word.as_bytes()) {
                return true;
            }
        }
        false
    }

    /// Whether a token is END- and this verb, in upper case.
    pub fn reads_end_of(&self, number: Option<usize>, verb: &[u8]) -> bool {
        match self.after_end(number) {
            Some(ended) => is_spelled(ended, verb),
            None => false,
        }
    }

    /// Whether a token begins with END-.
    pub fn begins_with_end(&self, number: Option<usize>) -> bool {
        self.after_end(number).is_some()
    }

    /// What follows END- in a token that begins with it.
    fn after_end(&self, number: Option<usize>) -> Option<&'a [Character]> {
        let spelling = self.spelling(number);
        if is_spelled(spelling.get(..END.len())?, END) {
            return spelling.get(END.len()..);
        }
        None
    }

    /// The text of a token in upper case: none where there is none.
    pub fn text(&self, alloc: Global, number: Option<usize>) -> Result<Vec<u8>, AllocError> {
        let mut text = Vec::new(alloc);
        for character in self.spelling(number) {
            text.push(character.byte.to_ascii_uppercase())?;
        }
        Ok(text)
    }

    /// The text of a token as it is written.
    pub fn written(&self, alloc: Global, number: Option<usize>) -> Result<Vec<u8>, AllocError> {
        let mut text = Vec::new(alloc);
        for character in self.spelling(number) {
            text.push(character.byte)?;
        }
        Ok(text)
    }

    /// The number of the first token after the last period before the place.
    pub fn sentence(&self) -> usize {
        let mut first = 0;
        for (number, token) in self.tokens.iter().enumerate() {
            if number < self.at && matches!(token.kind, Kind::Period) {
                first = number + 1;
            }
        }
        first
    }
}

/// Whether characters are this word, in upper case.
fn is_spelled(characters: &[Character], word: &[u8]) -> bool {
    if characters.len() != word.len() {
        return false;
    }
    for (character, byte) in characters.iter().zip(word.iter()) {
        if character.byte.to_ascii_uppercase() != *byte {
            return false;
        }
    }
    true
}
