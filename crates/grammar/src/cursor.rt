//! A cursor over tokens.

ghost use Rattle.std.specs.Prelude.{[], ◌≡◌, length};
ghost use Rattle.std.specs.Option.{option_copied};
ghost use Rattle.grammar.specs.Reading as spec;
ghost use Rattle.grammar.specs.Reading.{Reads};

use crate::fault::{Halt, ReadFault};
use crate::words::{after_word, is_word, past_word};
use lexical::Place;
use std::marker::Model;
use tokens::{Kind, Reserved, Token};

/// The tokens that are still to be read.
#[derive(Drop)]
pub struct Tokens<'a> {
    rest: &'a [Token],
}

impl<'a> Model for Tokens<'a> {
    ghost use Rattle.std.specs.Prelude.{List};
    ghost use Rattle.tokens.specs.declared.token.Token.{Token};

    ghost Value = { List Token };

    ghost view = { λ t. t.rest.now };
}

impl<'a> Tokens<'a> {
    pub fn new(tokens: &'a [Token]) -> Tokens<'a>
        ensures { result ≡ tokens.now }
    {
        Tokens { rest: tokens }
    }

    pub fn rest(&self) -> &'a [Token]
        ensures { result.now ≡ self.now }
    {
        self.rest
    }

    /// How many tokens are left.
    pub fn len(&self) -> usize
        ensures { result ≡ length self.now }
    {
        self.rest.len()
    }

    /// Goes on at these tokens.
    pub fn go_to(&mut self, rest: &'a [Token])
        ensures { self.new ≡ rest.now }
    {
        self.rest = rest;
    }

    /// This word comes next.
    pub fn at_word(&self, word: Reserved) -> bool
        ensures { result ≡ spec.begins_word word self.now }
    {
        match self.rest {
            [next, ..] => is_word(next, word),
            [] => false,
        }
    }

    /// No rule reads the next token.
    pub fn refuse(&self) -> ReadFault
        ensures { result ≡ ReadFault.Halted (Halt.Unexpected (length self.now)) }
    {
        ReadFault::Halted(Halt::Unexpected(self.rest.len()))
    }

    /// Passes the next token, whatever it is.
    pub fn advance(&mut self)
        ensures { spec.advance self.old ≡ Ok (tt, self.new) }
    {
        self.rest = match self.rest {
            [] => &[],
            [_, rest @ ..] => rest,
        };
    }

    /// Where the next token stands.
    #[tactic(auto, unfolding(crate::specs::Reading::here))]
    pub fn here(&self) -> Result<Place, ReadFault>
        ensures { Reads (spec.here self.now) result self.now }
    {
        match self.rest {
            [next, ..] => Ok(next.place),
            [] => Err(self.refuse()),
        }
    }

    /// Passes this word, which has to come next.
    #[tactic(auto, unfolding(crate::specs::Reading::expect))]
    pub fn expect(&mut self, word: Reserved) -> Result<(), ReadFault>
        ensures { Reads (spec.expect word self.old) result self.new }
    {
        let Some(rest) = after_word(self.rest, word) else {
            return Err(self.refuse());
        };
        self.rest = rest;
        Ok(())
    }

    /// Passes this word, if it comes next.
    #[tactic(auto, unfolding(crate::specs::Reading::skip))]
    pub fn skip(&mut self, word: Reserved)
        ensures { spec.skip word self.old ≡ Ok (tt, self.new) }
    {
        self.rest = past_word(self.rest, word);
    }

    /// Passes this word, if it comes next, and tells whether it did.
    #[tactic(auto, unfolding(crate::specs::Reading::presence_reader))]
    pub fn take(&mut self, word: Reserved) -> bool
        ensures { spec.presence_reader (spec.after_word word) self.old ≡ Ok (result, self.new) }
    {
        match after_word(self.rest, word) {
            Some(rest) => {
                self.rest = rest;
                true
            }
            None => false,
        }
    }

    /// Passes this verb, which has to come next, and tells where it stands.
    #[tactic(auto, unfolding(crate::specs::Reading::verb))]
    pub fn verb(&mut self, word: Reserved) -> Result<Place, ReadFault>
        ensures { Reads (spec.verb word self.old) result self.new }
    {
        let place = self.here()?;
        self.expect(word)?;
        Ok(place)
    }

    /// Passes the period that has to come next.
    #[tactic(auto, unfolding(crate::specs::Reading::period))]
    pub fn period(&mut self) -> Result<(), ReadFault>
        ensures { Reads (spec.period self.old) result self.new }
    {
        match self.rest {
            [next, rest @ ..] if matches!(next.kind, Kind::Period) => {
                self.rest = rest;
                Ok(())
            }
            _ => Err(self.refuse()),
        }
    }

    /// Passes these words and a period, which have to come next.
    #[tactic(auto, unfolding(crate::specs::Reading::heading_reader))]
    pub fn heading(&mut self, words: &[Reserved]) -> Result<(), ReadFault>
        ensures { Reads (spec.heading_reader words.now self.old) result self.new }
    {
        for word in words {
            self.expect(*word)?;
        }
        self.period()
    }

    /// Whether a phrase is left out. Where it stands, `after` is what follows it, and reading goes on there.
    pub fn is_left_out(&mut self, after: Option<&'a [Token]>) -> bool
        ensures { spec.left_out_at (option_copied after.entry) self.old ≡ Ok (result, self.new) }
    {
        match after {
            None => true,
            Some(after) => {
                self.rest = after;
                false
            }
        }
    }

    /// No token is left.
    #[tactic(auto, unfolding(crate::specs::Reading::end_reader))]
    pub fn expect_end(&self) -> Result<(), ReadFault>
        ensures { Reads (spec.end_reader self.now) result [] }
    {
        if self.rest.is_empty() {
            Ok(())
        } else {
            Err(self.refuse())
        }
    }
}
