//! The classes of symbols in which the forms of pictures are told.

ghost use Rattle.std.specs.Prelude.{◌≡◌};
ghost use Rattle.picture.specs.Symbols as spec;

use crate::symbol::{Suppression, Symbol};

/// A class of symbols.
#[derive(Clone, Copy)]
pub enum Class {
    /// `A`.
    Letters,
    /// `A` and `X`.
    LettersAndCharacters,
    /// `X` and `9`.
    CharactersAndNines,
    /// `A`, `X` and `9`.
    Alphanumeric,
    /// `B`, `0` and `/`.
    SimpleInsertions,
    /// `A`, `X`, `9`, `B`, `0` and `/`.
    AlphanumericEdited,
    /// `S`.
    OperationalSign,
    /// `V`.
    AssumedPoint,
    /// `S`, `9` and `V`.
    Numeric,
    /// `9`, `B`, `0`, `/` and the comma.
    NinesAndInsertions,
    /// The symbol that suppresses zeros.
    Suppressed(Suppression),
    /// That symbol, `B`, `0`, `/` and the comma.
    SuppressedAndInsertions(Suppression),
    /// `9` and the symbol that suppresses zeros.
    Digits(Suppression),
    /// `+` and `-`, where no sign floats.
    LeadingSign(Suppression),
    /// The currency sign, where it doesn't float.
    FixedCurrency(Suppression),
    /// `+`, `-`, `CR` and `DB`, where no sign floats.
    TrailingSign(Suppression),
    /// The point and `V`.
    Points,
    /// `9`, the point and `V`.
    NinesAndPoints,
    /// The point and the comma.
    NeverLast,
    /// `S`, `+`, `-`, `CR` and `DB`.
    Signs,
}

impl Class {
    #[tactic(auto, unfolding(crate::specs::Symbols::class_has))]
    pub fn has(self, symbol: Symbol) -> bool
        ensures { result ≡ spec.class_has self symbol }
    {
        match self {
            Class::Letters => matches!(symbol, Symbol::A),
            Class::LettersAndCharacters => matches!(symbol, Symbol::A | Symbol::X),
            Class::CharactersAndNines => matches!(symbol, Symbol::X | Symbol::Nine),
            Class::Alphanumeric => symbol.is_alphanumeric(),
            Class::SimpleInsertions => symbol.is_simple_insertion(),
            Class::AlphanumericEdited => symbol.is_alphanumeric() || symbol.is_simple_insertion(),
            Class::OperationalSign => matches!(symbol, Symbol::S),
            Class::AssumedPoint => matches!(symbol, Symbol::V),
            Class::Numeric => matches!(symbol, Symbol::S | Symbol::Nine | Symbol::V),
            Class::NinesAndInsertions => symbol.is_insertion() || matches!(symbol, Symbol::Nine),
            Class::Suppressed(by) => by.is_by(symbol),
            Class::SuppressedAndInsertions(by) => by.is_by(symbol) || symbol.is_insertion(),
            Class::Digits(by) => matches!(symbol, Symbol::Nine) || by.is_by(symbol),
            Class::LeadingSign(by) => {
                matches!(symbol, Symbol::Plus | Symbol::Minus) && !by.is_floating_sign()
            }
            Class::FixedCurrency(by) => matches!(symbol, Symbol::Currency) && !by.is_by(symbol),
            Class::TrailingSign(by) => symbol.is_end_sign() && !by.is_floating_sign(),
            Class::Points => symbol.is_point(),
            Class::NinesAndPoints => matches!(symbol, Symbol::Nine) || symbol.is_point(),
            Class::NeverLast => matches!(symbol, Symbol::Point | Symbol::Comma),
            Class::Signs => matches!(symbol, Symbol::S) || symbol.is_end_sign(),
        }
    }
}
