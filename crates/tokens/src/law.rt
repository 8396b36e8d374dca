//! The laws of the definitions.

ghost use Rattle.std.specs.Prelude.{◌≡◌, ◌∷◌, ◌++◌, List, length, Option, Ok, Err};
ghost use Rattle.source_lines.specs.declared.lines.Character.{Character};
ghost use Rattle.tokens.specs.declared.context.Context.{Context};
ghost use Rattle.tokens.specs.declared.token.Kind.{Kind};
ghost use Rattle.tokens.specs.declared.fault.TokenFault.{TokenFault};
ghost use Rattle.tokens.specs.declared.token.Token.{Token};
ghost use Rattle.tokens.specs.Kinds.{IsFront};
ghost use Rattle.tokens.specs.Refusals.{RefusesCharacters};
ghost use Rattle.tokens.specs.Scanning as spec;
ghost use Rattle.tokens.specs.Scanning.{ScansTo};
ghost use Rattle.tokens.specs.Tokens.{TokensOf, NoLonger, InOrder, ArePlacedBy};
ghost use Rattle.tokens.specs.Spelled.{AreSpelledBy, AreSeparated};

/// Characters have at most one list of tokens, the one that `scan` answers, and else one fault.
pub fn laws()
    // What the function answers is in the relation.
    ensures answered { (characters : List Character) (found : List Token)
        → spec.tokens characters ≡ Ok found → TokensOf characters found }
    // What is in the relation is what the function answers.
    ensures only { (characters : List Character) (found : List Token) → TokensOf characters found
        → spec.tokens characters ≡ Ok found }
    // The fault that the function answers stands where no token and no separator begins, the first such place.
    ensures refused { (characters : List Character) (fault : TokenFault)
        → spec.tokens characters ≡ Err fault → RefusesCharacters characters fault }
    // Where there is such a place, the function answers that fault.
    ensures refused_only { (characters : List Character) (fault : TokenFault)
        → RefusesCharacters characters fault → spec.tokens characters ≡ Err fault }
{}

/// Each token is the longest that can begin at its place, and its span and place are those of its characters.
pub fn span_laws()
    // A token or separator is the longest that can begin at its place, after what stands before it.
    ensures longest { (before : Context) (kind : Option Kind)
        (c : Character) (text rest : List Character) → IsFront before kind (c ∷ text) rest
        → NoLonger before c (text ++ rest) (c ∷ text) }
    // Spans are in order, not empty and apart.
    ensures spans { (characters : List Character) (found : List Token)
        → ScansTo characters found → InOrder 0 (length characters) found }
    // A token's place is that of its first character.
    ensures places { (characters : List Character) (found : List Token)
        → ScansTo characters found → ArePlacedBy characters found }
    // Each token's kind is what the characters at its span spell.
    ensures texts { (characters : List Character) (found : List Token)
        → ScansTo characters found → AreSpelledBy characters found }
    // What lies before, between and after the spans is separators.
    ensures separators { (characters : List Character) (found : List Token)
        → ScansTo characters found → AreSeparated 0 characters found }
{}
