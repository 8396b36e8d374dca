//! The reference format as a relation.

ghost use Rattle.std.specs.Prelude.{◌≡◌, ℕ, List, Ok, Err};
ghost use Rattle.source_lines.specs.Format.{HasCharacters};
ghost use Rattle.source_lines.specs.Reading as reading;
ghost use Rattle.source_lines.specs.Reading.{characters_of};
ghost use Rattle.source_lines.specs.Unclosed.{HasUnclosed, HasUnclosedFault};
ghost use Rattle.source_lines.specs.declared.fault.FaultKind.TheVariants.{UnclosedLiteral};
ghost use Rattle.source_lines.specs.declared.fault.SourceFault.{SourceFault};
ghost use Rattle.source_lines.specs.declared.lines.Character.{Character};
ghost use Rattle.source_lines.specs.declared.literal.OpenLiteral.{OpenLiteral};

/// What `logical` answers are the characters that the reference format gives a source text, and it gives no others. That a literal
/// isn't closed is reported exactly of the texts in which one stays open, at its opening mark.
pub fn reference_format()
    ensures answered { (source : List ℕ) (given : List Character) → characters_of source ≡ Ok given
        → HasCharacters source given }
    ensures only { (source : List ℕ) (given : List Character) → HasCharacters source given
        → characters_of source ≡ Ok given }
    ensures unique { (source : List ℕ) (one two : List Character) → HasCharacters source one
        → HasCharacters source two → one ≡ two }
    ensures unclosed { (source : List ℕ) (literal : OpenLiteral) → HasUnclosed source literal
        → characters_of source ≡ Err (reading.unclosed_fault literal) }
    ensures unclosed_only { (source : List ℕ) (fault : SourceFault)
        → characters_of source ≡ Err fault → fault.kind ≡ UnclosedLiteral
        → HasUnclosedFault source fault }
{}
