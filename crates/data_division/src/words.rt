//! The words that begin clauses, and those that stand for a usage or a position of the sign.

ghost use Rattle.std.specs.Prelude.{◌≡◌};
ghost use Rattle.data_division.specs.Words as spec;

use crate::clause::ClauseKind;
use grammar::Tokens;
use source_tree::{SignPosition, UsageClause};
use tokens::{Kind, Reserved};

/// The usage that a word stands for.
pub fn usage_of(word: Reserved) -> Option<UsageClause>
    ensures { result ≡ spec.usage_of word }
{
    match word {
        Reserved::Display => Some(UsageClause::Display),
        Reserved::Comp | Reserved::Computational | Reserved::Binary => Some(UsageClause::Binary),
        Reserved::PackedDecimal | Reserved::Comp3 | Reserved::Computational3 => {
            Some(UsageClause::PackedDecimal)
        }
        _ => None,
    }
}

/// The position of the sign that a word stands for.
pub fn position_of(word: Reserved) -> Option<SignPosition>
    ensures { result ≡ spec.position_of word }
{
    match word {
        Reserved::Leading => Some(SignPosition::Leading),
        Reserved::Trailing => Some(SignPosition::Trailing),
        _ => None,
    }
}

/// The clause that a word begins.
pub fn clause_of(word: Reserved) -> Option<ClauseKind>
    ensures { result ≡ spec.clause_of word }
{
    match word {
        Reserved::Redefines => Some(ClauseKind::Redefines),
        Reserved::Pic | Reserved::Picture => Some(ClauseKind::Picture),
        Reserved::Usage
        | Reserved::Display
        | Reserved::Comp
        | Reserved::Computational
        | Reserved::Binary
        | Reserved::PackedDecimal
        | Reserved::Comp3
        | Reserved::Computational3 => Some(ClauseKind::Usage),
        Reserved::Sign | Reserved::Leading | Reserved::Trailing => Some(ClauseKind::Sign),
        Reserved::Occurs => Some(ClauseKind::Occurs),
        Reserved::Sync | Reserved::Synchronized => Some(ClauseKind::Synchronized),
        Reserved::Just | Reserved::Justified => Some(ClauseKind::Justified),
        Reserved::Blank => Some(ClauseKind::BlankWhenZero),
        Reserved::Value => Some(ClauseKind::Value),
        _ => None,
    }
}

/// The clause that begins with the next token.
pub fn clause_at(tokens: &Tokens<'_>) -> Option<ClauseKind>
    ensures { result ≡ spec.clause_at tokens.now }
{
    match tokens.rest() {
        [next, ..] => match next.kind {
            Kind::Reserved(word) => clause_of(word),
            _ => None,
        },
        [] => None,
    }
}
