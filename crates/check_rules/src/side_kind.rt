//! What a side of a relation is beside another (COBOL-85, Nucleus, "Relation condition").

ghost use Rattle.std.specs.Prelude.{◌≡◌};
ghost use Rattle.source_tree.specs.ConditionRules as tree;
ghost use Rattle.check_rules.specs.Comparing as spec;

use items::{Kind, Numeric, Usage};
use source_tree::{Figurative, LiteralValue};

/// What a side is beside another.
#[derive(Clone, Copy)]
pub enum SideKind {
    /// A number that counts as its digits: an integer in DISPLAY usage, or without decimals as a literal.
    Digits,
    /// Another number.
    Number,
    Characters,
    /// ZERO, and what another rule refuses.
    Either,
}

fn counts_as_digits(numeric: Numeric) -> bool
    ensures { result ≡ spec.counts_as_digits numeric }
{
    matches!(numeric.usage, Usage::Display(_)) && numeric.scale == 0
}

impl SideKind {
    fn number(counts_as_digits: bool) -> SideKind
        ensures { spec.side_kind_of result ≡ tree.Number counts_as_digits }
    {
        if counts_as_digits {
            SideKind::Digits
        } else {
            SideKind::Number
        }
    }

    /// An item of that kind.
    pub fn of_kind(kind: Kind) -> SideKind
        ensures { spec.side_kind_of result ≡ tree.compared_kind kind }
    {
        match kind {
            Kind::Numeric(numeric) => SideKind::number(counts_as_digits(numeric)),
            _ => SideKind::Characters,
        }
    }

    /// A literal.
    pub fn of_literal(value: &LiteralValue) -> SideKind
        ensures { spec.side_kind_of result ≡ tree.compared_literal value.now }
    {
        match value {
            LiteralValue::Numeric(one) => SideKind::number(one.decimals.as_slice().is_empty()),
            LiteralValue::Figurative(Figurative::Zero) => SideKind::Either,
            _ => SideKind::Characters,
        }
    }

    /// The two can be compared: a number beside characters counts as its digits.
    pub fn may_compare(self, other: SideKind) -> bool
        ensures { result ≡ tree.may_compare (spec.side_kind_of self) (spec.side_kind_of other) }
    {
        !matches!(
            (self, other),
            (SideKind::Number, SideKind::Characters) | (SideKind::Characters, SideKind::Number)
        )
    }
}
