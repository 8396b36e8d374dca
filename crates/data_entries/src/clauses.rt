//! What an item is by its clauses (COBOL-85, Nucleus, "Data description entry").

ghost use Rattle.std.specs.Prelude.{◌≡◌};
ghost use Rattle.source_tree.specs.Clauses as spec;

use items::{Kind, Numeric, OperationalSign, Usage};
use picture::{Category, Picture};
use source_tree::{Around, ItemEntry, SignClause, SignPosition, UsageClause};

/// What a group says of the items in it, with what the groups around it say.
pub fn inside(around: Around, group: &ItemEntry) -> Around
    ensures { result ≡ spec.inside around group.now }
{
    Around {
        usage: group.usage.or(around.usage),
        sign: group.sign.or(around.sign),
    }
}

/// The USAGE of an entry: its own clause, that of the nearest group with one, or DISPLAY.
pub fn usage(around: Around, entry: &ItemEntry) -> UsageClause
    ensures { result ≡ spec.usage_of around entry.now }
{
    entry.usage.or(around.usage).unwrap_or(UsageClause::Display)
}

fn sign_clause(around: Around, entry: &ItemEntry) -> SignClause
    ensures { result ≡ spec.sign_of around entry.now }
{
    entry.sign.or(around.sign).unwrap_or(SignClause {
        position: SignPosition::Trailing,
        separate: false,
    })
}

fn operational_sign(signed: bool, clause: SignClause) -> OperationalSign
    ensures { result ≡ spec.operational_sign signed clause }
{
    if !signed {
        return OperationalSign::Unsigned;
    }
    match (clause.position, clause.separate) {
        (SignPosition::Leading, true) => OperationalSign::LeadingSeparate,
        (SignPosition::Leading, false) => OperationalSign::Leading,
        (SignPosition::Trailing, true) => OperationalSign::TrailingSeparate,
        (SignPosition::Trailing, false) => OperationalSign::Trailing,
    }
}

fn numeric_usage(usage: UsageClause, signed: bool, sign: SignClause) -> Usage
    ensures { result ≡ spec.numeric_usage usage signed sign }
{
    match usage {
        UsageClause::Display => Usage::Display(operational_sign(signed, sign)),
        UsageClause::Binary => Usage::Binary { signed },
        UsageClause::PackedDecimal => Usage::Packed { signed },
    }
}

fn numeric(around: Around, entry: &ItemEntry, picture: &Picture) -> Numeric
    ensures { result ≡ spec.numeric_by around entry.now picture.now }
{
    let usage = usage(around, entry);
    let sign = sign_clause(around, entry);
    Numeric {
        digits: picture.digits(),
        scale: picture.scale(),
        usage: numeric_usage(usage, picture.is_signed(), sign),
    }
}

/// The kind of an elementary item with that picture. BLANK WHEN ZERO makes a numeric item numeric edited.
pub fn kind(around: Around, entry: &ItemEntry, picture: &Picture) -> Kind
    ensures { result ≡ spec.kind_of around entry.now picture.now }
{
    let justified = entry.justified;
    let blank_when_zero = entry.blank_when_zero;
    match picture.category() {
        Category::Alphabetic => Kind::Alphabetic { justified },
        Category::Alphanumeric => Kind::Alphanumeric { justified },
        Category::AlphanumericEdited => Kind::AlphanumericEdited,
        Category::NumericEdited => Kind::NumericEdited { blank_when_zero },
        Category::Numeric if blank_when_zero => Kind::NumericEdited { blank_when_zero },
        Category::Numeric => Kind::Numeric(numeric(around, entry, picture)),
    }
}
