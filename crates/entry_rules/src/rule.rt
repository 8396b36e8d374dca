//! Rules, and why a program is refused.

ghost use Rattle.std.specs.Prelude.{◌≡◌};
ghost use Rattle.source_tree.specs.Broken.{where_so};
ghost use Rattle.entry_rules.specs.Checks.{IsFirstBreach, number_of};

use source_tree::Place;
use std::alloc::{AllocError, AllocFailed};
use thiserror::Error;

/// A rule that entries, files, statements or procedures can break.
#[derive(Clone, Copy, Debug, PartialEq, Eq)]
pub enum Rule {
    /// The form of a numeric literal, or of an integer.
    NumericLiteral,
    /// The form of a nonnumeric literal.
    NonnumericLiteral,
    /// A name that names nothing, or a thing of another kind.
    UnknownName,
    /// A name that names several things.
    AmbiguousName,
    /// A name that is given to two procedures, or to two files.
    GivenTwice,
    /// Level numbers and their order.
    LevelOrder,
    /// OCCURS, JUSTIFIED, BLANK WHEN ZERO, SIGN and USAGE.
    Clause,
    /// A picture is missing, has no form, or stands on a group.
    Picture,
    Redefinition,
    /// A VALUE that its item can't hold as it is.
    Value,
    /// An item or storage is too large.
    Size,
    /// A MOVE that isn't permitted.
    Move,
    /// The number of subscripts.
    Subscripts,
    /// An operand isn't numeric where it must be, or has decimals in a subscript.
    Number,
    /// Two sides that can't be compared.
    Comparison,
    /// Objects of a WHEN that don't match the subjects, by their number or by what they are.
    Object,
    /// A PERFORM that leads back to the paragraph that it stands in.
    Recursion,
    /// A range of values or of procedures that is backwards.
    Range,
    /// A procedure division without any paragraph or sentence.
    NoProcedure,
    /// A SELECT without FD, or an FD without SELECT.
    UnmatchedFile,
    /// A key of a file, or a clause that its organization doesn't have.
    FileKey,
    /// FILE STATUS.
    FileStatus,
    /// RELATIVE KEY is missing, or is no unsigned integer outside of the record.
    RelativeKey,
    /// A file statement that organization or access doesn't permit.
    FileStatement,
    /// Phrases, KEY and NEXT of a file statement.
    FilePhrase,
    /// KEY of START.
    StartKey,
    /// An operand of INSPECT that is of another kind, or a replacing text of another size.
    InspectOperand,
    /// An operand of STRING that is of another kind.
    StringOperand,
    /// A name that no file on the volume can have.
    AssignedName,
    /// ALL with a literal in DISPLAY or STRING.
    AllLiteral,
    /// SET of an item, in place of a condition name.
    NoCondition,
    /// A limit of this compiler.
    Limit,
    /// A part of an item that has none, or where no part may be.
    Part,
}

impl Rule {
    /// The number that the product prints.
    pub fn number(self) -> u8
        ensures { result ≡ number_of self }
    {
        match self {
            Rule::NumericLiteral => 17,
            Rule::NonnumericLiteral => 18,
            Rule::UnknownName => 40,
            Rule::AmbiguousName => 41,
            Rule::GivenTwice => 42,
            Rule::LevelOrder => 43,
            Rule::Clause => 44,
            Rule::Picture => 45,
            Rule::Redefinition => 46,
            Rule::Value => 47,
            Rule::Size => 48,
            Rule::Move => 49,
            Rule::Subscripts => 50,
            Rule::Number => 51,
            Rule::Comparison => 52,
            Rule::Object => 53,
            Rule::Recursion => 54,
            Rule::Range => 55,
            Rule::NoProcedure => 56,
            Rule::UnmatchedFile => 57,
            Rule::FileKey => 58,
            Rule::FileStatus => 59,
            Rule::RelativeKey => 60,
            Rule::FileStatement => 61,
            Rule::FilePhrase => 62,
            Rule::StartKey => 63,
            Rule::InspectOperand => 64,
            Rule::StringOperand => 65,
            Rule::AssignedName => 66,
            Rule::AllLiteral => 67,
            Rule::NoCondition => 68,
            Rule::Limit => 69,
            Rule::Part => 75,
        }
    }

    /// The rule is broken at a place, if the test says so.
    pub fn broken_if(self, test: bool, place: Place) -> Result<(), BrokenRule>
        ensures { IsFirstBreach result (where_so test (number_of self) place) }
    {
        if test {
            Err(BrokenRule { rule: self, place })
        } else {
            Ok(())
        }
    }
}

/// A rule that is broken, and where.
#[derive(Clone, Copy, Debug, PartialEq, Eq)]
pub struct BrokenRule {
    pub rule: Rule,
    pub place: Place,
}

/// Why entries, files or statements are refused.
#[derive(Clone, Copy, Debug, PartialEq, Eq, Error)]
pub enum CheckError {
    #[error("out of memory")]
    Memory,
    #[error("a rule is broken")]
    Refused(BrokenRule),
}

impl From<BrokenRule> for CheckError {
    ghost use Rattle.std.specs.Prelude.{◌≡◌};
    ghost use Rattle.entry_rules.specs.declared.rule.CheckError.TheVariants.{Refused};

    ghost from_gives = { λ broken e. e ≡ Refused broken };

    fn from(broken: BrokenRule) -> CheckError {
        CheckError::Refused(broken)
    }
}

impl From<AllocError> for CheckError {
    ghost use Rattle.std.specs.Prelude.{◌≡◌};
    ghost use Rattle.entry_rules.specs.declared.rule.CheckError.TheVariants.{Memory};

    ghost from_gives = { λ _ e. e ≡ Memory };

    fn from(_: AllocError) -> CheckError {
        CheckError::Memory
    }
}

impl<T: Drop> From<AllocFailed<T>> for CheckError {
    ghost use Rattle.std.specs.Prelude.{◌≡◌};
    ghost use Rattle.entry_rules.specs.declared.rule.CheckError.TheVariants.{Memory};

    ghost from_gives = { λ _ e. e ≡ Memory };

    fn from(_: AllocFailed<T>) -> CheckError {
        CheckError::Memory
    }
}
