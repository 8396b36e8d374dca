//! Causes that have a part of their own in the book of causes.

use crate::advice::{Advice, Found};
use crate::view::View;
use explanations::Book;
use std::alloc::Global;

/// A cause of a fault.
#[derive(Clone, Copy)]
pub enum Cause {
    /// A condition without its left side.
    AbbreviatedCondition,
    /// A word that ends or continues a statement that is ended.
    AfterEnd,
    /// A colon where none may be.
    Colon,
    /// A comment that begins in column 8.
    Comment,
    ConditionNeeded,
    /// A line that goes past column 72.
    CutLine,
    CutLiteral,
    /// A word that ends or continues a statement that nothing began.
    EndOfNothing,
    /// An expression where none may be.
    Expression,
    FileNeeded,
    FreeFormat,
    ItemNeeded,
    Misspelt,
    NoIdentification,
    NoProcedureDivision,
    NoProgramId,
    /// A word that ends or continues a statement, where a statement is needed.
    NoStatement,
    /// A PERFORM that isn't ended.
    NotEnded,
    /// A literal that ends with the other quotation mark.
    OtherMark,
    /// A word alone before a period, where a statement may be meant.
    ParagraphOfNothing,
    ParagraphNeeded,
    PeriodAfterName,
    PeriodBeforeLine,
    RecordNeeded,
    /// A reserved word as a name.
    Reserved,
    /// A number with a sign after an operand.
    Sign,
    /// An expression as a subscript.
    Subscript,
    TypographicMark,
    VerbNeeded,
}

impl Cause {
    /// The advice for the cause, about a word or a sign; nothing is named if it is empty.
    pub fn about(self, alloc: Global, word: &[u8]) -> Found {
        Advice::under(alloc, Book::Causes, self.head(), word)
    }

    /// The advice for the cause, about the token at the place as it is written.
    pub fn about_place(self, alloc: Global, view: View<'_>) -> Found {
        if !self.names_place() {
            return self.about(alloc, b"");
        }
        let here = view.written(alloc, Some(view.at))?;
        self.about(alloc, here.as_slice())
    }

    /// Whether the token at the place says more than the cause alone.
    fn names_place(self) -> bool {
        !matches!(
            self,
            Cause::AbbreviatedCondition | Cause::Colon | Cause::Comment | Cause::Subscript
        )
    }

    /// The head of its part.
    fn head(self) -> &'static [u8] {
        match self {
            Cause::AbbreviatedCondition => b"abbreviated condition",
            Cause::AfterEnd => b"after the end",
            Cause::Colon => b"colon",
            Cause::Comment => b"comment",
            Cause::ConditionNeeded => b"condition needed",
            Cause::CutLine => b"column 72",
            Cause::CutLiteral => b"column 72 in a literal",
            Cause::EndOfNothing => b"end of nothing",
            Cause::Expression => b"expression",
            Cause::FileNeeded => b"file needed",
            Cause::FreeFormat => b"free format",
            Cause::ItemNeeded => b"item needed",
            Cause::Misspelt => b"misspelt",
            Cause::NoIdentification => b"no identification",
            Cause::NoProcedureDivision => b"no procedure division",
            Cause::NoProgramId => b"no program id",
            Cause::NoStatement => b"no statement",
            Cause::NotEnded => b"not ended",
            Cause::OtherMark => b"other mark",
            Cause::ParagraphOfNothing => b"paragraph of nothing",
            Cause::ParagraphNeeded => b"paragraph needed",
            Cause::PeriodAfterName => b"period after a name",
            Cause::PeriodBeforeLine => b"period before a line",
            Cause::RecordNeeded => b"record needed",
            Cause::Reserved => b"reserved",
            Cause::Sign => b"sign",
            Cause::Subscript => b"subscript",
            Cause::TypographicMark => b"typographic mark",
            Cause::VerbNeeded => b"verb needed",
        }
    }
}
