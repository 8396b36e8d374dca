//! Entries of the data division (COBOL-85, Nucleus, "Data description entry").

use crate::literal::{Integer, Literal};
use crate::name::Name;
use lexical::Place;
use sqlite_items::Items;

/// The characters of a PICTURE clause, as they were written, in ASCII.
#[derive(Drop)]
pub struct PictureText {
    pub characters: Items<u8>,
    pub place: Place,
}

/// USAGE. COMP is BINARY, and COMP-3 is PACKED-DECIMAL (own choice).
#[derive(Clone, Copy, PartialEq, Eq)]
pub enum UsageClause {
    Display,
    Binary,
    PackedDecimal,
}

#[derive(Clone, Copy, PartialEq, Eq)]
pub enum SignPosition {
    Leading,
    Trailing,
}

/// SIGN.
#[derive(Clone, Copy, PartialEq, Eq)]
pub struct SignClause {
    pub position: SignPosition,
    /// The sign is a character of its own.
    pub separate: bool,
}

/// What the groups around an entry say of the numeric items in them, each clause by the nearest group that has it.
#[derive(Clone, Copy, PartialEq, Eq)]
pub struct Around {
    pub usage: Option<UsageClause>,
    pub sign: Option<SignClause>,
}

/// An item or a group, with its clauses as they were written. SYNCHRONIZED, which has no effect, isn't kept.
#[derive(Drop)]
pub struct ItemEntry {
    /// The entry stands where its level number does.
    pub level: Integer,
    /// None for FILLER and where no name was written.
    pub name: Option<Name>,
    pub redefines: Option<Name>,
    pub picture: Option<PictureText>,
    pub usage: Option<UsageClause>,
    pub sign: Option<SignClause>,
    pub occurs: Option<Integer>,
    pub justified: bool,
    pub blank_when_zero: bool,
    pub value: Option<Literal>,
}

/// One value of a condition name, or a range of values.
#[derive(Drop)]
pub struct ValueRange {
    pub first: Literal,
    pub last: Option<Literal>,
}

/// A condition name, with the values of its item at which it is true, one or more. It stands where its name does.
#[derive(Drop)]
pub struct ConditionEntry {
    pub name: Name,
    pub values: Items<ValueRange>,
}

/// An entry. Those of level 88 have a form of their own. Which entries stand in which group is told by their levels alone.
#[derive(Drop)]
pub enum Entry {
    Item(ItemEntry),
    Condition(ConditionEntry),
}
