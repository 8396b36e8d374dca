//! The UNTIL phrase of PERFORM.

use crate::condition::Condition;
use crate::expression::Operand;
use crate::reference::Reference;

/// When UNTIL is tested: before each turn, or after it.
#[derive(Clone, Copy, PartialEq, Eq)]
pub enum TestTime {
    Before,
    After,
}

/// VARYING: an item that begins with a number, to which another is added after each turn.
#[derive(Drop)]
pub struct Varying {
    pub item: Reference,
    pub from: Operand,
    pub by: Operand,
}

/// Turns up to where a condition is true.
#[derive(Drop)]
pub struct Until {
    pub test: TestTime,
    pub varying: Option<Varying>,
    pub condition: Condition,
}
