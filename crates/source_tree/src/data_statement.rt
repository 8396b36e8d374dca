//! Statements that put values into items: MOVE, INITIALIZE, SET.

use crate::expression::Operand;
use crate::reference::Reference;
use sqlite_items::Items;

#[derive(Drop)]
pub enum DataStatement {
    Move {
        sender: Operand,
        /// One or more.
        receivers: Items<Reference>,
    },
    Initialize {
        /// One or more.
        receivers: Items<Reference>,
    },
    /// SET of condition names TO TRUE.
    Set {
        /// One or more.
        conditions: Items<Reference>,
    },
}
