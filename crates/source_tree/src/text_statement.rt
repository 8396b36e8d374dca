//! Statements on texts: DISPLAY, ACCEPT and INSPECT.

use crate::expression::Operand;
use crate::inspect_statement::{Converting, InspectStatement};
use crate::reference::Reference;
use sqlite_items::Items;

#[derive(Drop)]
pub enum TextStatement {
    Display {
        /// One or more.
        operands: Items<Operand>,
        /// The line is ended after the operands: NO ADVANCING was not written.
        advancing: bool,
    },
    /// ACCEPT, of the console's next line.
    Accept {
        receiver: Reference,
    },
    /// ACCEPT FROM DATE.
    AcceptDate {
        receiver: Reference,
    },
    Inspect(InspectStatement),
    /// INSPECT CONVERTING.
    Convert(Converting),
}
