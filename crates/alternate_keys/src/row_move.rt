//! A change of a row, as the trees of the alternate keys follow it.

use crate::row_verb::RowVerb;

/// What is done to a row, its value in the tree of rows before, the arrival of its new pairs, the arrival that the next WRITE gives
/// after it, and its new record. A new row has no value before, and a row that leaves has no record after.
#[derive(Clone, Copy)]
pub(crate) struct RowMove<'a> {
    pub(crate) verb: RowVerb,
    pub(crate) old_value: &'a [u8],
    pub(crate) arrival: u64,
    pub(crate) next: u64,
    pub(crate) bytes: &'a [u8],
}
