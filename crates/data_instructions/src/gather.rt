//! Instructions that gather texts, as STRING and INSPECT do.

use crate::index::TextIndex;

/// What is added to the line.
#[derive(Clone, Copy)]
pub enum Gather {
    /// Takes a place: its bytes.
    Bytes,
    /// Takes a place: its bytes up to the first occurrence of those at the next place, which stays.
    UpToPlace,
    /// Takes a place: its bytes up to the first occurrence of a text.
    UpToText { delimiter: TextIndex },
    /// A text up to the first occurrence of the bytes at the newest place, which stays.
    TextUpToPlace { text: TextIndex },
    /// Takes a place: its bytes, as many as its item has.
    Sized,
    /// Takes a place: its bytes, padded with spaces to the size of its item in the table. The line's size before them and the
    /// place's own size are put on the stack of numbers.
    Measured,
}
