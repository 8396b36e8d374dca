//! The rows of a case.
use crate::fault::Fault;
use std::alloc::Global;

/// A row, and the number of its line.
#[derive(Drop)]
pub struct Row {
    pub line: u32,
    pub text: Vec<u8>,
}

impl Row {
    /// Adds a further line.
    pub(crate) fn put_continuation(&mut self, text: &[u8]) -> Result<(), Fault> {
        self.text.push(b'\n')?;
        self.text.extend_from_slice(text)?;
        Ok(())
    }
}

/// Puts a row of this text after others.
pub fn put_row(alloc: Global, line: u32, text: &[u8], rows: &mut Vec<Row>) -> Result<(), Fault> {
    let text = Vec::from_slice(alloc, text)?;
    rows.push(Row { line, text })?;
    Ok(())
}
