//! The cases of a script.
//!
//! Blank lines, and lines that begin with `#`, are skipped. A case begins with a row `case NAME`. A row that begins with `|` belongs to the
//! row before. The rows between `repeat ..` and `end` are repeated.
use crate::fault::Fault;
use crate::repeats::put_repeated;
use crate::rows::{Row, put_row};
use std::alloc::{AllocError, Global};

/// A case: its rows.
#[derive(Drop)]
pub struct Case {
    pub rows: Vec<Row>,
    /// The line of a row that is wrong.
    pub wrong: Option<u32>,
    /// The row `repeat` that is not ended, and the rows after it.
    repeat: Option<Vec<u8>>,
    body: Vec<Row>,
}

/// The cases of a script.
pub fn read_cases(alloc: Global, text: &[u8]) -> Result<Vec<Case>, AllocError> {
    let mut cases = Vec::new(alloc);
    put_lines(alloc, text, &mut cases)?;
    Ok(cases)
}

fn put_lines(alloc: Global, text: &[u8], cases: &mut Vec<Case>) -> Result<(), AllocError> {
    let mut line = 0u32;
    for text in text.split(|byte| *byte == b'\n') {
        line = line.saturating_add(1);
        put_line(alloc, line, text, cases)?;
    }
    Ok(())
}

/// A line of a script belongs to its last case, or begins one. A line before the first case is skipped.
fn put_line(
    alloc: Global,
    line: u32,
    text: &[u8],
    cases: &mut Vec<Case>,
) -> Result<(), AllocError> {
    if text.starts_with(b"case ") {
        return begin_case(alloc, cases);
    }
    match cases.last_mut() {
        Some(case) => case.put_line(alloc, line, text),
        None => Ok(()),
    }
}

fn begin_case(alloc: Global, cases: &mut Vec<Case>) -> Result<(), AllocError> {
    cases.push(Case {
        rows: Vec::new(alloc),
        wrong: None,
        repeat: None,
        body: Vec::new(alloc),
    })?;
    Ok(())
}

impl Case {
    /// The rows.
    pub fn into_rows(self) -> Vec<Row> {
        let Case { rows, .. } = self;
        rows
    }

    /// A line of the case, which may be wrong.
    fn put_line(&mut self, alloc: Global, line: u32, text: &[u8]) -> Result<(), AllocError> {
        match self.put(alloc, line, text) {
            Ok(()) => Ok(()),
            Err(Fault::Memory) => Err(AllocError),
            Err(_) => {
                self.wrong = Some(line);
                Ok(())
            }
        }
    }

    fn put(&mut self, alloc: Global, line: u32, text: &[u8]) -> Result<(), Fault> {
        match text {
            [] | [b'#', ..] => Ok(()),
            [b'|', ..] => self.put_continuation(text),
            b"end" => self.end_repeat(alloc),
            _ if text.starts_with(b"repeat ") => self.begin_repeat(alloc, text),
            _ if self.repeat.is_some() => put_row(alloc, line, text, &mut self.body),
            _ => put_row(alloc, line, text, &mut self.rows),
        }
    }

    /// A further line of the row before.
    fn put_continuation(&mut self, text: &[u8]) -> Result<(), Fault> {
        match self.rows.last_mut() {
            Some(row) => row.put_continuation(text),
            None => Ok(()),
        }
    }

    fn begin_repeat(&mut self, alloc: Global, text: &[u8]) -> Result<(), Fault> {
        let head = Vec::from_slice(alloc, text)?;
        drop(self.repeat.replace(head));
        Ok(())
    }

    fn end_repeat(&mut self, alloc: Global) -> Result<(), Fault> {
        let Some(head) = self.repeat.take() else {
            return Err(Fault::Spelling("no repetition ends here"));
        };
        put_repeated(alloc, &head, &self.body, &mut self.rows)?;
        self.body.clear();
        Ok(())
    }
}
