//! A case of file statements: the volumes that it runs over, its SELECTs and its rows.
use crate::connectors::Kind;
use row_scripts::{Fault, Row, Words, look_up};
use std::alloc::{AllocError, Global};

/// The kinds of volumes of a case that names none.
const KINDS: [Kind; 4] = [
    Kind::Halves,
    Kind::Trees(1),
    Kind::Trees(8),
    Kind::EarlierTrees(8),
];

/// A case. `over ..`, `sectors N`, `blank` and `select ..` may be anywhere among its rows.
#[derive(Drop)]
pub struct Case {
    kinds: Vec<Kind>,
    pub sectors: usize,
    pub is_blank: bool,
    pub selects: Vec<Vec<u8>>,
    pub rows: Vec<Row>,
}

impl Case {
    /// The case of these rows.
    pub fn of(alloc: Global, rows: Vec<Row>) -> Result<Case, Fault> {
        let mut case = Case {
            kinds: Vec::new(alloc),
            sectors: 1024,
            is_blank: false,
            selects: Vec::new(alloc),
            rows: Vec::new(alloc),
        };
        for row in rows.into_iter() {
            case.put(alloc, row)?;
        }
        Ok(case)
    }

    /// The kinds of volumes that it runs over.
    pub fn kinds(&self) -> &[Kind] {
        if self.kinds.is_empty() {
            &KINDS
        } else {
            &self.kinds
        }
    }

    fn put(&mut self, alloc: Global, row: Row) -> Result<(), Fault> {
        if !self.is_described(alloc, &row.text)? {
            self.rows.push(row)?;
        }
        Ok(())
    }

    /// Whether a row describes the case. If so, the case is as it says.
    fn is_described(&mut self, alloc: Global, row: &[u8]) -> Result<bool, Fault> {
        let mut words = Words::of(row);
        let Some(head) = look_up(&HEADS, words.word().unwrap_or(b"")) else {
            return Ok(false);
        };
        match head {
            Head::Over => self.put_kinds(words)?,
            Head::Blank => self.is_blank = true,
            Head::Sectors => self.sectors = words.number().unwrap_or(0) as usize,
            Head::Select => self.put_select(alloc, words.rest())?,
        }
        Ok(true)
    }

    fn put_select(&mut self, alloc: Global, row: &[u8]) -> Result<(), AllocError> {
        let row = Vec::from_slice(alloc, row)?;
        self.selects.push(row)?;
        Ok(())
    }

    fn put_kinds(&mut self, mut words: Words<'_>) -> Result<(), Fault> {
        for _ in 0..16 {
            if words.is_done() {
                break;
            }
            self.kinds.push(read_kind(&mut words))?;
        }
        Ok(())
    }
}

/// The rows that describe a case.
#[derive(Clone, Copy)]
enum Head {
    Over,
    Blank,
    Sectors,
    Select,
}

const HEADS: [(&[u8], Head); 4] = [
    (b"over", Head::Over),
    (b"blank", Head::Blank),
    (b"sectors", Head::Sectors),
    (b"select", Head::Select),
];

/// `halves`, `earlier-trees N` or `trees N`
fn read_kind(words: &mut Words<'_>) -> Kind {
    if words.takes(b"halves") {
        return Kind::Halves;
    }
    let is_earlier = words.takes(b"earlier-trees");
    if !is_earlier {
        words.word();
    }
    let cached = words.number().unwrap_or(8) as usize;
    if is_earlier {
        Kind::EarlierTrees(cached)
    } else {
        Kind::Trees(cached)
    }
}
