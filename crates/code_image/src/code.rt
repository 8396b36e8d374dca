//! Code: what a program becomes.

use crate::instruction::Instruction;
use data_instructions::DataTables;
use file_image::CodeFile;
use sqlite_items::Items;

/// The tables of a program, and its instructions, of which the first runs first.
#[derive(Drop)]
pub struct Code {
    /// What instructions on data name.
    pub tables: DataTables,
    /// The files, in the order of their SELECTs.
    pub files: Items<CodeFile>,
    /// The address at which each code paragraph starts, in order. An address is the index of an instruction, from 0.
    pub starts: Items<usize>,
    pub instructions: Items<Instruction>,
}
