//! The names of files.

ghost use Rattle.std.specs.Prelude.{List, IfOk};
ghost use Rattle.source_tree.specs.declared.program.Program.{Program};
ghost use Rattle.source_tree.specs.Places.{LocatedItem};
ghost use Rattle.source_tree.specs.ProgramFiles.{files_of};
ghost use Rattle.name_table.specs.Files.{AreFileNames, IsFileNamed};

use crate::table::noted;
use indexmap::IndexMap;
use source_tree::{Name, Select};
use std::alloc::{AllocError, Global};

/// The names of a program's files, each with the number of its first SELECT, from 0.
#[derive(Drop)]
pub struct FileNames<'a> {
    pub numbers: IndexMap<&'a [u8], usize>,
}

/// The table of the names of files. The last SELECT is noted first, so that of each name the first one stays.
pub fn file_names<'a>(alloc: Global, selects: &'a [Select]) -> Result<FileNames<'a>, AllocError>
    ensures { IfOk result (AreFileNames selects.now) }
{
    let mut numbers = IndexMap::new(alloc);
    let mut left = selects.len();
    'selects: while left > 0 {
        left -= 1;
        noted(&mut numbers, Some(&selects[left].name), left)?;
    }
    Ok(FileNames { numbers })
}

impl FileNames<'_> {
    /// The number of the first file of that name.
    pub fn file_named(&self, name: &Name) -> Option<usize>
        ensures { (items : List LocatedItem) (program : Program) → AreFileNames program.selects
            self.now → IsFileNamed (files_of items program) name.now result }
    {
        self.numbers.get(name.characters.as_slice()).copied()
    }
}
