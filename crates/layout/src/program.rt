//! The layout of a program.

ghost use Rattle.std.specs.Prelude.{◌≡◌, [], map, IfOk};
ghost use Rattle.source_tree.specs.EntryRules.{entry_rules};
ghost use Rattle.source_tree.specs.FileRules.{descriptions_rules};
ghost use Rattle.source_tree.specs.Records.{program_items};
ghost use Rattle.layout.specs.Placing.{placed_item};

use crate::file_records::place_files;
use crate::placed::PlacedItem;
use crate::storage::{place_storage, storage_areas};
use source_tree::Program;
use sqlite_items::Items;
use std::alloc::{AllocError, Global};

/// Where the items of a program stand (COBOL-85, Nucleus, "Data description entry"): those of working storage, and then those of the
/// records of its files.
#[derive(Drop)]
pub struct Layout {
    /// In the order of their entries.
    pub items: Items<PlacedItem>,
}

impl Layout {
    /// The layout of a program whose entries and files' descriptions keep the rules.
    pub fn of(alloc: Global, program: &Program) -> Result<Layout, AllocError>
        requires storage { entry_rules program.now.storage ≡ [] }
        requires files { descriptions_rules program.now.storage program.now.files ≡ [] }
        // Each item stands where its clauses and those around it say.
        ensures { IfOk result
            (λ layout. layout.items ≡ map placed_item (program_items program.now)) }
    {
        let storage = program.storage.as_slice();
        let mut items = Vec::new(alloc);
        place_storage(alloc, storage, &mut items)?;
        let areas = storage_areas(storage);
        place_files(alloc, program.files.as_slice(), areas, &mut items)?;
        Ok(Layout {
            items: Items::from_vec(items),
        })
    }
}
