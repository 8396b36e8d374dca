//! The tables of data that code names, in an image.

ghost use Rattle.std.specs.Prelude.{◌≡◌, ◌++◌, OnOk};
ghost use Rattle.answers.specs.Answer.{Gives};
ghost use Rattle.data_image.specs.Faults.{fault_of};
ghost use Rattle.data_image.specs.Tables.{data_item_bytes, data_item_at, tables_bytes, tables_at, IsDataItemSpelled, HasTables};

use crate::editing::{put_editing, read_editing};
use crate::fault::ImageError;
use crate::item::{put_item, read_item};
use crate::number::{put_short, read_short};
use crate::table::{TableEntry, put_table, read_table};
use data_instructions::{DataItem, DataTables};
use std::alloc::{AllocError, Global};

/// Puts the tables, one after the other.
pub fn put_tables(out: &mut Vec<u8>, tables: &DataTables) -> Result<(), AllocError>
    ensures bytes { OnOk result (out.new.items ≡ out.old.items ++ tables_bytes tables.now) }
    // So `read_tables` reads them again.
    ensures fits { OnOk result (HasTables tables.now) }
{
    put_table(out, tables.areas.as_slice())?;
    put_table(out, tables.items.as_slice())?;
    put_table(out, tables.numbers.as_slice())?;
    put_table(out, tables.senders.as_slice())?;
    put_table(out, tables.texts.as_slice())?;
    put_table(out, tables.inspections.as_slice())
}

/// The tables in front, and the bytes after them. 71 where the bytes end too soon, 72 at a value that isn't possible.
#[tactic(auto, unfolding(crate::specs::Tables::tables_at))]
pub fn read_tables(alloc: Global, bytes: &[u8]) -> Result<(DataTables, &[u8]), ImageError>
    ensures { Gives (λ x. (x.0, x.1.now)) fault_of result (tables_at bytes.now) }
{
    let (areas, rest) = read_table(alloc, bytes)?;
    let (items, rest) = read_table(alloc, rest)?;
    let (numbers, rest) = read_table(alloc, rest)?;
    let (senders, rest) = read_table(alloc, rest)?;
    let (texts, rest) = read_table(alloc, rest)?;
    let (inspections, rest) = read_table(alloc, rest)?;
    let tables = DataTables {
        areas,
        items,
        numbers,
        senders,
        texts,
        inspections,
    };
    Ok((tables, rest))
}

impl TableEntry for DataItem {
    ghost spelled = { data_item_bytes };

    ghost read_from = { data_item_at };

    ghost fits = { IsDataItemSpelled };

    fn put(&self, out: &mut Vec<u8>) -> Result<(), AllocError> {
        put_item(out, self.item)?;
        put_editing(out, &self.editing)?;
        put_short(out, self.area)?;
        put_short(out, self.offset)
    }

    #[tactic(auto, unfolding(crate::specs::Tables::data_item_at))]
    fn read(alloc: Global, bytes: &[u8]) -> Result<(DataItem, &[u8]), ImageError> {
        let (item, rest) = read_item(bytes)?;
        let (editing, rest) = read_editing(alloc, rest)?;
        let (area, rest) = read_short(rest)?;
        let (offset, rest) = read_short(rest)?;
        let one = DataItem {
            item,
            editing,
            area,
            offset,
        };
        Ok((one, rest))
    }
}
