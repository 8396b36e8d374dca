//! A row is found by its prime key or number.
ghost use Rattle.std.specs.Prelude.{◌≡◌, ◌≤◌, ◌<◌, true, List, Err, false, length, IfOk, IfSome, IfErr, IsOkUnless};
ghost use Rattle.std.specs.Option.{option_map};
ghost use Rattle.pages.specs.Pages.{is_spent, sectors_of};
ghost use Rattle.btree.specs.Calls.{IfAgrees, pages_on};
ghost use Rattle.records.specs.Changes.{row_at};
ghost use Rattle.records.specs.Rows.{Row as FileRow};
ghost use Rattle.records.specs.Stores.{spec_of, key_length, pair_of};
ghost use Rattle.volume_format.specs.Trees.{entry_under};
ghost use Rattle.file_bytes.specs.Rows.{prime_key};
ghost use Rattle.volume_format.specs.Calls.{LooksAt};
ghost use Rattle.row_trees.specs.RowTree.{HasWholeLengths};
ghost use Rattle.alternate_keys.specs.Faults.{IsReadFault};
ghost use Rattle.alternate_keys.specs.Moved.{is_out_of_range};
ghost use Rattle.alternate_keys.specs.Seen.{HasRows};

use crate::row_bytes::copy_of;
use crate::search_keys::{number_bytes, pair_bytes};
use pages::PageMap;
use records::{FileSpec, KeyOfReference, Organization, StoreFault};
use row_trees::{Row, RowTree};
use station::Device;
use std::alloc::Global;
use volume_format::to_fault;

/// Numbers of relative files are below this.
const NUMBERS: u64 = 4294967296;

/// The row, as an entry of the tree of rows, of this prime key, or of this number where the file has none.
pub(crate) fn find_row<D: Device>(
    alloc: Global,
    prime: &RowTree,
    pages: &mut PageMap,
    device: &mut D,
    file: &FileSpec,
    number: u64,
    value: &[u8],
) -> Result<Option<Row>, StoreFault>
    requires sectors { sectors_of pages.old ≤ D.sectors device.old }
    requires value { length value.now ≡ key_length (spec_of file.now) KeyOfReference.Prime }
    ensures looks { LooksAt D.Device (result ≡ Err StoreFault.Device) pages.old device.old pages.new
        device.new }
    ensures found { IfAgrees D.Device pages.old device.old ((rows : List FileRow)
        → HasRows (spec_of file.now) (pages_on D.Device pages.old device.old) rows prime.now →
        IfOk result
        (λ row. row ≡ option_map (entry_under (spec_of file.now) KeyOfReference.Prime)
        (row_at file.now.organization (pair_of file.now.organization value.now number) rows))) }
    ensures damaged { IfAgrees D.Device pages.old device.old ((rows : List FileRow)
        → HasRows (spec_of file.now) (pages_on D.Device pages.old device.old) rows prime.now
        → result ≡ Err StoreFault.Damaged → ⊥) }
    ensures lengths { IfOk result (λ row. IfSome row (HasWholeLengths prime.now)) }
    ensures spent { result ≡ Err StoreFault.Spent → is_spent pages.old ≡ true }
    ensures cause { IfErr result IsReadFault }
{
    if is_no_number(file.organization, number) {
        return Ok(None);
    }
    let key = find_key(alloc, file.organization, number, value)?;
    match prime.find(alloc, pages, device, &key) {
        Ok(row) => Ok(row),
        Err(error) => Err(to_fault(error)),
    }
}

/// Whether no row has this number.
fn is_no_number(organization: Organization, number: u64) -> bool
    ensures { result ≡ is_out_of_range organization number }
{
    match organization {
        Organization::Sequential => false,
        Organization::Relative => NUMBERS <= number,
        Organization::Indexed(_) => false,
    }
}

/// The key of a prime key or number in the tree of rows.
fn find_key(
    alloc: Global,
    organization: Organization,
    number: u64,
    value: &[u8],
) -> Result<Vec<u8>, StoreFault>
    ensures key { IfOk result
        (λ key. key.items ≡ prime_key organization (pair_of organization value.now number)) }
    ensures memory { IsOkUnless result StoreFault.Memory }
{
    match organization {
        Organization::Sequential => pair_bytes(alloc, &[], number),
        Organization::Relative => number_bytes(alloc, number),
        Organization::Indexed(_) => copy_of(alloc, value),
    }
}
