//! The command `load`.
ghost use Rattle.std.specs.Prelude.{◌≡◌, ◌<◌, None, Some, length, slice_index_or, IfSome};
ghost use Rattle.station.specs.Calls.{OnlyWrites};
ghost use Rattle.records.specs.Files.{Files, file_at};
ghost use Rattle.file_recovery.specs.Recovered.{HoldsFiles, HoldsNone};
ghost use Rattle.half_store.specs.Half.{Holds as HoldsHalf};
ghost use Rattle.file_bytes.specs.declared.stored.StoredFile.{StoredFile};
ghost use Rattle.file_bytes.specs.Stored.{file_of, rows_of, files_of};
ghost use Rattle.volume_copies.specs.Loaded as spec;
ghost use Rattle.volume_copies.specs.Loaded.{IsNext};
ghost use Rattle.volume_copies.specs.Loads.{LoadsVolume, LoadsOpened, IsUnwritten};

use crate::load_end::{Load, LoadEnd};
use crate::loading::load_lines;
use crate::progress::Progress;
use alternate_keys::PagedStore;
use file_recovery::{StoredFile, StoredRow, one_list_of_files, recover};
use half_store::HalfStore;
use records::{Organization, StoreFault};
use station::Device;
use std::alloc::Global;

/// How many pages are kept in memory, besides those that a change takes.
const CACHED_PAGES: usize = 4096;

/// Makes each line of a text a row of the file of this name, in one commit each, up to the first
/// line that is refused.
pub fn load_volume<D: Device, P: Progress>(
    alloc: Global,
    device: &mut D,
    name: &[u8],
    text: &[u8],
    progress: &mut P,
) -> Load
    ensures only { OnlyWrites D.Device
        (result.end ≡ LoadEnd.Refused StoreFault.Device) device.old device.new }

    // At each moment a volume that holds files holds the first lines, and other files stay.
    ensures loads { D.is_honest device.old → (files : Files) →
        HoldsFiles (D.state device.old).disk.present files →
        LoadsVolume name.now text.now files result.rows result.end (D.history device.old)
        (D.state device.old) (D.history device.new) (D.state device.new) }

    // Of a volume that holds none, nothing is written, and 82 is reported of no other.
    ensures damaged { D.is_honest device.old → result.end ≡ LoadEnd.Refused StoreFault.Damaged
        → HoldsNone (D.state device.old).disk.present
        × IsUnwritten (D.state device.old) (D.state device.new) }
{
    one_list_of_files();
    match recover(alloc, device) {
        Ok(files) => load_file(alloc, device, &files, name, text, progress),
        Err(fault) => refused(fault),
    }
}

/// The same, where the volume has these files.
fn load_file<D: Device, P: Progress>(
    alloc: Global,
    device: &mut D,
    files: &[StoredFile],
    name: &[u8],
    text: &[u8],
    progress: &mut P,
) -> Load
    ensures only { OnlyWrites D.Device
        (result.end ≡ LoadEnd.Refused StoreFault.Device) device.old device.new }
    ensures loads { D.is_honest device.old →
        HoldsFiles (D.state device.old).disk.present (files_of files.now) →
        LoadsVolume name.now text.now (files_of files.now) result.rows result.end
        (D.history device.old) (D.state device.old) (D.history device.new) (D.state device.new) }
{
    let Some(place) = find_file(files, name) else {
        return Load {
            rows: 0,
            end: LoadEnd::UnknownName,
        };
    };
    load_into(alloc, device, &files[place], text, progress)
}

/// The same for a file that was found. The volume is opened by its layout.
fn load_into<D: Device, P: Progress>(
    alloc: Global,
    device: &mut D,
    file: &StoredFile,
    text: &[u8],
    progress: &mut P,
) -> Load
    ensures only { OnlyWrites D.Device
        (result.end ≡ LoadEnd.Refused StoreFault.Device) device.old device.new }
    ensures loads { D.is_honest device.old → (files : Files) →
        HoldsFiles (D.state device.old).disk.present files →
        file_at file.now.spec.name.items files ≡ Some (file_of file.now) →
        LoadsOpened file.now.spec.name.items text.now files result.rows result.end
        (D.history device.old) (D.state device.old) (D.history device.new) (D.state device.new) }
{
    let first = first_number(file);
    match PagedStore::open(alloc, device, CACHED_PAGES) {
        Ok(mut store) => load_lines(alloc, &mut store, device, &file.spec, first, text, progress),
        Err(fault) => match fault {
            StoreFault::Layout => load_halves(alloc, device, file, first, text, progress),
            other => refused(other),
        },
    }
}

/// The same for a volume of halves.
fn load_halves<D: Device, P: Progress>(
    alloc: Global,
    device: &mut D,
    file: &StoredFile,
    first: u64,
    text: &[u8],
    progress: &mut P,
) -> Load
    ensures only { OnlyWrites D.Device
        (result.end ≡ LoadEnd.Refused StoreFault.Device) device.old device.new }
    ensures loads { D.is_honest device.old → (files : Files) →
        HoldsHalf (D.state device.old).disk.present files →
        file_at file.now.spec.name.items files ≡ Some (file_of file.now) →
        IsNext first (file_of file.now) →
        LoadsOpened file.now.spec.name.items text.now files result.rows result.end
        (D.history device.old) (D.state device.old) (D.history device.new) (D.state device.new) }
{
    half_store::one_list_of_files();
    match HalfStore::open(alloc, device) {
        Ok(mut store) => load_lines(alloc, &mut store, device, &file.spec, first, text, progress),
        Err(fault) => refused(fault),
    }
}

/// Nothing was loaded.
fn refused(fault: StoreFault) -> Load
    ensures rows { result.rows ≡ 0 }
    ensures end { result.end ≡ LoadEnd.Refused fault }
{
    Load {
        rows: 0,
        end: LoadEnd::Refused(fault),
    }
}

/// The number of a new row: in a relative file one more than the greatest; in other files 0.
fn first_number(file: &StoredFile) -> u64
    ensures { IsNext result (file_of file.now) }
{
    match file.spec.organization {
        Organization::Relative => greatest_number(&file.rows).saturating_add(1),
        _ => 0,
    }
}

/// The greatest number of a row, 0 without rows.
fn greatest_number(rows: &[StoredRow]) -> u64
    ensures { result ≡ spec.greatest_number (rows_of rows.now) }
{
    let mut greatest = 0;
    for row in rows {
        greatest = row.number.max(greatest);
    }
    greatest
}

/// The place of the file of this name.
fn find_file(files: &[StoredFile], name: &[u8]) -> Option<usize>
    ensures bound { IfSome result (λ i. i < length files.now) }
    ensures absent { result ≡ None → file_at name.now (files_of files.now) ≡ None }
    ensures found { IfSome result (λ i. (d : StoredFile) →
        file_at name.now (files_of files.now) ≡ Some (file_of (slice_index_or files.now i d))) }
    ensures name { IfSome result
        (λ i. (d : StoredFile) → (slice_index_or files.now i d).spec.name.items ≡ name.now) }
{
    for place in 0..files.len() {
        if files[place].spec.name.as_slice().cmp(name).is_eq() {
            return Some(place);
        }
    }
    None
}
