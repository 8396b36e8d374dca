//! The new volume of a copy.
ghost use Rattle.std.specs.Prelude.{◌≡◌, ◌≢◌, ◌≤◌, ◌<◌, ◌⊎◌, true, false, Ok, Err, IfOk};
ghost use Rattle.station.specs.Disk.{idle_disk};
ghost use Rattle.station.specs.History.{Through, EachImage};
ghost use Rattle.file_bytes.specs.Stored.{files_of};
ghost use Rattle.unfinished_volume.specs.Hidden.{HidesRoot};
ghost use Rattle.unfinished_volume.specs.Inverted.{inverted_state, inverted_image};
ghost use Rattle.unfinished_volume.specs.Moments.{PossibleOr};
ghost use Rattle.volume_copies.specs.Copied.{IsReadBack, IsVolume, IsNoVolume, IsWhileMade, KeepsDevice};
ghost use Rattle.volume_copies.specs.Made.{IsNoneOrSame, IsUnmade};

use crate::copied::{Copied, VolumeCopy};
use crate::file_writes::write_file;
use crate::progress::Progress;
use crate::same_files::are_same_files;
use alternate_keys::{PagedStore, format};
use file_recovery::{StoredFile, recover};
use records::{Store, StoreFault};
use station::Device;
use std::alloc::Global;
use std::marker::Brand;
use unfinished_volume::{Beginning, UnfinishedVolume, hidden_root_is_damage, hide_root, show_root};

/// How many pages of the new volume are kept in memory, besides those that a change takes.
const CACHED_PAGES: usize = 4096;

/// Makes a device a volume with these files. It is none until it was read back and compared.
pub(crate) fn copy_files<E: Device, P: Progress>(
    alloc: Global,
    files: &[StoredFile],
    mut new: E,
    progress: &mut P,
) -> Copied<E, StoreFault>
    requires least { 1024 ≤ E.sectors new }
    requires most { E.sectors new ≤ 921600 }
    ensures keeps { KeepsDevice E.Device (result.copy ≡ Err StoreFault.Device) new result.device }
    ensures moments { E.is_honest new →
        Through (E.history new) (E.history result.device) (E.state result.device)
        (EachImage (IsWhileMade (files_of files.now) (E.state new).disk)) }
    ensures copied { E.is_honest new → result.copy ≡ Ok VolumeCopy.Done
        → IsReadBack (files_of files.now) (E.state result.device) }
    ensures none { E.is_honest new → IsUnmade result.copy
        → EachImage IsNoVolume (E.state result.device) }
    ensures different { E.is_honest new → result.copy ≡ Ok VolumeCopy.Different
        → IsVolume (inverted_state (E.state result.device)) }
{
    hidden_root_is_damage();
    match hide_root(&mut new) {
        Ok(()) => make_volume::<Brand, E, P>(alloc, files, new, progress),
        Err(_) => Copied {
            device: new,
            copy: Err(StoreFault::Device),
        },
    }
}

/// The same on a device in whose sector 0 no reader finds a root.
fn make_volume<B: Beginning, E: Device, P: Progress>(
    alloc: Global,
    files: &[StoredFile],
    new: E,
    progress: &mut P,
) -> Copied<E, StoreFault>
    requires least { 1024 ≤ E.sectors new }
    requires most { E.sectors new ≤ 921600 }
    requires history { B.history ≡ E.history new }
    requires failures { B.failures ≡ E.failures new }
    requires hidden { E.is_honest new → HidesRoot (E.state new).disk }
    ensures keeps { KeepsDevice E.Device (result.copy ≡ Err StoreFault.Device) new result.device }
    ensures moments { E.is_honest new →
        Through (E.history new) (E.history result.device) (E.state result.device)
        (EachImage (IsNoneOrSame (files_of files.now))) }
    ensures copied { E.is_honest new → result.copy ≡ Ok VolumeCopy.Done
        → IsReadBack (files_of files.now) (E.state result.device) }
    ensures none { E.is_honest new → IsUnmade result.copy
        → EachImage IsNoVolume (E.state result.device) }
    ensures different { E.is_honest new → result.copy ≡ Ok VolumeCopy.Different
        → IsVolume (inverted_state (E.state result.device)) }
{
    hidden_root_is_damage();
    let mut volume = UnfinishedVolume::<B, E>::new(new);
    let copy = write_and_compare(alloc, files, &mut volume, progress);
    let refused = volume.was_refused();
    let device = volume.into_device();
    if refused {
        return Copied {
            device,
            copy: Err(StoreFault::Damaged),
        };
    }
    if is_done(&copy) {
        return publish(device);
    }
    Copied { device, copy }
}

/// Whether the files are the same.
fn is_done(copy: &Result<VolumeCopy, StoreFault>) -> bool
    ensures done { result ≡ true → copy.now ≡ Ok VolumeCopy.Done }
    ensures other { result ≡ false → copy.now ≢ Ok VolumeCopy.Done }
{
    matches!(copy, Ok(VolumeCopy::Done))
}

/// Shows the root of a volume that was compared.
fn publish<E: Device>(mut device: E) -> Copied<E, StoreFault>
    requires { 0 < E.sectors device }
    ensures keeps { KeepsDevice E.Device
        (result.copy ≡ Err StoreFault.Device) device result.device }
    ensures moments { E.is_honest device →
        Through (E.history device) (E.history result.device) (E.state result.device)
        (EachImage (PossibleOr (E.state device).disk
        (inverted_image (E.state device).disk.present))) }
    ensures shown { E.is_honest device → result.copy ≡ Ok VolumeCopy.Done
        → (E.state result.device).disk ≡ idle_disk (inverted_image (E.state device).disk.present) }
    ensures end { (result.copy ≡ Ok VolumeCopy.Done) ⊎ (result.copy ≡ Err StoreFault.Device) }
{
    match show_root(&mut device) {
        Ok(()) => Copied {
            device,
            copy: Ok(VolumeCopy::Done),
        },
        Err(_) => Copied {
            device,
            copy: Err(StoreFault::Device),
        },
    }
}

/// Makes a device a volume with these files, and reads it back.
fn write_and_compare<E: Device, P: Progress>(
    alloc: Global,
    files: &[StoredFile],
    new: &mut E,
    progress: &mut P,
) -> Result<VolumeCopy, StoreFault>
    requires least { 1024 ≤ E.sectors new.old }
    requires most { E.sectors new.old ≤ 921600 }
    ensures keeps { KeepsDevice E.Device (result ≡ Err StoreFault.Device) new.old new.new }
    ensures copied { E.is_honest new.old → result ≡ Ok VolumeCopy.Done
        → IsReadBack (files_of files.now) (E.state new.new) }
    ensures volume { E.is_honest new.old → IfOk result (λ _. IsVolume (E.state new.new)) }
{
    write_files(alloc, files, new, progress)?;
    let copied = recover(alloc, new)?;
    if are_same_files(alloc, files, &copied)? {
        return Ok(VolumeCopy::Done);
    }
    Ok(VolumeCopy::Different)
}

/// Makes a device a volume with these files.
fn write_files<E: Device, P: Progress>(
    alloc: Global,
    files: &[StoredFile],
    new: &mut E,
    progress: &mut P,
) -> Result<(), StoreFault>
    requires least { 1024 ≤ E.sectors new.old }
    requires most { E.sectors new.old ≤ 921600 }
    ensures keeps { KeepsDevice E.Device (result ≡ Err StoreFault.Device) new.old new.new }
{
    format(new)?;
    let mut store = PagedStore::open(alloc, new, CACHED_PAGES)?;
    write_each(alloc, &mut store, files, new, progress)
}

/// Writes these files into a store.
fn write_each<S: Store, E: Device, P: Progress>(
    alloc: Global,
    store: &mut S,
    files: &[StoredFile],
    new: &mut E,
    progress: &mut P,
) -> Result<(), StoreFault>
    requires { S.needs store.old ≤ E.sectors new.old }
    ensures keeps { KeepsDevice E.Device (result ≡ Err StoreFault.Device) new.old new.new }
{
    let all = row_count(files);
    let mut rows = 0;
    for file in files {
        rows = write_file(alloc, store, new, file, rows, all, progress)?;
    }
    Ok(())
}

/// How many rows there are.
fn row_count(files: &[StoredFile]) -> u64 {
    let mut count: u64 = 0;
    for file in files {
        count = count.saturating_add(file.rows.len() as u64);
    }
    count
}
