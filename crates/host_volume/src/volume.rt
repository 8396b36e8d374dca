//! A volume that exists.

ghost use Rattle.std.specs.Prelude.{◌≡◌, ◌≤◌, ◌<◌, ◌⊎◌, ◌*◌, ◌+◌, ◌-◌, ◌^◌, length, IfOk, OnOk};
ghost use Rattle.host_volume.specs.Volume.{sector_count};

use crate::device::HostDevice;
use crate::host_file::{lock, open_folder, refuse_other_kinds};
use crate::roots::sync_and_rewrite_roots;
use std::alloc::Global;
use std::fs::{File, OpenOptions};
use std::io;
use std::io::ErrorKind;
use std::os::unix::fs::FileExt;
use std::rt::Files;

/// What a volume is opened for.
#[derive(Clone, Copy, PartialEq, Eq)]
pub enum Access {
    /// To read it. Others may read it at the same time.
    Read,
    /// To read and write it, alone.
    ReadWrite,
}

/// A regular file of the host, locked until the value is dropped.
#[derive(Drop)]
pub struct HostVolume {
    pub(crate) file: File,
    pub(crate) sectors: u32,
}

impl HostVolume {
    /// Opens the volume at this path, which must exist. It has as many sectors as the file has whole ones.
    ///
    /// The error is `WouldBlock` if another open of the file holds the lock, and `InvalidInput` for a folder or a device.
    /// A volume that is opened to write is first made to agree with its disk (`settle`).
    pub fn open<R>(rt: &R, path: &str, access: Access) -> io::Result<HostVolume>
    where
        R: Files<File = File> + AllocGlobal,
    {
        refuse_other_kinds(&rt.metadata(path)?)?;
        let file = OpenOptions::new()
            .read(true)
            .write(access == Access::ReadWrite)
            .open(rt, path)?;
        lock(&file, access)?;
        let found = file.metadata()?;
        refuse_other_kinds(&found)?;
        let volume = HostVolume {
            file,
            sectors: whole_sectors(found.len()),
        };
        match access {
            Access::Read => Ok(volume),
            Access::ReadWrite => volume.settle(rt.alloc(), &open_folder(rt, path)?),
        }
    }

    /// Syncs the folder and the file, and writes both roots again.
    ///
    /// After a failed sync of an earlier process the host may keep a root in its cache that the disk doesn't have, and report
    /// no further error. A later commit would trust that root and reuse sectors that the root on the disk still names. The
    /// sectors that a root names were synced before the root was written, so only a root can be missing on the disk.
    fn settle(self, alloc: Global, folder: &File) -> io::Result<HostVolume>
        ensures { IfOk result (λ volume. sector_count volume ≡ sector_count self) }
    {
        folder.sync_all()?;
        let mut device = HostDevice::new(alloc, self);
        if sync_and_rewrite_roots(&mut device).is_err() {
            return Err(ErrorKind::Other.into());
        }
        match device.into_volume() {
            Ok(volume) => Ok(volume),
            Err(_) => Err(ErrorKind::Other.into()),
        }
    }

    /// The number of sectors at the opening.
    pub fn count(&self) -> u32
        ensures { result ≡ sector_count self.now }
    {
        self.sectors
    }

    /// Reads a sector. It fails if the volume has no such sector, or if the file has become shorter.
    pub fn read(&self, sector: u32, bytes: &mut [u8; 4096]) -> io::Result<()>
        ensures { OnOk result (sector < sector_count self.now) }
    {
        self.file.read_exact_at(bytes, self.place(sector)?)
    }

    /// Writes a sector. If the volume has no such sector, it fails and the file doesn't grow.
    pub fn write(&self, sector: u32, bytes: &[u8; 4096]) -> io::Result<()>
        ensures { OnOk result (sector < sector_count self.now) }
    {
        self.file.write_all_at(bytes, self.place(sector)?)
    }

    /// Writes adjacent sectors, as many as there are bytes for. If the volume lacks one of them, it fails and the file doesn't grow.
    pub(crate) fn write_adjacent(&self, first: u32, bytes: &[u8]) -> io::Result<()>
        ensures { OnOk result (first * 4096 + length bytes.now ≤ sector_count self.now * 4096) }
    {
        let place = byte_length(first);
        if byte_length(self.sectors) < place.saturating_add(bytes.len() as u64) {
            return Err(ErrorKind::InvalidInput.into());
        }
        self.file.write_all_at(bytes, place)
    }

    /// Asks the host to put all writes on the disk. After an error the host may have dropped some of them.
    pub fn sync(&self) -> io::Result<()> {
        self.file.sync_data()
    }

    /// Where a sector of the volume begins.
    fn place(&self, sector: u32) -> io::Result<u64>
        ensures place { IfOk result (λ place. place ≡ sector * 4096) }
        ensures exists { OnOk result (sector < sector_count self.now) }
    {
        if sector >= self.sectors {
            return Err(ErrorKind::InvalidInput.into());
        }
        Ok(byte_length(sector))
    }
}

/// The number of bytes that so many sectors have.
pub(crate) fn byte_length(sectors: u32) -> u64
    ensures { result ≡ sectors * 4096 }
{
    u64::from(sectors) * 4096
}

/// The number of whole sectors in so many bytes, at most the largest `u32`.
fn whole_sectors(bytes: u64) -> u32
    ensures whole { result * 4096 ≤ bytes }
    ensures all { (bytes < (result + 1) * 4096) ⊎ (result ≡ 2 ^ 32 - 1) }
{
    u32::try_from(bytes / 4096).unwrap_or(u32::MAX)
}
