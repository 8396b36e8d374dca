//! A volume that is to be made.

ghost use Rattle.std.specs.Prelude.{◌≡◌, ◌*◌, length, IfOk};
ghost use Rattle.host_volume.specs.Volume.{sector_count};

use crate::host_file::{lock, open_folder, refuse_other_kinds};
use crate::volume::{Access, HostVolume, byte_length};
use std::alloc::Global;
use std::fs::{File, OpenOptions};
use std::io;
use std::io::ErrorKind;
use std::os::unix::fs::FileExt;
use std::rt::Files;

/// The number of sectors that one call of the host writes: a MiB.
const BATCH: u32 = 256;

/// A regular file, open and locked, whose content isn't changed yet.
#[derive(Drop)]
pub struct NewVolume {
    file: File,
    folder: File,
}

impl NewVolume {
    /// Opens the file at this path, or makes an empty one, and locks it. It changes no byte of a file that exists.
    /// The error is `WouldBlock` if another open of the file holds the lock, and `InvalidInput` for a folder or a device.
    pub fn open<R>(rt: &R, path: &str) -> io::Result<NewVolume>
    where
        R: Files<File = File> + AllocGlobal,
    {
        match rt.metadata(path) {
            Ok(found) => refuse_other_kinds(&found)?,
            Err(error) if error.kind() == ErrorKind::NotFound => {}
            Err(error) => return Err(error),
        }
        let file = OpenOptions::new()
            .read(true)
            .write(true)
            .create(true)
            .open(rt, path)?;
        lock(&file, Access::ReadWrite)?;
        refuse_other_kinds(&file.metadata()?)?;
        let folder = open_folder(rt, path)?;
        Ok(NewVolume { file, folder })
    }

    /// Makes it a volume of so many sectors of zeros, each of which has its place on the disk. The old content is lost.
    /// `progress` receives the number of sectors written so far, after each MiB. After a failure the file is empty, if the
    /// host can cut it.
    pub fn fill<P>(self, alloc: Global, sectors: u32, progress: P) -> io::Result<HostVolume>
    where
        P: FnMut(u32),
        requires { P.IsAlwaysCallable progress }
        ensures { IfOk result (λ volume. sector_count volume ≡ sectors) }
    {
        let zeros = vec![in alloc; 0; BATCH as usize * 4096]?;
        if let Err(error) = self.write(zeros.as_slice(), sectors, progress) {
            let _ = self.file.set_len(0);
            return Err(error);
        }
        Ok(HostVolume {
            file: self.file,
            sectors,
        })
    }

    /// Empties the file, gives it its length, fills it and syncs it.
    fn write<P>(&self, zeros: &[u8], sectors: u32, progress: P) -> io::Result<()>
    where
        P: FnMut(u32),
        requires length { length zeros.now ≡ 256 * 4096 }
        requires progress { P.IsAlwaysCallable progress }
    {
        self.file.set_len(0)?;
        self.file.set_len(byte_length(sectors))?;
        write_zeros(&self.file, zeros, sectors, progress)?;
        self.file.sync_all()?;
        self.folder.sync_all()
    }
}

/// Writes so many sectors of zeros from the beginning of a file, a batch at a time.
fn write_zeros<P>(file: &File, zeros: &[u8], sectors: u32, mut progress: P) -> io::Result<()>
where
    P: FnMut(u32),
    requires length { length zeros.now ≡ 256 * 4096 }
    requires progress { P.IsAlwaysCallable progress }
{
    for first in (0..sectors).step_by(BATCH as usize) {
        let count = BATCH.min(sectors - first);
        file.write_all_at(&zeros[..count as usize * 4096], byte_length(first))?;
        progress(first + count);
    }
    Ok(())
}
