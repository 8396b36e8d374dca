//! A volume that takes the place of a host file once it is whole.

use crate::host_file::open_folder;
use crate::new_volume::NewVolume;
use crate::volume::HostVolume;
use std::fs::File;
use std::io;
use std::io::ErrorKind;
use std::rt::Files;

/// What the path of a volume that is being made ends with.
const SUFFIX: &str = ".cobol-copy";

/// The path of a volume that is to be made, and the file that it has until then.
#[derive(Drop)]
pub struct Replacement {
    /// The file that is replaced, locked; none if the path leads to no file yet.
    replaced: Option<NewVolume>,
    target: String,
    temporary: String,
}

impl Replacement {
    /// Locks the file at this path, if there is one. It changes none of its bytes. The errors are those of `NewVolume::open`.
    pub fn open<R>(rt: &R, path: &str) -> io::Result<Replacement>
    where
        R: Files<File = File> + AllocGlobal,
    {
        match rt.metadata(path) {
            Ok(_) => Replacement::of_file(rt, path),
            Err(error) if error.kind() == ErrorKind::NotFound => Replacement::at(rt, None, path),
            Err(error) => Err(error),
        }
    }

    /// The same for a file that exists. If the path is a link, the file that it leads to is replaced.
    fn of_file<R>(rt: &R, path: &str) -> io::Result<Replacement>
    where
        R: Files<File = File> + AllocGlobal,
    {
        let replaced = NewVolume::open(rt, path)?;
        let target = std::fs::canonicalize(rt, path)?;
        Replacement::at(rt, Some(replaced), target.as_str())
    }

    fn at<R>(rt: &R, replaced: Option<NewVolume>, target: &str) -> io::Result<Replacement>
    where
        R: AllocGlobal,
    {
        let alloc = rt.alloc();
        Ok(Replacement {
            replaced,
            target: format!(in alloc; "{target}")?,
            temporary: format!(in alloc; "{target}{SUFFIX}")?,
        })
    }

    /// Opens the file that the volume has until it is whole: next to its path, locked.
    pub fn begin<R>(&self, rt: &R) -> io::Result<NewVolume>
    where
        R: Files<File = File> + AllocGlobal,
    {
        NewVolume::open(rt, self.temporary.as_str())
    }

    /// Puts the whole volume at its path, in place of what was there, and makes that durable. The lock of the volume ends after that.
    pub fn end<R>(self, rt: &R, volume: HostVolume) -> io::Result<()>
    where
        R: Files<File = File> + AllocGlobal,
    {
        volume.sync()?;
        std::fs::rename(rt, self.temporary.as_str(), self.target.as_str())?;
        open_folder(rt, self.target.as_str())?.sync_all()
    }

    /// Removes the file again. What is at the path stays.
    pub fn give_up<R>(self, rt: &R)
    where
        R: Files<File = File> + AllocGlobal,
    {
        let _ = rt.remove_file(self.temporary.as_str());
    }
}
