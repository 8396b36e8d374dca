//! What a host file has to be before it is a volume.

use crate::volume::Access;
use std::fs::{File, Metadata};
use std::io::ErrorKind;
use std::rt::Files;
use std::{fs, io};

/// Refuses a folder, a pipe and a device of the host. A path is examined before it is opened, because opening a pipe may wait
/// for its other end. The open file is examined again, because the path may lead to another file by then.
pub(crate) fn refuse_other_kinds(found: &Metadata) -> io::Result<()> {
    if found.is_file() {
        return Ok(());
    }
    Err(ErrorKind::InvalidInput.into())
}

/// Takes the advisory lock. It doesn't wait: the error is `WouldBlock` if another open of the file holds the lock.
pub(crate) fn lock(file: &File, access: Access) -> io::Result<()> {
    match access {
        Access::Read => file.try_lock_shared()?,
        Access::ReadWrite => file.try_lock()?,
    }
    Ok(())
}

/// Opens the folder that has the file of a path. If the path is a link, that is the folder of the file that it leads to.
pub(crate) fn open_folder<R>(rt: &R, path: &str) -> io::Result<File>
where
    R: Files<File = File> + AllocGlobal,
{
    let mut folder = fs::canonicalize(rt, path)?;
    folder.pop();
    File::open(rt, folder.as_str())
}
