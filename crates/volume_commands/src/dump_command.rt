//! The command `dump`.
ghost use Rattle.std.specs.Prelude.{◌≡◌, ◌<◌, Err, None, Some, length, get_or, IfOk, IfErr, IfSome, OnErr};
ghost use Rattle.std.specs.Io.KnownBytes.{Keeps};
ghost use Rattle.records.specs.Files.{Files, file_at};
ghost use Rattle.file_recovery.specs.Recovered.{HoldsFiles};
ghost use Rattle.file_bytes.specs.Stored.{file_of, files_of};
ghost use Rattle.file_bytes.specs.declared.stored.StoredFile.{StoredFile};
ghost use Rattle.volume_commands.specs.Dump.{dump_of};
ghost use Rattle.volume_commands.specs.Faults.{IsWriteCause};
ghost use Rattle.volume_commands.specs.Output.{AppendsBeginningOf, IsDumped};
ghost use Rattle.volume_commands.specs.Calls.{ReadsVolume};

use crate::dump::write_dump;
use crate::volume_error::VolumeError;
use crate::volume_files::read_files;
use file_recovery::{StoredFile, one_list_of_files};
use station::Device;
use std::alloc::Global;
use std::io::Write;

/// What became of a dump.
#[derive(Clone, Copy, PartialEq, Eq)]
pub enum FileDump {
    Written,
    /// No file has that name, and nothing was written.
    UnknownName,
}

/// Writes the dump of the file of this name, a line at a time, and flushes it. The volume is only
/// read. Damage is reported before the name is looked up.
pub fn dump_volume<D: Device, W: Write>(
    alloc: Global,
    device: &mut D,
    name: &[u8],
    out: &mut W,
) -> Result<FileDump, VolumeError>
    ensures reads { ReadsVolume D.Device result device.old device.new }

    // After `Ok` the writer has the dump of the file of this name among the files that the disk
    // holds, or there is no such file.
    ensures dumped { D.is_honest device.old → IfOk result (λ answer. (files : Files)
        × HoldsFiles (D.state device.old).disk.present files
        × IsDumped (dump_of name.now files) answer (W.contents out.old) (W.contents out.new)) }

    // After a refusal it has a beginning of that dump: nothing, unless the writer or memory failed.
    ensures begun { D.is_honest device.old → (files : Files) →
        HoldsFiles (D.state device.old).disk.present files → OnErr result
        (AppendsBeginningOf (W.contents out.old) (W.contents out.new) (dump_of name.now files)) }
    ensures device { result ≡ Err VolumeError.Device →
        Keeps (W.contents out.old) (W.contents out.new) }
    ensures damaged { result ≡ Err VolumeError.Damaged →
        Keeps (W.contents out.old) (W.contents out.new) }
{
    one_list_of_files();
    let files = read_files(alloc, device)?;
    dump_file(alloc, &files, name, out)
}

/// Writes the dump of the file of this name among these.
fn dump_file<W: Write>(
    alloc: Global,
    files: &[StoredFile],
    name: &[u8],
    out: &mut W,
) -> Result<FileDump, VolumeError>
    ensures dumped { IfOk result (λ answer. IsDumped (dump_of name.now (files_of files.now)) answer
        (W.contents out.old) (W.contents out.new)) }
    ensures begun { OnErr result (AppendsBeginningOf (W.contents out.old) (W.contents out.new)
        (dump_of name.now (files_of files.now))) }
    ensures cause { IfErr result IsWriteCause }
{
    let Some(place) = find_file(files, name) else {
        return Ok(FileDump::UnknownName);
    };
    write_dump(alloc, &files[place].rows, out)?;
    Ok(FileDump::Written)
}

/// The place of the file of this name.
fn find_file(files: &[StoredFile], name: &[u8]) -> Option<usize>
    ensures bound { IfSome result (λ i. i < length files.now) }
    ensures absent { result ≡ None → file_at name.now (files_of files.now) ≡ None }
    ensures found { IfSome result (λ i. (d : StoredFile) →
        file_at name.now (files_of files.now) ≡ Some (file_of (get_or files.now i d))) }
{
    for place in 0..files.len() {
        if files[place].spec.name.as_slice().cmp(name).is_eq() {
            return Some(place);
        }
    }
    None
}
