//! The command `list`.
ghost use Rattle.std.specs.Prelude.{◌≡◌, ◌≢◌, IfErr, OnOk, OnErr};
ghost use Rattle.std.specs.Io.KnownBytes.{Keeps, Appends};
ghost use Rattle.records.specs.Files.{Files};
ghost use Rattle.file_recovery.specs.Recovered.{HoldsFiles};
ghost use Rattle.file_bytes.specs.Stored.{files_of};
ghost use Rattle.volume_commands.specs.Listing as spec;
ghost use Rattle.volume_commands.specs.Faults.{IsWriteCause};
ghost use Rattle.volume_commands.specs.Output.{AppendsBeginning};
ghost use Rattle.volume_commands.specs.Calls.{ReadsVolume};

use crate::file_line::listing;
use crate::output::write_through;
use crate::volume_error::VolumeError;
use crate::volume_files::read_files;
use file_recovery::{StoredFile, one_list_of_files};
use station::Device;
use std::alloc::Global;
use std::io::Write;

/// Writes the listing of the files that a volume holds, and flushes it. The volume is only read.
pub fn list_volume<D: Device, W: Write>(
    alloc: Global,
    device: &mut D,
    out: &mut W,
) -> Result<(), VolumeError>
    ensures reads { ReadsVolume D.Device result device.old device.new }

    // After `Ok` the writer has the listing of the files that the disk holds.
    ensures listed { D.is_honest device.old → OnOk result ((files : Files)
        × HoldsFiles (D.state device.old).disk.present files
        × Appends (W.contents out.old) (W.contents out.new) (spec.listing files)) }

    // After a refusal it has a beginning of that listing: nothing, unless the writer failed.
    ensures begun { D.is_honest device.old → (files : Files) →
        HoldsFiles (D.state device.old).disk.present files → OnErr result
        (AppendsBeginning (W.contents out.old) (W.contents out.new) (spec.listing files)) }
    ensures silent { IfErr result
        (λ error. error ≢ VolumeError.Output → Keeps (W.contents out.old) (W.contents out.new)) }
{
    one_list_of_files();
    let files = read_files(alloc, device)?;
    write_listing(alloc, &files, out)
}

/// Writes the listing of files, and flushes.
fn write_listing<W: Write>(
    alloc: Global,
    files: &[StoredFile],
    out: &mut W,
) -> Result<(), VolumeError>
    ensures whole { OnOk result
        (Appends (W.contents out.old) (W.contents out.new) (spec.listing (files_of files.now))) }
    ensures beginning { OnErr result (AppendsBeginning
        (W.contents out.old) (W.contents out.new) (spec.listing (files_of files.now))) }
    ensures silent { IfErr result
        (λ error. error ≢ VolumeError.Output → Keeps (W.contents out.old) (W.contents out.new)) }
    ensures cause { IfErr result IsWriteCause }
{
    let text = listing(alloc, files)?;
    write_through(out, &text)
}
