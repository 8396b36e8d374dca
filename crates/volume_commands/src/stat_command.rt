//! The command `stat`.
ghost use Rattle.std.specs.Prelude.{◌≡◌, ◌≢◌, ℕ, List, Err, IfOk, IfErr, OnOk, OnErr};
ghost use Rattle.std.specs.Io.KnownBytes.{Keeps, Appends};
ghost use Rattle.file_bytes.specs.Stored.{files_of};
ghost use Rattle.volume_commands.specs.Stat as spec;
ghost use Rattle.volume_commands.specs.Faults.{IsWriteCause, IsReadError};
ghost use Rattle.volume_commands.specs.Output.{AppendsBeginning};
ghost use Rattle.volume_commands.specs.Calls.{ReadsVolume};

use crate::output::write_through;
use crate::stat::stat_text;
use crate::volume_error::VolumeError;
use crate::volume_files::read_files;
use crate::volume_state::{VolumeState, read_state};
use file_recovery::StoredFile;
use station::Device;
use std::alloc::Global;
use std::io::Write;

/// A volume and its files.
#[derive(Drop)]
pub(crate) struct VolumeStat {
    state: VolumeState,
    files: Vec<StoredFile>,
}

/// Writes what a volume is and how many rows its files have, and flushes it. The volume is only
/// read.
pub fn stat_volume<D: Device, W: Write>(
    alloc: Global,
    device: &mut D,
    out: &mut W,
) -> Result<(), VolumeError>
    ensures reads { ReadsVolume D.Device result device.old device.new }

    // After `Ok` the writer has the text of the files that the disk holds, and of its volume.
    ensures stated { D.is_honest device.old → OnOk result ((text : List ℕ)
        × spec.IsStatText (D.state device.old).disk.present text
        × Appends (W.contents out.old) (W.contents out.new) text) }

    // If the writer failed, it has a beginning of it. After any other refusal it has nothing.
    ensures begun { D.is_honest device.old → result ≡ Err VolumeError.Output → (text : List ℕ)
        × spec.IsStatText (D.state device.old).disk.present text
        × AppendsBeginning (W.contents out.old) (W.contents out.new) text }
    ensures silent { IfErr result
        (λ error. error ≢ VolumeError.Output → Keeps (W.contents out.old) (W.contents out.new)) }
{
    let stat = read_stat(alloc, device)?;
    write_stat(alloc, &stat, out)
}

/// A volume and its files. It syncs first, and writes nothing.
fn read_stat<D: Device>(alloc: Global, device: &mut D) -> Result<VolumeStat, VolumeError>
    ensures reads { ReadsVolume D.Device result device.old device.new }
    ensures stat { D.is_honest device.old → IfOk result (λ stat.
        spec.IsStat (D.state device.old).disk.present stat.state (files_of stat.files.items)) }
    ensures cause { IfErr result IsReadError }
{
    match read_files(alloc, device) {
        Ok(files) => match read_state(alloc, device) {
            Ok(state) => Ok(VolumeStat { state, files }),
            Err(error) => Err(error),
        },
        Err(error) => Err(error),
    }
}

/// Writes what a volume is and how many rows its files have, and flushes.
fn write_stat<W: Write>(alloc: Global, stat: &VolumeStat, out: &mut W) -> Result<(), VolumeError>
    ensures whole { OnOk result (Appends (W.contents out.old) (W.contents out.new)
        (spec.stat_text stat.now.state (files_of stat.now.files.items))) }
    ensures beginning { OnErr result (AppendsBeginning (W.contents out.old) (W.contents out.new)
        (spec.stat_text stat.now.state (files_of stat.now.files.items))) }
    ensures silent { IfErr result
        (λ error. error ≢ VolumeError.Output → Keeps (W.contents out.old) (W.contents out.new)) }
    ensures cause { IfErr result IsWriteCause }
{
    let text = stat_text(alloc, stat.state, &stat.files)?;
    write_through(out, &text)
}
