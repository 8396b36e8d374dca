//! The roots of a device.
ghost use Rattle.std.specs.Prelude.{◌≡◌, ◌<◌, map, Err, IfOk, IfErr};
ghost use Rattle.station.specs.Disk.{sector_at};
ghost use Rattle.station.specs.Calls.{OnlyReads};
ghost use Rattle.answers.specs.Answer.{Gives};
ghost use Rattle.roots.specs.Root.{root_in, IsWithinVolume, IfValid};
ghost use Rattle.roots.specs.Pair.{EachRoot};
ghost use Rattle.roots.specs.Reading.{roots_in, fault_of};
ghost use Rattle.roots.specs.Laws.{IsKnown};

use crate::error::RootsError;
use crate::pair::{Roots, RootsFault, newest_of};
use crate::root::{RootSector, read_root};
use station::Device;

/// The roots of a device, to a reader that knows these families of marks, its own first. Each family has the marks of one format, in
/// the order of their introduction. Nothing is written.
pub fn read_roots<D: Device>(device: &mut D, known: &[&[[u8; 8]]]) -> Result<Roots, RootsError>
    ensures only { OnlyReads D.Device (result ≡ Err RootsError.Device) device.old device.new }

    // The roots of the present image, or the fault that it has.
    ensures roots { D.is_honest device.old → Gives (λ roots. roots) fault_of result
        (roots_in (map (λ family. family.now) known.now) (D.state device.old).disk.present) }

    // On any device they are within the bounds of a volume, with marks that are known, and the newest has one of the first family.
    ensures within { IfOk result (λ roots. EachRoot (IsWithinVolume (D.sectors device.old)) roots) }
    ensures marks { IfOk result (λ roots.
        EachRoot (λ root. IsKnown (map (λ family. family.now) known.now) root.mark) roots) }
    ensures own { IfOk result (λ roots. roots.newest.mark.family ≡ 0) }
{
    if device.count() < 2 {
        return Err(RootsError::Roots(RootsFault::Damaged));
    }
    let first = root_of(device, known, 0)?;
    let second = root_of(device, known, 1)?;
    match newest_of(first, second) {
        Ok(roots) => Ok(roots),
        Err(fault) => Err(RootsError::Roots(fault)),
    }
}

/// What a root sector of a device is.
fn root_of<D: Device>(
    device: &mut D,
    known: &[&[[u8; 8]]],
    number: u32,
) -> Result<RootSector, RootsError>
    requires { number < D.sectors device.old }
    ensures only { OnlyReads D.Device (result ≡ Err RootsError.Device) device.old device.new }
    ensures root { D.is_honest device.old
        → IfOk result (λ root. root ≡ root_in (map (λ family. family.now) known.now)
        (D.sectors device.old) number (sector_at (D.state device.old).disk.present number)) }
    ensures within { IfOk result (λ root. IfValid root (IsWithinVolume (D.sectors device.old))) }
    ensures marks { IfOk result (λ root. IfValid root
        (λ root. IsKnown (map (λ family. family.now) known.now) root.mark)) }
    ensures cause { IfErr result (λ error. error ≡ RootsError.Device) }
{
    let mut bytes = [0; 4096];
    device.read(number, &mut bytes)?;
    Ok(read_root(known, device.count(), number, &bytes))
}
