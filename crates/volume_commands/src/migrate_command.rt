//! The command `migrate`.
ghost use Rattle.std.specs.Prelude.{◌≡◌, ◌↔◌, Err, IfErr, OnOk};
ghost use Rattle.alternate_keys.specs.Migrated.{IfMarked, IsMigrateRefusal};
ghost use Rattle.alternate_keys.specs.Opened.{BlamesDevice, SyncsAtMost, SyncsOnly};
ghost use Rattle.volume_commands.specs.Migrate.{present_on, KeepsFiles, HasMigrated, IfWithoutFiles, IfOfHalves, RefusesUnwritten};

use alternate_keys::migrate;
use file_recovery::recover;
use records::StoreFault;
use station::Device;
use std::alloc::Global;

/// Gives the volume of a device the newest mark of a volume of trees, with the number of each file's rows. Its files are recovered
/// first.
///
/// `Damaged` says that the volume holds no files, and `Layout` that it is a volume of halves. `Full` says that fewer than nine
/// sectors were free besides those of the map, or that no generation is left. The volume isn't written in any of these cases.
pub fn migrate_volume<D: Device>(alloc: Global, device: &mut D) -> Result<(), StoreFault>
    ensures honest { D.is_honest device.old ↔ D.is_honest device.new }
    ensures sectors { D.sectors device.new ≡ D.sectors device.old }
    ensures failures { BlamesDevice D.Device device.old device.new result }

    // At each moment a crash leaves what was possible before, or the same files.
    ensures moments { D.is_honest device.old → KeepsFiles D.Device device.old device.new }

    // `Ok` says that the volume held files, and that it has the newest mark now.
    ensures migrated { D.is_honest device.old
        → OnOk result (HasMigrated D.Device device.old device.new) }

    // A volume with this mark is not written.
    ensures idle { IfMarked D.Device device.old 1
        (OnOk result (SyncsOnly D.Device device.old device.new)) }

    // Neither is a volume without files, a volume of halves, or one that is full.
    ensures damaged { IfWithoutFiles D.Device device.old
        (RefusesUnwritten D.Device StoreFault.Damaged result device.old device.new) }
    ensures halves { IfOfHalves D.Device device.old
        (RefusesUnwritten D.Device StoreFault.Layout result device.old device.new) }
    ensures full { result ≡ Err StoreFault.Full
        → D.is_honest device.old → SyncsAtMost D.Device device.old device.new }
    ensures refused { D.is_honest device.old
        → IfErr result (IsMigrateRefusal (present_on D.Device device.old)) }
{
    match recover(alloc, device) {
        Ok(files) => drop(files),
        Err(fault) => return Err(fault),
    }
    migrate(alloc, device)
}
