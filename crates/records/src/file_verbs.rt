//! File statements, whatever the files are kept in.
ghost use Rattle.std.specs.Prelude.{◌≡◌, ◌≤◌, ◌<◌, List, length};
ghost use Rattle.station.specs.Disk.{Disk, Sector, IsCrashImage};
ghost use Rattle.records.specs.Files.{Files};
ghost use Rattle.records.specs.Connector.{Entry, Connector};
ghost use Rattle.records.specs.FileStep.{entry_at, Suits};
ghost use Rattle.records.specs.VerbCalls.{CallsStore, SureWithoutStore, ReturnsStep, ChangesByStep, LacksOnChange, LacksByVerb, SameOnRefusal};

use crate::fault::StoreFault;
use crate::keeps::Keeps;
use crate::status::Status;
use crate::verb::Verb;
use station::Device;

/// Connectors to the files that a program names.
///
/// What is said of statuses and files holds on an honest device, of whatever files these stand for there.
pub trait FileVerbs: Keeps {
    /// What the program says of its files.
    ghost entries: { Self → List Entry };

    /// What is kept between two file statements.
    ghost connectors: { Self → List Connector };

    /// Does one file statement and answers its status: the verb on the file of that number, with the record area and the number in
    /// the RELATIVE KEY item, 0 where its bytes are no number. It gives no event. After a refusal connectors, area and number are as they were,
    /// and so are the files, except for a store that is spent.
    fn perform<D: Device>(
        &mut self,
        device: &mut D,
        file: usize,
        verb: Verb,
        bytes: &mut [u8],
        number: &mut u64,
    ) -> Result<Status, StoreFault>
        requires device { Self.needs self.old ≤ D.sectors device.old }
        requires file { file < length (entries self.old) }
        requires verb { Suits (entry_at (entries self.old) file) verb }
        requires bytes { length bytes.old ≡ (entry_at (entries self.old) file).spec.record_length }
        ensures store { CallsStore Self.Keeps D.Device verb result self.old device.old self.new
            device.new }
        ensures entries { entries self.new ≡ entries self.old }

        // A CLOSE, and what a test of the connectors bars, isn't refused, and its step asks nothing of the files.
        ensures sure { SureWithoutStore connectors entries self.old file verb result }
        ensures step { ReturnsStep Self.Keeps D.Device entries connectors self.old device.old
            file verb bytes.old number.old result self.new bytes.new number.new }
        ensures turns { ChangesByStep Self.Keeps D.Device entries connectors self.old device.old
            file verb bytes.old number.old result self.new device.new }

        // `Full` and `Old` are answered only by a statement that would change a file, and by no verb that cannot change one, whatever the
        // disk holds; `Old` only by an OPEN that would make the file.
        ensures full { LacksOnChange Self.Keeps D.Device entries connectors self.old device.old
            file verb bytes.old number.old result }
        ensures lacks { LacksByVerb verb result }
        ensures refused { SameOnRefusal connectors self.old bytes.old number.old result self.new
            bytes.new number.new };

    /// Whatever a crash leaves of a disk holds the files.
    ghost held: { (verbs : Self) (disk : Disk) (image : List Sector) (files : Files)
        → Self.stands verbs disk files → IsCrashImage disk image → Self.holds image files };
}
