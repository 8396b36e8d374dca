//! OPEN and CLOSE.
ghost use Rattle.std.specs.Prelude.{◌≡◌, ◌≢◌, ◌≤◌, ◌⊎◌, Err, Some, None, true, false, ℕ, List, IfOk, OnOk, OnErr};
ghost use Rattle.records.specs.Files.{Files, with_file, empty_file, presence, file_at};
ghost use Rattle.records.specs.Calls.{Represents, Changes, ChangesFiles, Rests};
ghost use Rattle.records.specs.Stores.{spec_of};
ghost use Rattle.records.specs.Connector.{entry_of, opened_connector, closed_connector};
ghost use Rattle.records.specs.Steps.{step};
ghost use Rattle.records.specs.FileStep.{area, has_changed, can_change_files};
ghost use Rattle.file_verbs.specs.Links.{IsLink, IsLinked, Ends, connector_of};

use crate::link::Link;
use records::{KeyOfReference, OpenMode, Presence, Select, Side, Status, Store, StoreFault, Verb};
use station::Device;

/// CLOSE.
pub(crate) fn close_link(select: &Select, link: &mut Link)
    requires { IsLink select.now link.old }
    ensures connector { connector_of (spec_of select.now.file) link.new ≡ closed_connector }
    ensures shut { link.new.mode ≡ None }
    ensures link { IsLink select.now link.new }
{
    let _select = select;
    link.mode = None;
    link.is_absent = false;
    link.reference = KeyOfReference::Prime;
    link.side = None;
    link.value_length = 0;
    link.was_read = false;
    link.has_written = false;
}

/// OPEN. An OPTIONAL file that isn't there is made, except for INPUT.
pub(crate) fn open_file<T: Store, D: Device>(
    store: &mut T,
    device: &mut D,
    select: &Select,
    link: &mut Link,
    mode: OpenMode,
) -> Result<Status, StoreFault>
    requires device { T.needs store.old ≤ D.sectors device.old }
    requires link { IsLink select.now link.old }
    ensures changes { Changes T.Keeps D.Device result store.old device.old store.new device.new }
    ensures step { (files : Files) → Represents T.Keeps D.Device store.old device.old files
        → (bytes : List ℕ) (number : ℕ) →
        IfOk result (λ status. Ends (step (entry_of select.now) files
        (connector_of (spec_of select.now.file) link.old) (area bytes number) (Verb.Open mode))
        status (connector_of (spec_of select.now.file) link.new) (area bytes number)) }
    ensures turns { (files : Files) → Represents T.Keeps D.Device store.old device.old files
        → (bytes : List ℕ) (number : ℕ) →
        ChangesFiles T.Keeps D.Device result true select.now.file.name.items files
        (step (entry_of select.now) files (connector_of (spec_of select.now.file) link.old)
        (area bytes number) (Verb.Open mode)).files store.old device.old store.new device.new }
    ensures linked { (files : Files) → Represents T.Keeps D.Device store.old device.old files
        → (bytes : List ℕ) (number : ℕ) →
        OnOk result ((link.new.mode ≡ link.old.mode) ⊎ IsLinked
        (step (entry_of select.now) files (connector_of (spec_of select.now.file) link.old)
        (area bytes number) (Verb.Open mode)).files select.now link.new) }
    ensures link { IsLink select.now link.new }
    ensures full { (files : Files) → Represents T.Keeps D.Device store.old device.old files
        → (bytes : List ℕ) (number : ℕ)
        → (result ≡ Err StoreFault.Full) ⊎ (result ≡ Err StoreFault.Old) →
        has_changed (Verb.Open mode)
        (step (entry_of select.now) files (connector_of (spec_of select.now.file) link.old)
        (area bytes number) (Verb.Open mode)).status ≡ true }
    ensures never_full { can_change_files (Verb.Open mode) ≡ false
        → (result ≢ Err StoreFault.Full) × (result ≢ Err StoreFault.Old) }
    ensures idle { D.is_honest device.old → IfOk result (λ status.
        has_changed (Verb.Open mode) status ≡ false → D.state device.new ≡ D.state device.old) }
    ensures same { OnErr result (link.new ≡ link.old) }
    ensures rests { OnErr result
        (Rests T.Keeps D.Device store.old device.old store.new device.new) }
{
    if let OpenMode::Output = mode {
        return open_new(store, device, select, link, mode, Status::Success);
    }
    let there = store.find(device, &select.file)?;
    match there {
        Presence::Present => {
            begin(select, link, mode, false);
            Ok(Status::Success)
        }
        Presence::Different => {
            link.was_read = false;
            Ok(Status::FileDiffers)
        }
        Presence::Absent => {
            if !select.optional {
                link.was_read = false;
                return Ok(Status::FileMissing);
            }
            if let OpenMode::Input = mode {
                begin(select, link, mode, true);
                return Ok(Status::SuccessAbsent);
            }
            open_new(store, device, select, link, mode, Status::SuccessAbsent)
        }
    }
}

/// The connector is open, at the first row of the prime key.
fn begin(select: &Select, link: &mut Link, mode: OpenMode, is_absent: bool)
    requires { IsLink select.now link.old }
    ensures connector { connector_of (spec_of select.now.file) link.new ≡ opened_connector mode }
    ensures absent { link.new.is_absent ≡ is_absent }
    ensures mode { link.new.mode ≡ Some mode }
    ensures link { IsLink select.now link.new }
{
    let _select = select;
    link.mode = Some(mode);
    link.is_absent = is_absent;
    link.reference = KeyOfReference::Prime;
    link.side = Some(Side::From);
    link.value_length = 0;
    link.number = 0;
    link.was_read = false;
    link.has_written = false;
    link.written_number = 0;
}

/// Makes the file anew, and opens it.
fn open_new<T: Store, D: Device>(
    store: &mut T,
    device: &mut D,
    select: &Select,
    link: &mut Link,
    mode: OpenMode,
    status: Status,
) -> Result<Status, StoreFault>
    requires device { T.needs store.old ≤ D.sectors device.old }
    requires link { IsLink select.now link.old }
    ensures changes { Changes T.Keeps D.Device result store.old device.old store.new device.new }
    ensures status { IfOk result (λ told. told ≡ status) }
    ensures connector { OnOk result
        (connector_of (spec_of select.now.file) link.new ≡ opened_connector mode) }
    ensures linked { OnOk result ((files : Files) → IsLinked (with_file select.now.file.name.items
        (empty_file (spec_of select.now.file)) files) select.now link.new) }
    ensures link { IsLink select.now link.new }
    ensures turns { (files : Files) → Represents T.Keeps D.Device store.old device.old files →
        ChangesFiles T.Keeps D.Device result true select.now.file.name.items files
        (with_file select.now.file.name.items (empty_file (spec_of select.now.file)) files)
        store.old device.old store.new device.new }
    ensures same { OnErr result (link.new ≡ link.old) }
    ensures spends { OnErr result (T.is_spent store.new ≡ true) }
{
    store.create(device, &select.file)?;
    begin(select, link, mode, false);
    Ok(status)
}
