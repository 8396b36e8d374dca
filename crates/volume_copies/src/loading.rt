//! The lines of a text become rows of a file.
ghost use Rattle.std.specs.Prelude.{◌≡◌, ◌≤◌, true, false, Err, OnOk};
ghost use Rattle.station.specs.Calls.{OnlyWrites};
ghost use Rattle.records.specs.Files.{File, Files};
ghost use Rattle.records.specs.Stores.{Has, IsNewNumber, is_change};
ghost use Rattle.records.specs.Calls.{Represents};
ghost use Rattle.volume_copies.specs.Loaded.{following_number, IsNext};
ghost use Rattle.volume_copies.specs.Loads.{LoadsLines};
ghost use Rattle.volume_copies.specs.OneLine.{AddsOne, IsPast};

use crate::line_record::{LineError, record_of_line};
use crate::lines::split_line;
use crate::load_end::{Load, LoadEnd};
use crate::progress::Progress;
use records::{FileSpec, Organization, Outcome, Status, Store, StoreFault};
use station::Device;
use std::alloc::Global;

/// The greatest relative number.
const MOST_NUMBER: u64 = 999_999_999;

/// Makes each line of a text a row of a file, up to the first one that is refused. In a relative
/// file the first row gets this number.
pub(crate) fn load_lines<S: Store, D: Device, P: Progress>(
    alloc: Global,
    store: &mut S,
    device: &mut D,
    file: &FileSpec,
    first: u64,
    text: &[u8],
    progress: &mut P,
) -> Load
    requires { S.needs store.old ≤ D.sectors device.old }
    ensures only { OnlyWrites D.Device
        (result.end ≡ LoadEnd.Refused StoreFault.Device) device.old device.new }
    ensures loads { (files : Files) (held : File)
        → Represents S.Keeps D.Device store.old device.old files → Has files file.now held
        → IsNext first held → LoadsLines S.holds file.now.name.items text.now files
        result.rows result.end (D.history device.old) (D.state device.old)
        (D.history device.new) (D.state device.new) }
{
    let mut rows = 0;
    let mut number = first;
    let mut rest = text;
    while rest.len() > 0 {
        let (line, more) = split_line(rest);
        match add_line(alloc, store, device, file, number, line) {
            Ok(()) => rows += 1,
            Err(end) => return Load { rows, end },
        }
        number = next_number(file.organization, number);
        rest = more;
        progress.report((text.len() - rest.len()) as u64, text.len() as u64);
    }
    Load {
        rows,
        end: LoadEnd::Done,
    }
}

/// Makes a line a row of a file.
fn add_line<S: Store, D: Device>(
    alloc: Global,
    store: &mut S,
    device: &mut D,
    file: &FileSpec,
    number: u64,
    line: &[u8],
) -> Result<(), LoadEnd>
    requires { S.needs store.old ≤ D.sectors device.old }
    ensures only { OnlyWrites D.Device
        (result ≡ Err (LoadEnd.Refused StoreFault.Device)) device.old device.new }
    ensures needs { S.needs store.new ≡ S.needs store.old }
    ensures adds { (files : Files) (held : File)
        → Represents S.Keeps D.Device store.old device.old files → Has files file.now held
        → IsNext number held → AddsOne S.Keeps D.Device result file.now number line.now files held
        device.old store.new device.new }
    ensures number { OnOk result (IsNewNumber file.now.organization number) }
{
    let record = match record_of_line(alloc, line, file.record_length as usize) {
        Ok(record) => record,
        Err(LineError::Fault(fault)) => return Err(LoadEnd::Malformed(fault)),
        Err(LineError::Memory) => return Err(LoadEnd::Refused(StoreFault::Memory)),
    };
    if !is_number_of(file.organization, number) {
        return Err(LoadEnd::Rejected(Status::Boundary));
    }
    match store.insert(device, file, number, &record) {
        Ok(outcome) => {
            if is_row(outcome) {
                return Ok(());
            }
            Err(LoadEnd::Rejected(Status::DuplicateKey))
        }
        Err(fault) => Err(LoadEnd::Refused(fault)),
    }
}

/// Whether a record became a row.
fn is_row(outcome: Outcome) -> bool
    ensures { result ≡ is_change outcome }
{
    match outcome {
        Outcome::Missing | Outcome::Taken => false,
        Outcome::Done | Outcome::Duplicate => true,
    }
}

/// Whether a row may have this number.
fn is_number_of(organization: Organization, number: u64) -> bool
    ensures new { result ≡ true → IsNewNumber organization number }
    ensures past { result ≡ false → IsPast organization number }
{
    match organization {
        Organization::Relative => 1 <= number && number <= MOST_NUMBER,
        _ => true,
    }
}

/// The number of the row after one with this number.
fn next_number(organization: Organization, number: u64) -> u64
    requires { IsNewNumber organization number }
    ensures { result ≡ following_number organization number }
{
    match organization {
        Organization::Relative => number + 1,
        _ => 0,
    }
}
