//! File statements.

ghost use Rattle.std.specs.Prelude.{◌≡◌, ◌≢◌, ◌⊎◌, ◌≤◌, ◌<◌, ◌+◌, ◌↔◌, true, false, ℕ, List, IfSome, length, map, slice_get, Some, Err, OnOk, OnErr, IfOk, IfErr};
ghost use Rattle.station.specs.State.{State, state_after_note};
ghost use Rattle.station.specs.History.{Moves, Through};
ghost use Rattle.records.specs.Statuses.{bytes_of};
ghost use Rattle.records.specs.Files.{Files};
ghost use Rattle.records.specs.Spec.{is_spec};
ghost use Rattle.records.specs.Calls.{Represents, Changes, ChangesFiles};
ghost use Rattle.records.specs.FileStep.{entry_at, needs_no_store, makes_file, has_changed, Suits};
ghost use Rattle.source_tree.specs.FileStatements as meaning;
ghost use Rattle.source_tree.specs.Meaning.{Run};
ghost use Rattle.file_image.specs.Files.{place_at, places_of, spec_of, entry_of, entries_of};
ghost use Rattle.code_image.specs.Demands.{IsVerified};
ghost use Rattle.machine.specs.Prefix.{Moment};
ghost use Rattle.machine.specs.Ends.{EndsAs};
ghost use Rattle.machine.specs.Standing.{IsReadyAt};
ghost use Rattle.machine.specs.Progress.{IsRunning, IsCaused, IsRefused};
ghost use Rattle.machine.specs.Filing.{FindsNumber, FindsStatus, FindsPlaces, with_low_number, Did, Serves};

use crate::ended::{Ended, Refusal, refusal_of};
use crate::registers::Registers;
use code_image::{Code, Instruction};
use data_instructions::{DataTables, ItemIndex};
use data_machine::Areas;
use file_image::{CodeFile, FileIndex};
use records::{FileVerbs, OpenMode, Status, StoreFault, Verb};
use station::{Device, Note, Station, TracedStatement};

/// A file statement: its step is done, what it leaves is stored, and its status is received. It is kept out of the run's loop,
/// which has few registers to keep then.
#[cold]
#[inline(never)]
pub(crate) fn file_statement<S: Station, F: FileVerbs>(
    code: &Code,
    registers: &mut Registers,
    station: &mut S,
    verbs: &mut F,
    address: usize,
    file: FileIndex,
    verb: Verb,
) -> Result<(), Ended>
    requires verified { IsVerified code.now }
    requires here { slice_get code.now.instructions address ≡ Some (Instruction.File file verb) }
    requires stands { IsReadyAt code.now registers.old address }
    requires serves { Serves F.Keeps F.entries code.now (S.sectors station.old) verbs.old }
    ensures sectors { S.sectors station.new ≡ S.sectors station.old }
    ensures honest { S.is_honest station.old ↔ S.is_honest station.new }
    ensures cause { IsCaused result (S.failures station.old) (S.failures station.new) }
    ensures refused { IfErr result IsRefused }
    ensures within { address + 1 < length code.now.instructions }
    ensures file { file.number < length code.now.files }
    ensures stands { OnOk result (IsReadyAt code.now registers.new (address + 1)) }
    ensures returns { registers.new.returns ≡ registers.old.returns }
    ensures serves { OnOk result
        (Serves F.Keeps F.entries code.now (S.sectors station.new) verbs.new) }
    // A crash leaves the files before it or those after it, and the run goes on with those.
    ensures moments { (day : List ℕ) (run : Run) (before : State) (left : ℕ) (files : Files)
        → Represents F.Keeps S.Device verbs.old station.old files →
        IsRunning code.now day run before files (F.connectors verbs.old) address left registers.old
        (S.state station.old) →
        Through (S.history station.old) (S.history station.new) (S.state station.new)
        (Moment F.holds run before) }
    ensures on { (day : List ℕ) (run : Run) (before : State) (left : ℕ) (files : Files)
        → Represents F.Keeps S.Device verbs.old station.old files →
        IsRunning code.now day run before files (F.connectors verbs.old) address left registers.old
        (S.state station.old) →
        OnOk result ((after : Files) × Represents F.Keeps S.Device verbs.new station.new after
        × IsRunning code.now day run before after (F.connectors verbs.new) (address + 1) left
        registers.new (S.state station.new)) }
    ensures over { (day : List ℕ) (run : Run) (before : State) (left : ℕ) (files : Files)
        → Represents F.Keeps S.Device verbs.old station.old files →
        IsRunning code.now day run before files (F.connectors verbs.old) address left registers.old
        (S.state station.old) →
        IfErr result (λ ended. EndsAs F.holds F.lacks
        (entries_of code.now.tables code.now.files) run before ended (S.state station.new)) }
{
    let one = &code.files.as_slice()[file.number as usize];
    let areas = &mut registers.scratch.areas;
    let bytes = &mut registers.record_area;
    let performed = perform(
        &code.tables,
        one,
        FileOperation { file, verb },
        areas,
        bytes,
        station,
        verbs,
    );
    match performed {
        Ok(status) => {
            registers.status = status;
            let statement = TracedStatement {
                line: registers.line,
                verb: words_of(verb),
                file: one.name.as_slice(),
                status: status.bytes(),
            };
            note(station, file, status, &statement)
        }
        Err(fault) => Err(Ended::Refused(refusal_of(fault))),
    }
}

/// The number in the item of RELATIVE KEY, 0 where there is no item.
fn relative_number(areas: &Areas, tables: &DataTables, item: Option<ItemIndex>) -> u64
    requires { IfSome item (FindsNumber tables.now areas.now) }
    ensures { result ≡ meaning.relative_number (place_at tables.now item) areas.now }
{
    let Some(item) = item else {
        return 0;
    };
    let one = &tables.items.as_slice()[item.number as usize];
    areas.number(one, one.offset as usize)
}

/// Stores the number back where it changed: its low digits.
fn put_relative_number(
    areas: &mut Areas,
    tables: &DataTables,
    item: Option<ItemIndex>,
    old: u64,
    new: u64,
)
    requires { IfSome item (FindsNumber tables.now areas.old) }
    ensures stores { areas.new ≡ with_low_number (place_at tables.now item) old new areas.old }
    ensures lengths { map length areas.new ≡ map length areas.old }
{
    let Some(item) = item else {
        return;
    };
    if old != new {
        let one = &tables.items.as_slice()[item.number as usize];
        areas.put_number(one, one.offset as usize, new);
    }
}

/// Stores a status in the item of FILE STATUS.
fn put_status(areas: &mut Areas, tables: &DataTables, item: Option<ItemIndex>, status: Status)
    requires { IfSome item (FindsStatus tables.now areas.old) }
    ensures stores { areas.new ≡ meaning.with_status (place_at tables.now item) status areas.old }
    ensures lengths { map length areas.new ≡ map length areas.old }
{
    let Some(item) = item else {
        return;
    };
    let one = &tables.items.as_slice()[item.number as usize];
    areas.pad(one, one.offset as usize, &status.bytes());
}

/// Stores what a file statement leaves beside the record area.
fn leave(areas: &mut Areas, tables: &DataTables, one: &CodeFile, old: u64, new: u64, status: Status)
    requires relative_key { IfSome one.now.relative_key (FindsNumber tables.now areas.old) }
    requires status { IfSome one.now.status (FindsStatus tables.now areas.old) }
    ensures stores { areas.new ≡ meaning.with_status (place_at tables.now one.now.status) status
        (with_low_number (place_at tables.now one.now.relative_key) old new areas.old) }
    ensures lengths { map length areas.new ≡ map length areas.old }
{
    put_relative_number(areas, tables, one.relative_key, old, new);
    put_status(areas, tables, one.status, status);
}

/// A verb on a file of the code.
#[derive(Clone, Copy)]
struct FileOperation {
    file: FileIndex,
    verb: Verb,
}

/// Does the step of a verb on a file, and stores what it leaves. A refusal leaves storage as it was.
fn perform<D: Device, F: FileVerbs>(
    tables: &DataTables,
    one: &CodeFile,
    operation: FileOperation,
    areas: &mut Areas,
    bytes: &mut Vec<u8>,
    device: &mut D,
    verbs: &mut F,
) -> Result<Status, StoreFault>
    requires places { FindsPlaces tables.now areas.old one.now }
    requires needs { F.Keeps.needs verbs.old ≤ D.sectors device.old }
    requires file { operation.file.number < length (F.entries verbs.old) }
    requires entry { entry_at (F.entries verbs.old) operation.file.number
        ≡ entry_of tables.now one.now }
    requires spec { is_spec (spec_of one.now) ≡ true }
    requires verb { Suits (entry_of tables.now one.now) operation.verb }
    ensures changes { Changes F.Keeps D.Device result verbs.old device.old verbs.new device.new }
    ensures entries { F.entries verbs.new ≡ F.entries verbs.old }
    ensures lengths { map length areas.new ≡ map length areas.old }
    ensures asks { OnErr result
        (needs_no_store (F.entries verbs.old) (F.connectors verbs.old) operation.file.number
        operation.verb ≡ false) }
    ensures did { (files : Files) → Represents F.Keeps D.Device verbs.old device.old files →
        IfOk result (λ status. Did (places_of tables.now operation.file.number one.now)
        (meaning.step_by (F.entries verbs.old) (places_of tables.now operation.file.number one.now)
        operation.verb files
        (F.connectors verbs.old) areas.old)
        status (F.connectors verbs.old) (F.connectors verbs.new) areas.old areas.new) }
    ensures turns { (files : Files) → Represents F.Keeps D.Device verbs.old device.old files →
        ChangesFiles F.Keeps D.Device result (makes_file operation.verb) one.now.name files
        (meaning.step_by (F.entries verbs.old) (places_of tables.now operation.file.number one.now)
        operation.verb files
        (F.connectors verbs.old) areas.old).files
        verbs.old device.old verbs.new device.new }
    ensures full { (files : Files) → Represents F.Keeps D.Device verbs.old device.old files
        → (result ≡ Err StoreFault.Full) ⊎ (result ≡ Err StoreFault.Old) →
        has_changed operation.verb
        (meaning.step_by (F.entries verbs.old) (places_of tables.now operation.file.number
        one.now) operation.verb files (F.connectors verbs.old) areas.old).status ≡ true }
    ensures old { result ≡ Err StoreFault.Old → makes_file operation.verb ≡ true }
{
    let old = relative_number(areas, tables, one.relative_key);
    let mut number = old;
    let area = one.area as usize;
    areas.exchange(area, bytes);
    let performed = verbs.perform(
        device,
        operation.file.number as usize,
        operation.verb,
        bytes.as_mut_slice(),
        &mut number,
    );
    areas.exchange(area, bytes);
    match performed {
        Ok(status) => {
            leave(areas, tables, one, old, number, status);
            Ok(status)
        }
        Err(fault) => Err(fault),
    }
}

/// The verb as a program writes it, with the mode of an OPEN.
fn words_of(verb: Verb) -> &'static str {
    match verb {
        Verb::Open(OpenMode::Input) => "OPEN INPUT",
        Verb::Open(OpenMode::Output) => "OPEN OUTPUT",
        Verb::Open(OpenMode::InputOutput) => "OPEN I-O",
        Verb::Open(OpenMode::Extend) => "OPEN EXTEND",
        Verb::Close => "CLOSE",
        Verb::ReadNext | Verb::Read(_) => "READ",
        Verb::Write => "WRITE",
        Verb::Rewrite => "REWRITE",
        Verb::Delete => "DELETE",
        Verb::Start(..) => "START",
    }
}

/// The station hears that a status was received, and may then tell a person of the statement.
fn note<S: Station>(
    station: &mut S,
    file: FileIndex,
    status: Status,
    statement: &TracedStatement,
) -> Result<(), Ended>
    ensures sectors { S.sectors station.new ≡ S.sectors station.old }
    ensures honest { S.is_honest station.old ↔ S.is_honest station.new }
    ensures cause { IsCaused result (S.failures station.old) (S.failures station.new) }
    ensures refused { IfErr result IsRefused }
    ensures device { IfErr result (λ ended. ended ≡ Ended.Refused Refusal.Device) }
    ensures noted { S.is_honest station.old → OnOk result (S.state station.new ≡ state_after_note
        (S.state station.old) (record { file = file.number; status = bytes_of status })) }
    ensures unheard { S.is_honest station.old
        → OnErr result (S.state station.new ≡ S.state station.old) }
    ensures moves { S.is_honest station.old → Moves (S.history station.old) (S.state station.old)
        (S.history station.new) (S.state station.new) }
{
    let note = Note {
        file: file.number,
        status: status.bytes(),
    };
    match station.note(note) {
        Ok(()) => {
            station.trace(statement);
            Ok(())
        }
        Err(failed) => Err(Ended::Refused(Refusal::from(failed))),
    }
}
