//! Runs over a volume, and runs that leave it alone.

ghost use Rattle.std.specs.Prelude.{◌≡◌, ◌≢◌, ◌↔◌, [], All};
ghost use Rattle.half_store.specs.Half.{Holds as HoldsHalf};
ghost use Rattle.file_recovery.specs.Recovered.{HoldsFiles};
ghost use Rattle.records.specs.Files.{Files};
ghost use Rattle.source_tree.specs.Given.{given_on, given_over};
ghost use Rattle.source_tree.specs.Meaning.{Run};
ghost use Rattle.code_image.specs.Table.{Runs};
ghost use Rattle.file_image.specs.Files.{entries_of};
ghost use Rattle.machine.specs.Ends.{IsDigit};
ghost use Rattle.run_unit.specs.Alone.{RunsAlone};
ghost use Rattle.run_unit.specs.Ends.{HasCause, IsRun};
ghost use Rattle.run_unit.specs.Runs.{call_on, DamagedOnlyIfFound, RunsOverHeld};
ghost use Rattle.run_unit.specs.Volume.{RunsOnHalves, IsOfHalves, IsUnwritten, lacks_half, lacks_either};

use crate::ended::{Ended, Refusal};
use crate::no_volume::NoVolume;
use crate::over::{connect, run_over};
use alternate_keys::PagedStore;
use code_image::{Verified, run_law};
use half_store::{HalfStore, one_list_of_files};
use machine::Machine;
use records::StoreFault;
use station::Station;
use std::alloc::Global;

/// How many pages of a volume are kept in memory, besides those that a change takes.
const CACHED_PAGES: usize = 4096;

/// Runs code without files. No sector is written.
pub(crate) fn run_alone<S: Station>(
    alloc: Global,
    code: Verified,
    station: &mut S,
    day: [u8; 6],
    budget: u64,
) -> Ended
    requires day { All IsDigit day }
    requires files { code.files ≡ [] }
    ensures sectors { S.sectors station.new ≡ S.sectors station.old }
    ensures honest { S.is_honest station.old ↔ S.is_honest station.new }
    ensures cause { HasCause result (S.failures station.old) (S.failures station.new) }
    ensures run { IsRun result }
    ensures memory { result ≡ Ended.Refused Refusal.Memory → station.new ≡ station.old }
    ensures alone { S.is_honest station.old →
        (run : Run) → Runs code (given_on (S.state station.old) day budget) run →
        RunsAlone run (S.history station.old) (S.state station.old)
        result (S.history station.new) (S.state station.new) }
    ensures sound { result ≢ Ended.Refused Refusal.Damaged }
{
    run_law();
    let Ok(mut connectors) = connect(alloc, code.code(), NoVolume::new()) else {
        drop(code);
        return Ended::Refused(Refusal::Memory);
    };
    let Ok(machine) = Machine::new(alloc, code, day) else {
        drop(connectors);
        return Ended::Refused(Refusal::Memory);
    };
    let ended = Ended::of(machine.run(station, &mut connectors, budget));
    drop(connectors);
    ended
}

/// Opens a volume of halves and runs code over its files.
fn run_on_halves<S: Station>(
    alloc: Global,
    code: Verified,
    station: &mut S,
    day: [u8; 6],
    budget: u64,
) -> Ended
    requires day { All IsDigit day }
    ensures sectors { S.sectors station.new ≡ S.sectors station.old }
    ensures honest { S.is_honest station.old ↔ S.is_honest station.new }
    ensures cause { HasCause result (S.failures station.old) (S.failures station.new) }
    ensures run { IsRun result }
    ensures volume { S.is_honest station.old → RunsOverHeld HoldsHalf lacks_half code
        (call_on S.Device result day budget station.old station.new) }
    ensures halves { S.is_honest station.old → (run : Files → Run) →
        ((files : Files)
        → Runs code (given_over files (S.state station.old) day budget) (run files)) →
        RunsOnHalves (entries_of code.tables code.files) run (S.history station.old)
        (S.state station.old)
        result (S.history station.new) (S.state station.new) }
    ensures sound { S.is_honest station.old →
        (files : Files) → HoldsHalf (S.state station.old).disk.present files →
        result ≢ Ended.Refused Refusal.Damaged }
    ensures unwritten { S.is_honest station.old → result ≡ Ended.Refused Refusal.Damaged
        → IsUnwritten (S.state station.old) (S.state station.new) }
{
    one_list_of_files();
    match HalfStore::open(alloc, station) {
        Ok(store) => run_over(alloc, code, station, store, day, budget),
        Err(fault) => {
            drop(code);
            Ended::Refused(Refusal::of_opening(fault))
        }
    }
}

/// Opens the volume, of whichever store its newest root is, and runs code over its files.
pub(crate) fn run_on_volume<S: Station>(
    alloc: Global,
    code: Verified,
    station: &mut S,
    day: [u8; 6],
    budget: u64,
) -> Ended
    requires day { All IsDigit day }
    ensures sectors { S.sectors station.new ≡ S.sectors station.old }
    ensures honest { S.is_honest station.old ↔ S.is_honest station.new }
    ensures cause { HasCause result (S.failures station.old) (S.failures station.new) }
    ensures run { IsRun result }
    ensures volume { S.is_honest station.old → RunsOverHeld HoldsFiles lacks_either code
        (call_on S.Device result day budget station.old station.new) }
    ensures halves { S.is_honest station.old → IsOfHalves (S.state station.old).disk.present →
        (run : Files → Run) →
        ((files : Files)
        → Runs code (given_over files (S.state station.old) day budget) (run files)) →
        RunsOnHalves (entries_of code.tables code.files) run (S.history station.old)
        (S.state station.old)
        result (S.history station.new) (S.state station.new) }
    ensures sound { S.is_honest station.old →
        (files : Files) → HoldsFiles (S.state station.old).disk.present files →
        result ≢ Ended.Refused Refusal.Damaged }
    ensures unwritten { DamagedOnlyIfFound S.Device (result ≡ Ended.Refused Refusal.Damaged)
        station.old station.new }
{
    match PagedStore::open(alloc, station, CACHED_PAGES) {
        Ok(store) => run_over(alloc, code, station, store, day, budget),
        Err(fault) => match fault {
            StoreFault::Layout => run_on_halves(alloc, code, station, day, budget),
            other => {
                drop(code);
                Ended::Refused(Refusal::of_opening(other))
            }
        },
    }
}
