//! Runs over a store of files.

ghost use Rattle.std.specs.Prelude.{◌≡◌, ◌≢◌, ◌≤◌, ◌↔◌, Bool, false, ℕ, List, All, IfOk, IfErr};
ghost use Rattle.station.specs.Disk.{Disk, Sector};
ghost use Rattle.records.specs.Files.{Files};
ghost use Rattle.records.specs.declared.fault.StoreFault.{StoreFault};
ghost use Rattle.records.specs.Calls.{Represents, OnStoredFiles};
ghost use Rattle.file_image.specs.Files.{entries_of};
ghost use Rattle.source_tree.specs.Given.{given_over};
ghost use Rattle.source_tree.specs.Meaning.{Run};
ghost use Rattle.code_image.specs.Demands.{IsVerified};
ghost use Rattle.code_image.specs.Points.{all_closed};
ghost use Rattle.code_image.specs.Table.{Runs};
ghost use Rattle.machine.specs.Ends.{IsDigit, LacksForChange};
ghost use Rattle.run_unit.specs.Ends.{HasCause, IsRun};
ghost use Rattle.run_unit.specs.Volume.{RunsOver};
ghost use Rattle.run_unit.specs.declared.ended.Refusal.TheVariants.{Memory};

use crate::ended::{Ended, Refusal};
use code_image::{Code, Verified, run_law};
use file_image::select_of;
use file_verbs::Connectors;
use machine::Machine;
use records::{FileVerbs, Keeps, Store};
use station::Station;
use std::alloc::Global;

/// Connectors to the files of code, all closed, over a store.
pub(crate) fn connect<T: Store + Drop>(
    alloc: Global,
    code: &Code,
    store: T,
) -> Result<Connectors<T>, Refusal>
    requires { IsVerified code.now }
    ensures entries { IfOk result (λ all.
        ⟦<Connectors<T> as FileVerbs>⟧.entries all ≡ entries_of code.now.tables code.now.files) }
    ensures connectors { IfOk result (λ all.
        ⟦<Connectors<T> as FileVerbs>⟧.connectors all ≡ all_closed code.now) }
    ensures needs { IfOk result (λ all. ⟦<Connectors<T> as Keeps>⟧.needs all ≡ T.needs store) }
    ensures spent { IfOk result
        (λ all. ⟦<Connectors<T> as Keeps>⟧.is_spent all ≡ T.is_spent store) }
    ensures holds { (image : List Sector) (files : Files) →
        ⟦<Connectors<T> as Keeps>⟧.holds image files → T.holds image files }
    ensures stands { IfOk result (λ all. (disk : Disk) (files : Files) →
        T.stands store disk files → ⟦<Connectors<T> as Keeps>⟧.stands all disk files) }
    ensures lacks { (fault : StoreFault) (image : List Sector) (is_new : Bool) (name : List ℕ)
        (before after : Files) →
        ⟦<Connectors<T> as Keeps>⟧.lacks fault image is_new name before after
        → T.lacks fault image is_new name before after }
    ensures memory { IfErr result (λ refusal. refusal ≡ Memory) }
{
    let mut connectors = Connectors::new(alloc, store);
    for file in code.files.as_slice() {
        let select = select_of(alloc, &code.tables, file)?;
        let Ok(()) = connectors.add(select) else {
            return Err(Refusal::Memory);
        };
    }
    Ok(connectors)
}

/// Runs code over the files of a store, with a budget of one for each statement. The day is six ASCII digits, YYMMDD.
///
/// `Refused` by 80 where the station failed, by 83 where memory runs out, before the run or in a file statement, by 81 where the
/// store has no room for a change, and by 87 where its mark is too early for a file that an OPEN would make.
pub fn run_over<S: Station, T: Store + Drop>(
    alloc: Global,
    code: Verified,
    station: &mut S,
    store: T,
    day: [u8; 6],
    budget: u64,
) -> Ended
    requires day { All IsDigit day }
    requires needs { T.needs store ≤ S.sectors station.old }
    requires whole { T.is_spent store ≡ false }
    ensures sectors { S.sectors station.new ≡ S.sectors station.old }
    ensures honest { S.is_honest station.old ↔ S.is_honest station.new }
    ensures cause { HasCause result (S.failures station.old) (S.failures station.new) }
    // The code isn't refused.
    ensures run { IsRun result }
    // At each moment the files are those after the statuses that were received, or after one more, which is in progress. After the
    // program's own end they are the last, and the events are all of the run's. 81 and 87 come only in a statement that would change
    // files, on a disk that lacks room, or the mark, for that.
    ensures runs { (files : Files) → Represents T.Keeps S.Device store station.old files →
        (run : Run) → Runs code (given_over files (S.state station.old) day budget) run →
        RunsOver T.holds (LacksForChange T.lacks (entries_of code.tables code.files)) run
        (S.history station.old) (S.state station.old)
        result (S.history station.new) (S.state station.new) }
    // 82 isn't reported of files that the store stands for.
    ensures sound { OnStoredFiles T.Keeps S.Device store station.old
        (λ files. result ≢ Ended.Refused Refusal.Damaged) }
{
    run_law();
    let mut connectors = match connect(alloc, code.code(), store) {
        Ok(connectors) => connectors,
        Err(refusal) => {
            drop(code);
            return Ended::Refused(refusal);
        }
    };
    let Ok(machine) = Machine::new(alloc, code, day) else {
        drop(connectors);
        return Ended::Refused(Refusal::Memory);
    };
    let ended = Ended::of(machine.run(station, &mut connectors, budget));
    drop(connectors);
    ended
}
