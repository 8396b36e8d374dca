//! Console lines that are taken.

ghost use Rattle.std.specs.Prelude.{◌≡◌, ◌↔◌, ℕ, List, length, OnOk, OnErr, IfErr};
ghost use Rattle.station.specs.State.{took_line};
ghost use Rattle.station.specs.History.{Moves};
ghost use Rattle.station.specs.Failures.{CountsFailure};
ghost use Rattle.source_tree.specs.Accepting.{next_line};
ghost use Rattle.data_instructions.specs.Scratch.{Continues};
ghost use Rattle.data_instructions.specs.Table.{accept_step};
ghost use Rattle.data_machine.specs.Data.{scratch_of};
ghost use Rattle.machine.specs.declared.ended.Refusal.TheVariants.{Device};
ghost use Rattle.data_machine.specs.Comes.{KeepsRoom};
ghost use Rattle.data_machine.specs.Finds.{FindsItem, HasItemRoom};

use crate::ended::Refusal;
use data_instructions::DataTables;
use data_machine::{Data, cutting_law};
use station::Station;

/// Takes the console's next line and stores it at the newest place; past the end of input an empty one. Where that fails,
/// nothing was taken.
pub(crate) fn accept_line<S: Station>(
    station: &mut S,
    input: &mut [u8],
    tables: &DataTables,
    scratch: &mut Data,
) -> Result<(), Refusal>
    requires operand { FindsItem tables.now scratch.old.areas scratch.old.places.newest_first }
    requires room { HasItemRoom tables.now (length input.old) }
    ensures sectors { S.sectors station.new ≡ S.sectors station.old }
    ensures honest { S.is_honest station.old ↔ S.is_honest station.new }
    ensures failures { CountsFailure result (S.failures station.old) (S.failures station.new) }
    ensures device { IfErr result (λ refusal. refusal ≡ Device) }
    ensures taken { S.is_honest station.old
        → OnOk result (S.state station.new ≡ took_line (S.state station.old)) }
    ensures untaken { S.is_honest station.old
        → OnErr result (S.state station.new ≡ S.state station.old) }
    ensures moves { S.is_honest station.old → Moves (S.history station.old) (S.state station.old)
        (S.history station.new) (S.state station.new) }
    ensures stored { OnOk result ((line : List ℕ) × (accept_step tables.now line
        (scratch_of scratch.old) ≡ Continues (scratch_of scratch.new))) }
    ensures accepted { S.is_honest station.old
        → OnOk result (accept_step tables.now (next_line (S.state station.old).lines)
        (scratch_of scratch.old) ≡ Continues (scratch_of scratch.new)) }
    ensures keeps { OnOk result (KeepsRoom scratch.old scratch.new) }
{
    cutting_law();
    let taken = station.line(input)?;
    let count = taken.unwrap_or(0);
    scratch.accept(tables, &input[..count]);
    Ok(())
}
