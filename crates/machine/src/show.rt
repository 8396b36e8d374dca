//! Shown bytes.

ghost use Rattle.std.specs.Prelude.{◌≡◌, ◌↔◌, OnOk, IfErr};
ghost use Rattle.station.specs.State.{state_after_show};
ghost use Rattle.station.specs.History.{Through, HasShownSome};
ghost use Rattle.station.specs.Failures.{CountsFailure};
ghost use Rattle.data_instructions.specs.Table.{after_showing};
ghost use Rattle.data_machine.specs.Data.{scratch_of};
ghost use Rattle.machine.specs.declared.ended.Refusal.TheVariants.{Device};
ghost use Rattle.data_machine.specs.Comes.{KeepsRoom};

use crate::ended::Refusal;
use data_machine::Data;
use station::Station;

/// Shows the line, which is empty then. Where that fails, some of it may have been shown.
pub(crate) fn show_line<S: Station>(station: &mut S, scratch: &mut Data) -> Result<(), Refusal>
    ensures sectors { S.sectors station.new ≡ S.sectors station.old }
    ensures honest { S.is_honest station.old ↔ S.is_honest station.new }
    ensures failures { CountsFailure result (S.failures station.old) (S.failures station.new) }
    ensures device { IfErr result (λ refusal. refusal ≡ Device) }
    ensures shown { S.is_honest station.old → OnOk result
        (S.state station.new ≡ state_after_show (S.state station.old) scratch.old.line.bytes) }
    ensures moments { S.is_honest station.old →
        Through (S.history station.old) (S.history station.new) (S.state station.new)
        (HasShownSome (S.state station.old) scratch.old.line.bytes) }
    ensures empty { OnOk result (scratch_of scratch.new ≡ after_showing (scratch_of scratch.old)) }
    ensures keeps { OnOk result (KeepsRoom scratch.old scratch.new) }
{
    show(station, scratch.line.bytes())?;
    scratch.end_line();
    Ok(())
}

/// Shows bytes. Where that fails, some of them may have been shown.
fn show<S: Station>(station: &mut S, bytes: &[u8]) -> Result<(), Refusal>
    ensures sectors { S.sectors station.new ≡ S.sectors station.old }
    ensures honest { S.is_honest station.old ↔ S.is_honest station.new }
    ensures failures { CountsFailure result (S.failures station.old) (S.failures station.new) }
    ensures device { IfErr result (λ refusal. refusal ≡ Device) }
    ensures shown { S.is_honest station.old
        → OnOk result (S.state station.new ≡ state_after_show (S.state station.old) bytes.now) }
    ensures moments { S.is_honest station.old →
        Through (S.history station.old) (S.history station.new) (S.state station.new)
        (HasShownSome (S.state station.old) bytes.now) }
{
    station.show(bytes)?;
    Ok(())
}
