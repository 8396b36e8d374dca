//! What a run does with what is outside of it.

ghost use Rattle.std.specs.Prelude.{◌≡◌, ◌<◌, ◌+◌, ◌↔◌, length, slice_get, Some, OnOk, IfErr};
ghost use Rattle.code_image.specs.Demands.{IsVerified};
ghost use Rattle.machine.specs.Ends.{IsOwnEnd};
ghost use Rattle.machine.specs.Standing.{IsReadyAt};
ghost use Rattle.machine.specs.Progress.{IsOutside, StaysBetween, ActsOn, IsCaused};

use crate::accept_statement::accept_line;
use crate::ended::Ended;
use crate::registers::Registers;
use crate::show::show_line;
use code_image::{Code, Instruction};
use station::Station;

/// Shows the line, takes a line of the console, or is told the day: the instruction at an address.
pub(crate) fn converse<S: Station>(
    code: &Code,
    day: &[u8],
    registers: &mut Registers,
    station: &mut S,
    address: usize,
    one: Instruction,
) -> Result<(), Ended>
    requires verified { IsVerified code.now }
    requires here { slice_get code.now.instructions address ≡ Some one }
    requires outside { IsOutside one }
    requires stands { IsReadyAt code.now registers.old address }
    requires day { length day.now ≡ 6 }
    ensures sectors { S.sectors station.new ≡ S.sectors station.old }
    ensures honest { S.is_honest station.old ↔ S.is_honest station.new }
    ensures cause { IsCaused result (S.failures station.old) (S.failures station.new) }
    ensures within { address + 1 < length code.now.instructions }
    ensures stands { OnOk result (IsReadyAt code.now registers.new (address + 1)) }
    ensures returns { registers.new.returns ≡ registers.old.returns }
    ensures own { IfErr result IsOwnEnd }
    ensures moments { StaysBetween S.Device code.now day.now address registers.old station.old
        station.new }
    ensures on { ActsOn S.Device code.now day.now address result registers.old registers.new
        station.old station.new }
{
    match one {
        Instruction::Show => match show_line(station, &mut registers.scratch) {
            Ok(()) => Ok(()),
            Err(refusal) => Err(Ended::Refused(refusal)),
        },
        Instruction::Accept => {
            let input = registers.input.as_mut_slice();
            match accept_line(station, input, &code.tables, &mut registers.scratch) {
                Ok(()) => Ok(()),
                Err(refusal) => Err(Ended::Refused(refusal)),
            }
        }
        Instruction::Date => match registers.scratch.date(&code.tables, day) {
            Ok(()) => Ok(()),
            Err(fault) => {
                let line = registers.line;
                Err(Ended::Faulted { fault, line })
            }
        },
        _ => unreachable!(),
    }
}
