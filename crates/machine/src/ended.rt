//! How a run ends.

ghost use Rattle.std.specs.Prelude.{◌≡◌, ◌≢◌};
ghost use Rattle.records.specs.declared.fault.StoreFault.TheVariants.{Spent, Layout};
ghost use Rattle.machine.specs.Ends.{number_of};
ghost use Rattle.machine.specs.Filing.{store_fault};

use data_instructions::ProgramFault;
use records::StoreFault;
use station::DeviceError;
use thiserror::Error;

/// What ended a run that its program didn't end.
#[derive(Clone, Copy, Debug, Error)]
pub enum Refusal {
    #[error("the device failed")]
    Device,
    #[error("the volume is full")]
    Full,
    #[error("the volume is damaged")]
    Damaged,
    #[error("out of memory")]
    Memory,
    #[error("the volume has an earlier mark, and cannot have the file")]
    Old,
}

/// The numbers that the product prints.
const DEVICE: u8 = 80;

const FULL: u8 = 81;

const DAMAGED: u8 = 82;

const MEMORY: u8 = 83;

const OLD: u8 = 87;

impl Refusal {
    /// The number that the product prints.
    pub fn number(self) -> u8
        ensures { result ≡ number_of self }
    {
        match self {
            Refusal::Device => DEVICE,
            Refusal::Full => FULL,
            Refusal::Damaged => DAMAGED,
            Refusal::Memory => MEMORY,
            Refusal::Old => OLD,
        }
    }
}

/// The refusal of a file statement. No store is spent before a refusal, and none has another layout.
pub(crate) fn refusal_of(fault: StoreFault) -> Refusal
    requires whole { fault ≢ Spent }
    requires layout { fault ≢ Layout }
    ensures { fault ≡ store_fault result }
{
    match fault {
        StoreFault::Device => Refusal::Device,
        StoreFault::Full => Refusal::Full,
        StoreFault::Damaged => Refusal::Damaged,
        StoreFault::Memory => Refusal::Memory,
        StoreFault::Old => Refusal::Old,
        StoreFault::Spent | StoreFault::Layout => unreachable!(),
    }
}

impl From<DeviceError> for Refusal {
    ghost use Rattle.std.specs.Prelude.{◌≡◌};
    ghost use Rattle.machine.specs.declared.ended.Refusal.TheVariants.{Device};

    ghost from_gives = { λ _ refusal. refusal ≡ Device };

    fn from(_: DeviceError) -> Refusal {
        Refusal::Device
    }
}

/// How a run ended.
#[derive(Clone, Copy)]
pub enum Ended {
    /// By STOP RUN, or after the last paragraph.
    Stopped,
    /// A statement was to begin, and the budget was used up.
    Budget,
    /// The statement that began in this line of the source did something wrong.
    Faulted { fault: ProgramFault, line: u32 },
    /// The run was given up.
    Refused(Refusal),
}
