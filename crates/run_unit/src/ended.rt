//! How a run ends.

ghost use Rattle.std.specs.Prelude.{◌≡◌};
ghost use Rattle.run_unit.specs.Ends.{number_of, ended_of, refusal_of, of_opening};

use code_image::{ImageError, ImageFault};
use data_instructions::ProgramFault;
use records::StoreFault;
use std::alloc::AllocError;
use thiserror::Error;

/// What ended a run that its program didn't end.
#[derive(Clone, Copy, Debug, PartialEq, Eq, Error)]
pub enum Refusal {
    /// 70 to 74: the bytes are no image that can be run.
    #[error("the bytes are no image that can be run")]
    Image(ImageFault),
    /// 80.
    #[error("the device failed")]
    Device,
    /// 81.
    #[error("the volume is full")]
    Full,
    /// 82.
    #[error("the volume is damaged")]
    Damaged,
    /// 83.
    #[error("out of memory")]
    Memory,
    /// 87.
    #[error("the volume has an earlier mark, and cannot have the file")]
    Old,
}

impl Refusal {
    /// The number that the product prints.
    pub fn number(self) -> u8
        ensures { result ≡ number_of self }
    {
        match self {
            Refusal::Image(fault) => fault.number(),
            Refusal::Device => machine::Refusal::Device.number(),
            Refusal::Full => machine::Refusal::Full.number(),
            Refusal::Damaged => machine::Refusal::Damaged.number(),
            Refusal::Memory => machine::Refusal::Memory.number(),
            Refusal::Old => machine::Refusal::Old.number(),
        }
    }
}

impl Refusal {
    /// Why a machine's run was given up.
    fn of(refusal: machine::Refusal) -> Refusal
        ensures { result ≡ refusal_of refusal }
    {
        match refusal {
            machine::Refusal::Device => Refusal::Device,
            machine::Refusal::Full => Refusal::Full,
            machine::Refusal::Damaged => Refusal::Damaged,
            machine::Refusal::Memory => Refusal::Memory,
            machine::Refusal::Old => Refusal::Old,
        }
    }

    /// Why a volume isn't opened. One that each store takes for the other's counts as damaged.
    pub(crate) fn of_opening(fault: StoreFault) -> Refusal
        ensures { result ≡ of_opening fault }
    {
        match fault {
            StoreFault::Device => Refusal::Device,
            StoreFault::Memory => Refusal::Memory,
            StoreFault::Full
            | StoreFault::Damaged
            | StoreFault::Spent
            | StoreFault::Layout
            | StoreFault::Old => Refusal::Damaged,
        }
    }
}

impl From<ImageError> for Refusal {
    ghost use Rattle.std.specs.Prelude.{◌≡◌};
    ghost use Rattle.run_unit.specs.Ends.{from_image};

    ghost from_gives = { λ error refusal. refusal ≡ from_image error };

    fn from(error: ImageError) -> Refusal {
        match error {
            ImageError::Memory => Refusal::Memory,
            ImageError::Refused(fault) => Refusal::Image(fault),
        }
    }
}

impl From<AllocError> for Refusal {
    ghost use Rattle.std.specs.Prelude.{◌≡◌};
    ghost use Rattle.run_unit.specs.declared.ended.Refusal.TheVariants.{Memory};

    ghost from_gives = { λ _ refusal. refusal ≡ Memory };

    fn from(_: AllocError) -> Refusal {
        Refusal::Memory
    }
}

/// How a run ended.
#[derive(Clone, Copy, Debug, PartialEq, Eq)]
pub enum Ended {
    /// By STOP RUN, or after the last paragraph.
    Stopped,
    /// A statement was to begin, and the budget was used up.
    Budget,
    /// 90 to 93: the statement that began in this line of the source did something wrong.
    Faulted { fault: ProgramFault, line: u32 },
    /// The run was given up, or never began.
    Refused(Refusal),
}

impl Ended {
    /// How a machine's run ended.
    pub(crate) fn of(ended: machine::Ended) -> Ended
        ensures { result ≡ ended_of ended }
    {
        match ended {
            machine::Ended::Stopped => Ended::Stopped,
            machine::Ended::Budget => Ended::Budget,
            machine::Ended::Faulted { fault, line } => Ended::Faulted { fault, line },
            machine::Ended::Refused(refusal) => Ended::Refused(Refusal::of(refusal)),
        }
    }
}
