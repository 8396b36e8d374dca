//! Why a command on a volume is refused.
ghost use Rattle.std.specs.Prelude.{◌≡◌};
ghost use Rattle.volume_commands.specs.Faults.{number_of, error_of};

use records::StoreFault;
use std::alloc::AllocError;
use thiserror::Error;

/// Why a command on a volume is refused.
#[derive(Clone, Copy, Debug, PartialEq, Eq, Error)]
pub enum VolumeError {
    /// 80.
    #[error("the device failed")]
    Device,
    /// 80: the writer failed.
    #[error("the output failed")]
    Output,
    /// 82: the volume holds no files.
    #[error("the volume is damaged")]
    Damaged,
    /// 83.
    #[error("out of memory")]
    Memory,
}

const OUTPUT: u8 = 80;

impl VolumeError {
    /// The number that the product prints.
    pub fn number(self) -> u8
        ensures { result ≡ number_of self }
    {
        match self {
            VolumeError::Device => StoreFault::Device.number(),
            VolumeError::Output => OUTPUT,
            VolumeError::Damaged => StoreFault::Damaged.number(),
            VolumeError::Memory => StoreFault::Memory.number(),
        }
    }

    /// What a refusal of recovery is to a command.
    pub(crate) fn of(fault: StoreFault) -> VolumeError
        ensures { result ≡ error_of fault }
    {
        match fault {
            StoreFault::Device => VolumeError::Device,
            StoreFault::Memory => VolumeError::Memory,
            StoreFault::Full
            | StoreFault::Damaged
            | StoreFault::Spent
            | StoreFault::Layout
            | StoreFault::Old => VolumeError::Damaged,
        }
    }
}

impl From<AllocError> for VolumeError {
    ghost use Rattle.std.specs.Prelude.{◌≡◌};
    ghost use Rattle.volume_commands.specs.declared.volume_error.VolumeError.TheVariants.{Memory};

    ghost from_gives = { λ _ error. error ≡ Memory };

    fn from(_: AllocError) -> VolumeError {
        VolumeError::Memory
    }
}
