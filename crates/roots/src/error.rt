//! Why no root is read.
ghost use Rattle.std.specs.Prelude.{◌≡◌};

use crate::pair::RootsFault;
use station::DeviceError;
use thiserror::Error;

#[derive(Clone, Copy, Debug, PartialEq, Eq, Error)]
pub enum RootsError {
    #[error("the device failed")]
    Device,
    /// The device has no root for the reader.
    #[error("the roots are damaged or of another format")]
    Roots(RootsFault),
}

impl From<DeviceError> for RootsError {
    ghost use Rattle.std.specs.Prelude.{◌≡◌};
    ghost use Rattle.roots.specs.declared.error.RootsError.TheVariants.{Device};

    ghost from_gives = { λ _ e. e ≡ Device };

    fn from(_: DeviceError) -> RootsError {
        RootsError::Device
    }
}
