//! A refusal of the pages, as it is reported.
ghost use Rattle.std.specs.Prelude.{◌≡◌};
ghost use Rattle.volume_format.specs.Faults.{fault_of};

use pages::PagesError;
use records::StoreFault;

/// What a refusal of the pages is to the user.
pub fn to_fault(error: PagesError) -> StoreFault
    ensures { result ≡ fault_of error }
{
    match error {
        PagesError::Device => StoreFault::Device,
        PagesError::Full => StoreFault::Full,
        PagesError::Damaged => StoreFault::Damaged,
        PagesError::Memory => StoreFault::Memory,
        PagesError::Spent => StoreFault::Spent,
        PagesError::ForeignMark => StoreFault::Layout,
    }
}
