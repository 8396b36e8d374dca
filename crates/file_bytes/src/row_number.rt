//! The number of a row.
ghost use Rattle.std.specs.Prelude.{◌≡◌, true, false};
ghost use Rattle.records.specs.Changes.{new_number};
ghost use Rattle.records.specs.Files.{IsRowNumber};

use records::Organization;

/// The number of a new row, in a file whose next WRITE gives this arrival.
pub fn number_of_new(organization: Organization, number: u64, arrival: u64) -> u64
    ensures { result ≡ new_number organization number arrival }
{
    match organization {
        Organization::Sequential => arrival,
        Organization::Relative => number,
        Organization::Indexed(_) => 0,
    }
}

/// Whether a row may have this number.
pub(crate) fn is_row_number(organization: Organization, next: u64, number: u64) -> bool
    ensures yes { result ≡ true → IsRowNumber organization next number }
    ensures no { result ≡ false → IsRowNumber organization next number → ⊥ }
{
    match organization {
        Organization::Sequential => 1 <= number && number < next,
        Organization::Relative => 1 <= number && number <= 999_999_999,
        Organization::Indexed(_) => number == 0,
    }
}
