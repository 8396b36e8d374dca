//! What became of a change of a row.

use records::Outcome;
use std::alloc::Global;

/// The outcome and, where it tells of a change, what the catalog is to say of the file then.
#[derive(Drop)]
pub(crate) struct RowTurn {
    pub(crate) outcome: Outcome,
    pub(crate) listing: Vec<u8>,
}

impl RowTurn {
    ghost use Rattle.std.specs.Prelude.{◌≡◌};

    /// Nothing has changed.
    pub(crate) fn none(alloc: Global, outcome: Outcome) -> RowTurn
        ensures { result.outcome ≡ outcome }
    {
        RowTurn {
            outcome,
            listing: Vec::new(alloc),
        }
    }
}
