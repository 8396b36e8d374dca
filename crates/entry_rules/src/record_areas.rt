//! Rule 48 of the record areas of files, which follow the areas of working storage.

ghost use Rattle.std.specs.Prelude.{◌≡◌};
ghost use Rattle.entry_rules.specs.Areas.{past_rules};
ghost use Rattle.entry_rules.specs.Checks.{IsFirstBreach};
ghost use Rattle.entry_rules.specs.RecordAreas as spec;

use crate::rule::{BrokenRule, Rule};
use crate::storage::MOST_STORAGE;
use source_tree::Place;

/// The record areas so far.
#[derive(Clone, Copy)]
pub struct RecordAreas {
    /// The bytes of all areas so far, those of working storage among them.
    pub bytes: u64,
    /// Where the first file is described whose record area goes past the limit.
    pub past: Option<Place>,
}

impl RecordAreas {
    /// No record area, after so many bytes of working storage.
    pub fn after(bytes: u64) -> RecordAreas
        ensures { result ≡ spec.areas_of_bytes bytes }
    {
        RecordAreas { bytes, past: None }
    }

    /// With the record area of one more file, which is described at that place. After the first that goes past the limit
    /// nothing is counted.
    pub fn with(self, place: Place, bytes: u32) -> RecordAreas
        requires { spec.IsWithinLimit self.past self.bytes }
        ensures { result ≡ spec.with self place bytes }
    {
        if self.past.is_some() {
            return self;
        }
        let bytes = self.bytes + u64::from(bytes);
        RecordAreas {
            bytes,
            past: if bytes > MOST_STORAGE {
                Some(place)
            } else {
                None
            },
        }
    }

    /// No area goes past the limit.
    pub fn rules(self) -> Result<(), BrokenRule>
        ensures { IsFirstBreach result (past_rules self.past) }
    {
        match self.past {
            Some(place) => Rule::Size.broken_if(true, place),
            None => Ok(()),
        }
    }
}
