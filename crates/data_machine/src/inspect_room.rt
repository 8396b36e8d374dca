//! The room of INSPECT.

ghost use Rattle.std.specs.Prelude.{◌≡◌, ◌<◌, ◌≤◌, ℕ, [], length, reverse, slice_get, slice_index, Some, IfOk};
ghost use Rattle.text_ops.specs.Inspect.{tally, replaced_subject};
ghost use Rattle.text_ops.specs.Entries.{AreWithin};
ghost use Rattle.data_instructions.specs.Table.{measured_inspection};
ghost use Rattle.data_instructions.specs.Tables.{IsInspection};
ghost use Rattle.data_instructions.specs.declared.tables.Inspection.{Inspection};
ghost use Rattle.data_machine.specs.Inspecting.{CountsEach, SameRoom};

use crate::buffer::Buffer;
use crate::measuring::{measure, measured};
use data_instructions::Inspection;
use decimal18::Dec;
use std::alloc::{AllocError, Global};
use text_ops::{Entry, Fit, Progress, tally};

// What fills the room of entries; it is never read.
const NO_ENTRY: Entry = Entry {
    fit: Fit::Characters,
    before: None,
    after: None,
    by: None,
};

const NO_PROGRESS: Progress = Progress {
    entry: NO_ENTRY,
    first: 0,
    limit: 0,
};

/// Room for entries that are measured, for entries on their way, how often each fits, and the text that is replaced.
#[derive(Drop)]
pub struct InspectRoom {
    pub entries: Vec<Entry>,
    pub progress: Vec<Progress>,
    pub counts: Vec<u64>,
    pub text: Buffer,
}

/// The most entries of a phrase.
pub fn most_entries(inspections: &[Inspection]) -> usize
    ensures tallying { (k : ℕ) (one : Inspection) → slice_get inspections.now k ≡ Some one
        → length one.tallying ≤ result }
    ensures replacing { (k : ℕ) (one : Inspection) → slice_get inspections.now k ≡ Some one
        → length one.replacing ≤ result }
{
    let mut most = 0;
    for one in inspections {
        most = most.max(one.tallying.len()).max(one.replacing.len());
    }
    most
}

/// Writes how often each entry of TALLYING fits to the front of the counts.
fn count_each(
    entries: &[Entry],
    texts: &[u8],
    subject: &[u8],
    progress: &mut [Progress],
    counts: &mut [u64],
)
    requires within { AreWithin entries.now (length texts.now) }
    requires progress { length entries.now ≤ length progress.old }
    requires counts { length entries.now ≤ length counts.old }
    ensures { (k : ℕ) → k < length entries.now
        → slice_index counts.new k ≡ tally texts.now entries.now subject.now k }
{
    let (counts, _) = counts.split_at_mut(entries.len());
    tally(texts, entries, progress, subject, counts);
}

impl InspectRoom {
    /// Room for so many entries, and for a text of so many bytes.
    pub fn new(alloc: Global, entries: usize, bytes: usize) -> Result<InspectRoom, AllocError>
        ensures entries { IfOk result (λ room. length room.entries.items ≡ entries) }
        ensures progress { IfOk result (λ room. length room.progress.items ≡ entries) }
        ensures counts { IfOk result (λ room. length room.counts.items ≡ entries) }
        ensures text { IfOk result (λ room. room.text ≡ record { room = bytes; bytes = [] }) }
    {
        let measured = vec![in alloc; NO_ENTRY; entries]?;
        let progress = vec![in alloc; NO_PROGRESS; entries]?;
        let counts = vec![in alloc; 0; entries]?;
        let text = Buffer::new(alloc, bytes)?;
        Ok(InspectRoom {
            entries: measured,
            progress,
            counts,
            text,
        })
    }

    /// Counts in a text, and replaces in a copy of it, with the lengths that the numbers have.
    pub fn inspect(
        &mut self,
        one: &Inspection,
        numbers: &[Option<Dec>],
        texts: &[u8],
        subject: &[u8],
    )
        requires form { IsInspection one.now }
        requires size { length texts.now ≡ one.now.size }
        requires tallied { length one.now.tallying ≤ length self.old.entries.items }
        requires replaced { length one.now.replacing ≤ length self.old.entries.items }
        requires tallying { length one.now.tallying ≤ length self.old.progress.items }
        requires replacing { length one.now.replacing ≤ length self.old.progress.items }
        requires counts { length one.now.tallying ≤ length self.old.counts.items }
        requires text { length subject.now ≤ self.old.text.room }
        ensures counts { CountsEach (length one.now.tallying) self.new.counts.items texts.now
            (measured_inspection (reverse numbers.now) one.now).tallying subject.now }
        ensures text { self.new.text.bytes ≡ replaced_subject texts.now
            (measured_inspection (reverse numbers.now) one.now).replacing subject.now }
        ensures size { length self.new.text.bytes ≡ length subject.now }
        ensures room { SameRoom self.old self.new }
    {
        let tallying = one.tallying.as_slice();
        measure(numbers, tallying, self.entries.as_mut_slice());
        let tallying = measured(numbers, tallying, self.entries.as_slice());
        let progress = self.progress.as_mut_slice();
        count_each(
            tallying,
            texts,
            subject,
            progress,
            self.counts.as_mut_slice(),
        );
        let replacing = one.replacing.as_slice();
        measure(numbers, replacing, self.entries.as_mut_slice());
        let replacing = measured(numbers, replacing, self.entries.as_slice());
        self.text.clear();
        self.text.append(subject);
        self.text
            .replace(texts, replacing, self.progress.as_mut_slice());
    }
}
