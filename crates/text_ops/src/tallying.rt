//! INSPECT TALLYING.

ghost use Rattle.std.specs.Prelude.{◌≡◌, ◌<◌, ◌≤◌, ℕ, length, slice_index};
ghost use Rattle.text_ops.specs.Entries.{AreWithin};
ghost use Rattle.text_ops.specs.Walk.{AreActive, walk};
ghost use Rattle.text_ops.specs.Inspect as spec;

use crate::beginnings::beginnings;
use crate::entry::Entry;
use crate::front::fit_at_front;
use crate::progress::{Progress, begin};

/// Writes how often each entry fits (COBOL-85, Nucleus, the INSPECT statement with TALLYING). The entries' texts are spans of
/// `texts`; `room` is used up.
#[tactic(auto, unfolding(crate::specs::Inspect::tally))]
pub fn tally(
    texts: &[u8],
    entries: &[Entry],
    room: &mut [Progress],
    subject: &[u8],
    counts: &mut [u64],
)
    requires within { AreWithin entries.now (length texts.now) }
    requires room { length entries.now ≤ length room.old }
    requires counts { length counts.old ≡ length entries.now }
    ensures { (k : ℕ) → k < length entries.now
        → slice_index counts.new k ≡ spec.tally texts.now entries.now subject.now k }
{
    counts.fill(0);
    let (active, _) = room.split_at_mut(entries.len());
    begin(texts, entries, subject, active);
    count_fits(texts, active, subject, counts);
}

/// Adds one to its entry's count at each fit.
fn count_fits(texts: &[u8], active: &mut [Progress], subject: &[u8], counts: &mut [u64])
    requires within { AreActive active.old (length texts.now) }
    requires counts { length counts.old ≡ length active.old }
    requires zero { (k : ℕ) → k < length counts.old → slice_index counts.old k ≡ 0 }
    ensures { (k : ℕ) → k < length counts.old
        → slice_index counts.new k
        ≡ spec.count_of k (walk (length subject.now) texts.now active.old 0 subject.now) }
{
    let marks = beginnings(texts, active);
    let mut at = 0;
    while at < subject.len() {
        let (_, rest) = subject.split_at(at);
        match fit_at_front(texts, &marks, active, at, rest) {
            Ok(fitted) => {
                counts[fitted.number] += 1;
                at += fitted.progress.entry.fit.size();
            }
            Err(passed) => at += passed,
        }
    }
}
