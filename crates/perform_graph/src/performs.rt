//! The PERFORMs of each paragraph.

ghost use Rattle.std.specs.Prelude.{◌≡◌, ◌<◌, All, IfOk, MatchOption, length, slice_index_or};
ghost use Rattle.perform_graph.specs.Order.{IsRange};
ghost use Rattle.perform_graph.specs.Grouped.{IsGrouped};
ghost use Rattle.perform_graph.specs.Walk.{AllPlaced, HasGoneOver, HasNext};

use crate::performed::PerformedRange;
use crate::progress::{Progress, first_unplaced};
use crate::visit::Visit;
use std::alloc::{AllocError, Global};

/// PERFORMs, by the paragraphs that they stand in.
#[derive(Drop)]
pub struct Performs<'a> {
    performed: &'a [PerformedRange],
    /// The last PERFORM of each paragraph.
    last: Vec<Option<usize>>,
    /// For each PERFORM the one before it in its paragraph.
    before: Vec<Option<usize>>,
}

impl<'a> Performs<'a> {
    /// The PERFORMs of so many paragraphs.
    pub fn new(
        alloc: Global,
        count: usize,
        performed: &'a [PerformedRange],
    ) -> Result<Performs<'a>, AllocError>
        requires { All (IsRange count) performed.now }
        ensures performed { IfOk result (λ performs. performs.performed.now ≡ performed.entry.now) }
        ensures grouped { IfOk result (λ performs.
            IsGrouped count performed.entry.now performs.last.items performs.before.items) }
    {
        let mut last = vec![in alloc; None; count]?;
        let mut before = Vec::new(alloc);
        for (number, one) in performed.iter().enumerate() {
            before.push(last[one.performer])?;
            last[one.performer] = Some(number);
        }
        Ok(Performs {
            performed,
            last,
            before,
        })
    }

    /// A visit that begins.
    pub fn visit(&self, paragraph: usize) -> Visit
        requires { paragraph < length self.now.last.items }
        ensures paragraph { result.paragraph ≡ paragraph }
        ensures at { result.at ≡ slice_index_or self.now.last.items paragraph None }
        ensures next { result.next ≡ 0 }
    {
        Visit {
            paragraph,
            at: self.last[paragraph],
            next: 0,
        }
    }

    /// The visit, moved on to the next paragraph that isn't placed, if there is one that it performs.
    pub fn moved(&self, states: &[Progress], mut visit: Visit) -> Option<Visit>
        requires ranges { All (IsRange (length states.now)) self.now.performed.now }
        requires grouped { IsGrouped (length states.now) self.now.performed.now self.now.last.items
            self.now.before.items }
        requires over { HasGoneOver self.now.performed.now states.now visit }
        ensures { MatchOption result (AllPlaced self.now.performed.now states.now visit.paragraph)
            (HasNext self.now.performed.now states.now visit.paragraph) }
    {
        'performs: while let Some(at) = visit.at {
            let one = self.performed[at];
            if let Some(next) = first_unplaced(states, one.first.max(visit.next), one.last) {
                visit.next = next;
                return Some(visit);
            }
            visit.at = self.before[at];
            visit.next = 0;
        }
        None
    }
}
