//! The walk along the PERFORMs.

ghost use Rattle.std.specs.Prelude.{◌≡◌, ◌+◌, ◌<◌, ◌∷◌, ◌++◌, [], All, IfOk, OnOk, MatchOption, length, replicate, slice_set, drop};
ghost use Rattle.perform_graph.specs.declared.progress.Progress.TheVariants.{Unseen, Open, Placed};
ghost use Rattle.perform_graph.specs.Order.{IsRange};
ghost use Rattle.perform_graph.specs.Grouped.{IsGrouped};
ghost use Rattle.perform_graph.specs.Walk.{IsCycle, IsWalked, IsWalkState, IsLaterWalkState, state};

use crate::performs::Performs;
use crate::progress::Progress;
use crate::visit::Visit;
use std::alloc::{AllocError, Global};

/// A walk along the PERFORMs, depth first.
#[derive(Drop)]
pub struct Walk {
    pub states: Vec<Progress>,
    /// From where the walk began to where it is: each performs the one after it.
    pub path: Vec<Visit>,
    /// How many paragraphs are placed.
    placed: usize,
}

impl Walk {
    /// A walk that has seen none of so many paragraphs.
    pub fn new(alloc: Global, count: usize) -> Result<Walk, AllocError>
        ensures states { IfOk result (λ walk. walk.states.items ≡ replicate count Unseen) }
        ensures path { IfOk result (λ walk. walk.path.items ≡ []) }
        ensures placed { IfOk result (λ walk. walk.placed ≡ 0) }
    {
        Ok(Walk {
            states: vec![in alloc; Progress::Unseen; count]?,
            path: Vec::new(alloc),
            placed: 0,
        })
    }

    /// Puts a visit at the end of the path.
    fn enter(&mut self, visit: Visit) -> Result<(), AllocError>
        requires { visit.paragraph < length self.old.states.items }
        ensures states { OnOk result (self.new.states.items
            ≡ slice_set self.old.states.items visit.paragraph (Open (length self.old.path.items))) }
        ensures path { OnOk result (self.new.path.items ≡ self.old.path.items ++ visit ∷ []) }
        ensures placed { self.new.placed ≡ self.old.placed }
    {
        self.states[visit.paragraph] = Progress::Open(self.path.len());
        self.path.push(visit)?;
        Ok(())
    }

    /// Places a paragraph above those that are placed.
    fn place(&mut self, paragraph: usize)
        requires within { paragraph < length self.old.states.items }
        requires room { self.old.placed < length self.old.states.items }
        ensures states { self.new.states.items
            ≡ slice_set self.old.states.items paragraph (Placed self.old.placed) }
        ensures path { self.new.path.items ≡ self.old.path.items }
        ensures placed { self.new.placed ≡ self.old.placed + 1 }
    {
        self.states[paragraph] = Progress::Placed(self.placed);
        self.placed += 1;
    }

    /// Goes on from a visit that was taken from the end of the path: places its paragraph, or goes to one that it performs. Answers a depth
    /// of the path from where on the paragraphs perform one another, if it comes back to the path.
    fn go_on(&mut self, performs: &Performs<'_>, visit: Visit) -> Result<Option<usize>, AllocError>
        requires ranges { All (IsRange (length self.old.states.items)) performs.now.performed.now }
        requires grouped { IsGrouped (length self.old.states.items) performs.now.performed.now
            performs.now.last.items performs.now.before.items }
        requires stands { IsWalkState performs.now.performed.now self.old.states.items
            (self.old.path.items ++ visit ∷ []) self.old.placed }
        ensures { IfOk result (λ ring. MatchOption ring (IsLaterWalkState performs.now.performed.now
            self.old.states.items self.new.states.items self.new.path.items self.new.placed)
            (λ depth. IsCycle performs.now.performed.now (length self.old.states.items)
            (drop depth self.new.path.items))) }
    {
        let Some(visit) = performs.moved(&self.states, visit) else {
            self.place(visit.paragraph);
            return Ok(None);
        };
        self.path.push(visit)?;
        if let Progress::Open(depth) = self.states[visit.next] {
            return Ok(Some(depth));
        }
        self.enter(performs.visit(visit.next))?;
        Ok(None)
    }

    /// Walks from a paragraph that wasn't seen until it is placed, or until the walk comes back to its path: then it answers the depth from
    /// where on the paragraphs of the path perform one another.
    pub fn cycle_from(
        &mut self,
        performs: &Performs<'_>,
        root: usize,
    ) -> Result<Option<usize>, AllocError>
        requires ranges { All (IsRange (length self.old.states.items)) performs.now.performed.now }
        requires grouped { IsGrouped (length self.old.states.items) performs.now.performed.now
            performs.now.last.items performs.now.before.items }
        requires stands { IsWalkState performs.now.performed.now self.old.states.items []
            self.old.placed }
        requires path { self.old.path.items ≡ [] }
        requires within { root < length self.old.states.items }
        requires unseen { state self.old.states.items root ≡ Unseen }
        ensures { IfOk result (λ ring. MatchOption ring (IsWalked performs.now.performed.now root
            self.old.states.items self.new.states.items self.new.path.items self.new.placed)
            (λ depth. IsCycle performs.now.performed.now (length self.old.states.items)
            (drop depth self.new.path.items))) }
    {
        self.enter(performs.visit(root))?;
        'steps: while let Some(visit) = self.path.pop() {
            if let Some(depth) = self.go_on(performs, visit)? {
                return Ok(Some(depth));
            }
        }
        Ok(None)
    }
}
