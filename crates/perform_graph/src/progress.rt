//! How far the walk is with each paragraph.

ghost use Rattle.std.specs.Prelude.{◌≡◌, ℕ, ◌≤◌, ◌<◌, length, map, true, IfOk, MatchOption};
ghost use Rattle.perform_graph.specs.Walk as walk;

use sqlite_items::Items;
use std::alloc::{AllocError, Global};

/// How far the walk is with a paragraph.
#[derive(Clone, Copy)]
pub enum Progress {
    /// It didn't come to it yet.
    Unseen,
    /// It is on the path, at this depth.
    Open(usize),
    /// All that it performs is placed; its rank is how many were placed before.
    Placed(usize),
}

impl Progress {
    pub fn is_seen(self) -> bool
        ensures { result ≡ walk.is_seen self }
    {
        !matches!(self, Progress::Unseen)
    }

    pub fn is_placed(self) -> bool
        ensures { result ≡ walk.is_placed self }
    {
        matches!(self, Progress::Placed(_))
    }

    /// The rank, or 0 where it isn't placed.
    fn height(self) -> usize
        ensures { result ≡ walk.rank_of self }
    {
        match self {
            Progress::Placed(height) => height,
            Progress::Unseen | Progress::Open(_) => 0,
        }
    }
}

/// The first paragraph from one to another that isn't placed.
pub fn first_unplaced(states: &[Progress], first: usize, last: usize) -> Option<usize>
    requires { last < length states.now }
    ensures { MatchOption result ((paragraph : ℕ) → first ≤ paragraph → paragraph ≤ last
        → walk.is_placed (walk.state states.now paragraph) ≡ true)
        (walk.IsFirstUnplaced states.now first last) }
{
    for paragraph in first..=last {
        if !states[paragraph].is_placed() {
            return Some(paragraph);
        }
    }
    None
}

/// The ranks of all paragraphs.
pub fn ranks_of(alloc: Global, states: &[Progress]) -> Result<Items<usize>, AllocError>
    ensures { IfOk result (λ heights. heights ≡ map walk.rank_of states.now) }
{
    let heights = states.iter().map(|state| state.height()).collect(alloc)?;
    Ok(Items::from_vec(heights))
}
