//! A paragraph on the path of the walk.

/// A paragraph on the path: which of its PERFORMs the walk is at, and the next paragraph there that it looks at. It goes over the PERFORMs
/// from the last to the first; with none it has gone over all.
#[derive(Clone, Copy)]
pub struct Visit {
    pub paragraph: usize,
    pub at: Option<usize>,
    pub next: usize,
}
