//! A step on the way down a tree.

/// An inner page, and the place of the row that leads on.
#[derive(Clone, Copy, Default)]
pub(crate) struct PathStep {
    pub page: u32,
    pub place: usize,
}
