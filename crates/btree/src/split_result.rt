//! What a page became when a row came into it.
use btree_pages::TreePage;

/// A page to the right of one that had no room, with rows of it.
#[derive(Drop)]
pub(crate) struct Right {
    pub page: u32,
    pub node: TreePage,
}

/// A page that a row came into, and the page to its right that it gave rows to, if it had no room.
#[derive(Drop)]
pub(crate) struct SplitResult {
    pub page: u32,
    pub left: TreePage,
    pub right: Option<Right>,
}
