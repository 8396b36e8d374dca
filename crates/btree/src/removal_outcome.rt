//! What a page became when rows left it.
use btree_pages::TreePage;

/// A page that an inner page names, with the rows that it has or is to have.
#[derive(Drop)]
pub(crate) struct Child {
    pub page: u32,
    pub node: TreePage,
}

/// What the page above has to know of a page that rows left.
#[derive(Drop)]
pub(crate) enum RemovalOutcome {
    /// Nothing: its least key is the old one.
    Kept,
    /// Its least key is another one, or may be.
    Renamed(Child),
    /// No row was left, and it was released.
    Gone,
    /// Rows are left, but too few. Nothing was written, so that its page is as it was.
    Underfull(Child),
}
