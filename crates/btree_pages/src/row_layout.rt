//! How long the rows of a tree's pages are.
ghost use Rattle.std.specs.Prelude.{◌≡◌, ◌↔◌, IsTrue};
ghost use Rattle.btree_pages.specs.RowLayouts.{IsRowLayout, rest_length, row_length, capacity};

/// The bytes that a page has for rows.
pub const ROW_BYTES: usize = 4080;

/// A row has at most so many bytes, so that three fit into a page.
pub const MOST_ROW_BYTES: usize = 1360;

/// The bytes of a child's page number.
const CHILD_BYTES: usize = 4;

/// What a page of a tree has.
#[derive(Clone, Copy, PartialEq, Eq)]
pub enum Kind {
    /// Keys and values.
    Leaf,
    /// The least key of each child, and the child's page.
    Inner,
}

/// The lengths of a tree's keys and values in bytes, the same for each entry.
#[derive(Clone, Copy, PartialEq, Eq)]
pub struct RowLayout {
    pub key_length: usize,
    pub value_length: usize,
}

impl RowLayout {
    /// Whether a tree can have this layout: a key has a byte at least, and three rows of either kind fit into a page.
    pub fn is_possible(&self) -> bool
        ensures { IsTrue result ↔ IsRowLayout self.now }
    {
        1 <= self.key_length
            && self.key_length <= MOST_ROW_BYTES - CHILD_BYTES
            && self.value_length <= MOST_ROW_BYTES - self.key_length
    }

    /// The bytes of a row of this kind.
    pub fn row_length(&self, kind: Kind) -> usize
        requires { IsRowLayout self.now }
        ensures { result ≡ row_length self.now kind }
    {
        match kind {
            Kind::Leaf => self.key_length + self.value_length,
            Kind::Inner => self.key_length + CHILD_BYTES,
        }
    }

    /// The rows that a page of this kind has room for.
    pub fn capacity(&self, kind: Kind) -> usize
        requires { IsRowLayout self.now }
        ensures { result ≡ capacity self.now kind }
    {
        ROW_BYTES / self.row_length(kind)
    }
}
