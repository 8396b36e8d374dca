//! The tree of the catalog.
ghost use Rattle.std.specs.Prelude.{◌≡◌, ◌≤◌, length, take};
ghost use Rattle.pages.specs.Layout.{version_of};
ghost use Rattle.volume_format.specs.Catalog.{catalog_layout};

use crate::listing::{LISTING_BYTES, value_bytes};
use btree::{Entry, Tree};
use btree_pages::RowLayout;
use file_bytes::NAME_BYTES;
use pages::VolumeMark;
use std::alloc::Global;

/// The tree of the catalog with this root, on a volume with this mark.
pub fn catalog_tree(alloc: Global, mark: VolumeMark, root: u32) -> Tree
    ensures layout { result.layout ≡ catalog_layout (version_of mark) }
    ensures root { result.root ≡ root }
{
    let layout = RowLayout {
        key_length: NAME_BYTES,
        value_length: value_bytes(mark),
    };
    Tree::new(alloc, layout, root)
}

/// The listing in an entry of the catalog.
pub fn listing_part(entry: &Entry) -> &[u8]
    requires { 83 ≤ length entry.now.value }
    ensures part { result.now ≡ take 83 entry.now.value }
    ensures long { length result.now ≡ 83 }
{
    &entry.value()[..LISTING_BYTES]
}
