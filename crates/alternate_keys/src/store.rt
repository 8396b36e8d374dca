//! The store.

use crate::notes::SearchNotes;
use pages::PageMap;
use std::alloc::Global;
use std::marker::Model;

/// All files of a volume of pages.
#[derive(Drop)]
pub struct PagedStore {
    pub(crate) alloc: Global,
    pub(crate) pages: PageMap,
    pub(crate) spent: bool,
    pub(crate) notes: SearchNotes,
}

impl Model for PagedStore {
    ghost use Rattle.std.specs.Prelude.{◌≡◌, false};
    ghost use Rattle.pages.specs.Pages.{is_spent};
    ghost use Rattle.std.specs.Coded.{codes};
    ghost use Rattle.pages.specs.contracts.page_map.PageMap as page_map;
    ghost use Rattle.btree.specs.contracts.place.LeafPlace as leaf_place;
    ghost use Rattle.alternate_keys.specs.Opened.{OpenedVolume};
    ghost use Rattle.alternate_keys.specs.Notes.{noted_search};

    ghost Value = { OpenedVolume };

    ghost coded = { Prim.hlevel (codes, page_map.the_row.coded, leaf_place.the_row.coded) };

    ghost view = { λ store. record {
      pages = store.pages;
      spent = store.spent;
      notes = noted_search store.notes;
    } };

    ghost invariant = { λ store. store.spent ≡ false → is_spent store.pages ≡ false };
}
