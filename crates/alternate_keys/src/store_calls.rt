//! What the store keeps, and its calls.
ghost use Rattle.pages.specs.Pages.{sectors_of};
ghost use Rattle.volume_format.specs.Volume.{Holds};
ghost use Rattle.alternate_keys.specs.Held.{held_law};
ghost use Rattle.alternate_keys.specs.Stands.{IsStoreOf, Lacks};

use crate::creating::create_in;
use crate::finding::find_in;
use crate::row_verb::RowVerb;
use crate::seeking::seek_in;
use crate::store::PagedStore;
use records::{
    FileSpec, Found, Keeps, KeyBound, KeyOfReference, Outcome, Presence, Store, StoreFault,
};
use station::Device;

impl Keeps for PagedStore {
    ghost stands = { λ store disk files. IsStoreOf store disk files };

    ghost holds = { λ image files. Holds image files };

    ghost needs = { λ store. sectors_of store.pages };

    ghost is_spent = { λ store. store.spent };

    ghost lacks = { λ fault image is_new name before after. Lacks fault image is_new name after };
}

impl Store for PagedStore {
    ghost held = { λ store disk image files stands crash.
        held_law store.pages disk image files stands.represents crash };

    fn find<D: Device>(&mut self, device: &mut D, file: &FileSpec) -> Result<Presence, StoreFault> {
        if self.spent {
            return Err(StoreFault::Spent);
        }
        find_in(self.alloc, &mut self.pages, device, file)
    }

    fn seek<D: Device>(
        &mut self,
        device: &mut D,
        file: &FileSpec,
        key: KeyOfReference,
        bound: KeyBound<'_>,
        bytes: &mut [u8],
    ) -> Result<Option<Found>, StoreFault> {
        if self.spent {
            return Err(StoreFault::Spent);
        }
        seek_in(
            &mut self.notes,
            &mut self.pages,
            device,
            file,
            key,
            bound,
            bytes,
        )
    }

    fn create<D: Device>(&mut self, device: &mut D, file: &FileSpec) -> Result<(), StoreFault> {
        if self.spent {
            return Err(StoreFault::Spent);
        }
        self.notes.clear();
        match create_in(self.alloc, &mut self.pages, device, file) {
            Ok(()) => Ok(()),
            Err(fault) => {
                self.spent = true;
                Err(fault)
            }
        }
    }

    fn insert<D: Device>(
        &mut self,
        device: &mut D,
        file: &FileSpec,
        number: u64,
        bytes: &[u8],
    ) -> Result<Outcome, StoreFault> {
        self.change(device, file, RowVerb::Insert, number, bytes)
    }

    fn replace<D: Device>(
        &mut self,
        device: &mut D,
        file: &FileSpec,
        number: u64,
        bytes: &[u8],
    ) -> Result<Outcome, StoreFault> {
        self.change(device, file, RowVerb::Replace, number, bytes)
    }

    fn remove<D: Device>(
        &mut self,
        device: &mut D,
        file: &FileSpec,
        number: u64,
        key: &[u8],
    ) -> Result<Outcome, StoreFault> {
        self.change(device, file, RowVerb::Remove, number, key)
    }
}
