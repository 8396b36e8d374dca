//! What the store keeps, and its calls.
ghost use Rattle.std.specs.Prelude.{◌≡◌, ℕ, List};
ghost use Rattle.half_store.specs.Half.{Holds};
ghost use Rattle.half_store.specs.Stands.{Represents, Lacks};
ghost use Rattle.half_store.specs.Held.{held_law};

use crate::changing::{insert_in, remove_in, replace_in};
use crate::creating::create_in;
use crate::finding::{find_file, presence_of};
use crate::seeking::seek_in;
use crate::store::HalfStore;
use records::{
    FileSpec, Found, Keeps, KeyBound, KeyOfReference, Outcome, Presence, Store, StoreFault,
};
use station::Device;

impl Keeps for HalfStore {
    ghost stands = { λ store disk files. Represents store disk files };

    ghost holds = { λ image files. Holds image files };

    ghost needs = { λ store. store.sectors };

    ghost is_spent = { λ store. store.spent };

    ghost lacks = { λ fault image is_new name before after. Lacks fault image is_new name after };
}

impl Store for HalfStore {
    ghost held = { λ store disk image files stands crash.
        held_law store disk image files stands crash };

    fn find<D: Device>(
        &mut self,
        _device: &mut D,
        file: &FileSpec,
    ) -> Result<Presence, StoreFault> {
        if self.spent {
            return Err(StoreFault::Spent);
        }
        match find_file(&self.files, &file.name) {
            None => Ok(Presence::Absent),
            Some(place) => Ok(presence_of(&self.files[place].spec, file)),
        }
    }

    fn seek<D: Device>(
        &mut self,
        _device: &mut D,
        file: &FileSpec,
        key: KeyOfReference,
        bound: KeyBound<'_>,
        bytes: &mut [u8],
    ) -> Result<Option<Found>, StoreFault> {
        if self.spent {
            return Err(StoreFault::Spent);
        }
        match find_file(&self.files, &file.name) {
            None => Err(StoreFault::Damaged),
            Some(place) => seek_in(
                &self.files[place].rows,
                file,
                key,
                bound.side,
                bound.value,
                bound.number,
                bytes,
            ),
        }
    }

    fn create<D: Device>(&mut self, device: &mut D, file: &FileSpec) -> Result<(), StoreFault> {
        if self.spent {
            return Err(StoreFault::Spent);
        }
        self.spent = true;
        if file.is_long() {
            return Err(StoreFault::Old);
        }
        create_in(self.alloc, &mut self.files, file)?;
        self.commit_files(device, Outcome::Done)?;
        Ok(())
    }

    fn insert<D: Device>(
        &mut self,
        device: &mut D,
        file: &FileSpec,
        number: u64,
        bytes: &[u8],
    ) -> Result<Outcome, StoreFault> {
        if self.spent {
            return Err(StoreFault::Spent);
        }
        self.spent = true;
        let outcome = insert_in(self.alloc, &mut self.files, file, number, bytes)?;
        self.commit_files(device, outcome)
    }

    fn replace<D: Device>(
        &mut self,
        device: &mut D,
        file: &FileSpec,
        number: u64,
        bytes: &[u8],
    ) -> Result<Outcome, StoreFault> {
        if self.spent {
            return Err(StoreFault::Spent);
        }
        self.spent = true;
        let outcome = replace_in(self.alloc, &mut self.files, file, number, bytes)?;
        self.commit_files(device, outcome)
    }

    fn remove<D: Device>(
        &mut self,
        device: &mut D,
        file: &FileSpec,
        number: u64,
        key: &[u8],
    ) -> Result<Outcome, StoreFault> {
        if self.spent {
            return Err(StoreFault::Spent);
        }
        self.spent = true;
        let outcome = remove_in(&mut self.files, file, number, key)?;
        self.commit_files(device, outcome)
    }
}
