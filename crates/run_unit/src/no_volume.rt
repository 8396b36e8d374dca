//! The store of a program that names no file.

ghost use Rattle.std.specs.Prelude.{◌≡◌, true, false, if◌then◌else◌, []};

use records::{
    FileSpec, Found, Keeps, KeyBound, KeyOfReference, Outcome, Presence, Store, StoreFault,
};
use station::Device;

/// A store without a volume: it has no files, and room for none.
#[derive(Drop)]
pub(crate) struct NoVolume {
    spent: bool,
}

impl Keeps for NoVolume {
    ghost stands = { λ _ _ files. files ≡ [] };

    ghost holds = { λ _ files. files ≡ [] };

    ghost needs = { λ _. 0 };

    ghost is_spent = { λ store. store.spent };

    ghost lacks = { λ _ _ _ _ _ _. Unit {0} };
}

impl NoVolume {
    pub(crate) fn new() -> NoVolume
        ensures { result.spent ≡ false }
    {
        NoVolume { spent: false }
    }

    /// There is no room for a change.
    fn refuse(&mut self) -> StoreFault
        ensures spent { self.new.spent ≡ true }
        ensures fault { result ≡ (if self.old.spent then StoreFault.Spent else StoreFault.Full) }
    {
        if self.spent {
            return StoreFault::Spent;
        }
        self.spent = true;
        StoreFault::Full
    }
}

impl Store for NoVolume {
    ghost held = { λ _ _ _ _ none _. none };

    fn find<D: Device>(
        &mut self,
        _device: &mut D,
        _file: &FileSpec,
    ) -> Result<Presence, StoreFault> {
        if self.spent {
            return Err(StoreFault::Spent);
        }
        Ok(Presence::Absent)
    }

    fn seek<D: Device>(
        &mut self,
        _device: &mut D,
        _file: &FileSpec,
        _key: KeyOfReference,
        _bound: KeyBound<'_>,
        _bytes: &mut [u8],
    ) -> Result<Option<Found>, StoreFault> {
        if self.spent {
            return Err(StoreFault::Spent);
        }
        Ok(None)
    }

    fn create<D: Device>(&mut self, _device: &mut D, _file: &FileSpec) -> Result<(), StoreFault> {
        Err(self.refuse())
    }

    fn insert<D: Device>(
        &mut self,
        _device: &mut D,
        _file: &FileSpec,
        _number: u64,
        _bytes: &[u8],
    ) -> Result<Outcome, StoreFault> {
        Err(self.refuse())
    }

    fn replace<D: Device>(
        &mut self,
        _device: &mut D,
        _file: &FileSpec,
        _number: u64,
        _bytes: &[u8],
    ) -> Result<Outcome, StoreFault> {
        Err(self.refuse())
    }

    fn remove<D: Device>(
        &mut self,
        _device: &mut D,
        _file: &FileSpec,
        _number: u64,
        _key: &[u8],
    ) -> Result<Outcome, StoreFault> {
        Err(self.refuse())
    }
}
