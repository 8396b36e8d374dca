//! A key of its own.
ghost use Rattle.std.specs.Prelude.{◌≡◌, ◌≤◌, length, IsOk, IfOk};

use smallvec::SmallVec;
use std::alloc::{AllocError, Global};
use std::marker::Model;

/// The bytes of a key. Up to 128 of them take no allocation.
#[derive(Drop)]
pub struct Key {
    bytes: SmallVec<u8, 128>,
}

impl Model for Key {
    ghost use Rattle.std.specs.Prelude.{ℕ, List};

    ghost Value = { List ℕ };

    ghost view = { λ key. key.bytes.items };
}

impl Key {
    /// A copy of these bytes.
    pub fn copy(alloc: Global, bytes: &[u8]) -> Result<Key, AllocError>
        ensures is { IfOk result (λ key. key ≡ bytes.now) }
        ensures succeeds { length bytes.now ≤ 128 → IsOk result }
    {
        Ok(Key {
            bytes: SmallVec::from_slice(alloc, bytes)?,
        })
    }

    /// Its bytes.
    pub fn bytes(&self) -> &[u8]
        ensures { result.now ≡ self.now }
    {
        self.bytes.as_slice()
    }
}
