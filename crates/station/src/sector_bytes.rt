//! The bytes of a sector that is to be written.
ghost use Rattle.std.specs.Prelude.{◌≡◌, IfOk};

use std::alloc::{AllocError, Global};
use std::marker::Model;

/// Where they stand.
#[derive(Drop)]
pub(crate) enum Place<'a> {
    Borrowed(&'a [u8; 4096]),
    Owned(Box<[u8; 4096]>),
}

/// The bytes of a sector. Another keeps them, and then they aren't copied, or they are its own on the heap.
#[derive(Drop)]
pub struct SectorBytes<'a> {
    pub(crate) place: Place<'a>,
}

impl<'a> Model for SectorBytes<'a> {
    ghost use Rattle.station.specs.Disk.{Sector};
    ghost use Rattle.station.specs.SectorBytes.{bytes_at};

    ghost Value = { Sector };

    ghost view = { λ bytes. bytes_at bytes.place };
}

impl<'a> SectorBytes<'a> {
    /// Bytes that another keeps.
    pub fn borrowed(bytes: &'a [u8; 4096]) -> SectorBytes<'a>
        ensures { result ≡ bytes.now }
    {
        SectorBytes {
            place: Place::Borrowed(bytes),
        }
    }

    /// Bytes of its own.
    pub fn owned(alloc: Global, bytes: [u8; 4096]) -> Result<SectorBytes<'a>, AllocError>
        ensures { IfOk result (λ kept. kept ≡ bytes) }
    {
        Ok(SectorBytes {
            place: Place::Owned(Box::new(alloc, bytes)?),
        })
    }

    /// The bytes where they stand.
    pub fn view(&self) -> &[u8; 4096]
        ensures { result.now ≡ self.now }
    {
        match &self.place {
            Place::Borrowed(bytes) => bytes,
            Place::Owned(bytes) => &**bytes,
        }
    }
}
