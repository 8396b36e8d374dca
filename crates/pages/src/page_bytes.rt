//! The bytes of a page in memory.
ghost use Rattle.std.specs.Prelude.{◌≡◌, ◌<◌, Err, IfOk, OnErr, OnOk};
ghost use Rattle.station.specs.Disk.{sector_at};
ghost use Rattle.station.specs.Calls.{OnlyReads};

use crate::error::PagesError;
use station::Device;
use std::alloc::{AllocError, Global};
use std::marker::Model;

/// They stand on the heap, so that what keeps them moves an address alone, and a page without bytes takes no room for them.
#[derive(Drop)]
pub(crate) struct PageBytes {
    bytes: Box<[u8; 4096]>,
    /// Whether the page enters the cache after a commit. Contracts see the bytes alone.
    is_cached: bool,
}

impl Model for PageBytes {
    ghost use Rattle.station.specs.Disk.{Sector};

    ghost Value = { Sector };

    ghost view = { λ page. page.bytes.value };
}

impl PageBytes {
    pub(crate) fn new(alloc: Global, bytes: [u8; 4096]) -> Result<PageBytes, AllocError>
        ensures { IfOk result (λ page. page ≡ bytes) }
    {
        Ok(PageBytes {
            bytes: Box::new(alloc, bytes)?,
            is_cached: true,
        })
    }

    /// A copy of these bytes.
    pub(crate) fn copied(alloc: Global, bytes: &[u8; 4096]) -> Result<PageBytes, AllocError>
        ensures { IfOk result (λ page. page ≡ bytes.now) }
    {
        Ok(PageBytes {
            bytes: Box::new(alloc, *bytes)?,
            is_cached: true,
        })
    }

    /// It becomes these bytes, where it stands.
    pub(crate) fn set(&mut self, bytes: &[u8; 4096])
        ensures { self.new ≡ bytes.now }
    {
        *self.bytes = *bytes;
    }

    /// Whether the page enters the cache after a commit.
    pub(crate) fn is_cached(&self) -> bool {
        self.is_cached
    }

    /// Sets whether the page enters the cache after a commit.
    pub(crate) fn set_cached(&mut self, is_cached: bool)
        ensures { self.new ≡ self.old }
    {
        self.is_cached = is_cached;
    }

    /// It becomes the bytes of a sector, which are read where it stands.
    pub(crate) fn fill<D: Device>(&mut self, device: &mut D, sector: u32) -> Result<(), PagesError>
        requires { sector < D.sectors device.old }
        ensures only { OnlyReads D.Device (result ≡ Err PagesError.Device) device.old device.new }
        ensures bytes { D.is_honest device.old
            → OnOk result (self.new ≡ sector_at (D.state device.old).disk.present sector) }
        ensures cause { OnErr result (result ≡ Err PagesError.Device) }
    {
        device.read(sector, &mut *self.bytes)?;
        Ok(())
    }

    pub(crate) fn view(&self) -> &[u8; 4096]
        ensures { result.now ≡ self.now }
    {
        &*self.bytes
    }

    pub(crate) fn bytes(&self) -> [u8; 4096]
        ensures { result ≡ self.now }
    {
        *self.bytes
    }
}
