//! The pages of a volume, as their user sees them: a finite map from page numbers to pages, beside the page of the catalog's root.
ghost use Rattle.std.specs.Prelude.{◌≡◌, ◌⊎◌, ◌+◌, ◌^◌, is_some, IfSome, IsOkUnless, if◌then◌else◌, ◌<◌, ◌≤◌, Err, Some, None, true, false, [], replicate, List, length, IfOk, OnOk, OnErr};
ghost use Rattle.station.specs.Disk.{Sector};
ghost use Rattle.pages.specs.Layout.{version_of};
ghost use Rattle.pages.specs.Errors.{IsOpenError, IsReadError, FailsWithError};
ghost use Rattle.pages.specs.Errors.{IsEditRefusal, IsAllocateRefusal, IsCommitRefusal};
ghost use Rattle.pages.specs.Use.{free_count};
ghost use Rattle.pages.specs.Volumes.{IsSound};
ghost use Rattle.pages.specs.Ready.{IsReady, ready_props};

use crate::cache::{
    copy_page, fetch_page, forget_page, load_page, most_recent_page, new_cache, promote_page,
    recall_page, seen_page, settle_changes, take_page,
};
use crate::change::{
    Change, find_change, forget_run, is_kept, pass_runs, reserve_change, set_change, unused_page,
};
use crate::commit::commit_volume;
use crate::error::PagesError;
use crate::open::open_volume;
use crate::page_bytes::PageBytes;
use crate::spares::spare_copy;
use crate::volume::VolumeMap;
use crate::volume_mark::VolumeMark;
use lru::LruCache;
use station::Device;
use std::alloc::{AllocError, Global};
use std::collections::HashMap;

/// An opened volume. What is edited and not committed is part of the map and of no image.
#[derive(Drop)]
pub struct PageMap {
    alloc: Global,
    volume: VolumeMap,
    changes: Vec<Change>,
    /// Pages as committed. A page that was changed since isn't there.
    cache: LruCache<u32, PageBytes>,
    /// The place of each page's change.
    places: HashMap<u32, usize>,
    /// Where the search for an unused page number begins.
    next_page: u32,
    /// The runs of page numbers, one a map sector, that had no unused one when they were looked through. They are looked through
    /// again where no other has one.
    passed: Vec<bool>,
    /// Places in memory of pages that left the cache, or that were committed and don't enter it.
    spares: Vec<PageBytes>,
    catalog: u32,
    mark: VolumeMark,
    spent: bool,
    ghost ready: { spent ≡ false → IsReady volume changes.items places mark } by { Prim.hlevel ready_props },
}

impl PageMap {
    ghost use Rattle.pages.specs.Pages.{committed_of, map_now, page_of, changed_pages_of, filled_of, FillsPage, catalog_of, mark_of, is_spent, sectors_of, page_count, IsPage, HasChanges, Agrees, SameCommitted, IsUnchanged, KeepsCommitted, cache_of};
    ghost use Rattle.std.specs.Map.{lookup};
    ghost use Rattle.std.specs.Prelude.{Ok, nat_eq, option_copied, Contains, IsSome};
    ghost use Rattle.lru.specs.LruCache.{lru_cache, promoted};
    ghost use Rattle.pages.specs.Cache.{Loads};
    ghost use Rattle.station.specs.Disk.{Disk};
    ghost use Rattle.pages.specs.Commits.{map_on, IfDiskAgrees, IsAsCommitted, KeepsAgreement, LeavesOldOrNew, HoldsNewMap, SettlesChanges, RestsIfUnchanged, RefusesForRoom, IsSpentOnErr, CachesChanges};
    ghost use Rattle.pages.specs.Edits.{SameMap, SameChanges, SameFilled, SameMark, SameSectors, SameCache, SameCapacity, SameMapOnErr, SameChangesOnErr, SameFilledOnErr, SameCacheOnErr, ReplacesPage, PutsPage, AddsPage, AddsChange, ForgetsPage, FillsAtMost, LacksPage, ReportsSpent, ReportsFull, IfFull};
    ghost use Rattle.pages.specs.Reads.{IfChanged, StaysIfChanged, StaysIfCached, LeavesDeviceIfCached, LeavesDeviceIfNone, LoadsNothingIfAbsent, SameOnErr, ReadsPage, RecallsPage, IsPageReadRefusal};
    ghost use Rattle.pages.specs.Opens.{IsJustOpened, IsMapOf, HasFilled, HasCapacity, LeavesPossible, Syncs, SyncsAtMost, HoldsCommitted, RefusesDisk, IfHoldsMap, IfHoldsForeign, IfDamaged};
    ghost use Rattle.std.specs.Borrow.{sem};
    ghost use Rattle.pages.specs.Visits.{EndsVisited};
    ghost use Rattle.pages.specs.Devices.{KeepsHonesty, KeepsSectors, BlamesDevice, OnlyReadsDevice, OnlyWritesDevice, FitsDevice};

    /// Opens the volume of a device. It syncs first, and writes nothing. The cache holds at most `capacity` pages, from 1 to 4,096.
    pub fn open<D: Device>(
        alloc: Global,
        device: &mut D,
        capacity: usize,
    ) -> Result<PageMap, PagesError>
        requires least { 1 ≤ capacity }
        requires most { capacity ≤ 4096 }
        ensures honest { KeepsHonesty D.Device device.old device.new }
        ensures sectors { KeepsSectors D.Device device.old device.new }
        ensures failures { BlamesDevice D.Device result device.old device.new }

        // Until it has succeeded, a crash leaves what was possible before.
        ensures moments { LeavesPossible D.Device device.old device.new }
        ensures state { Syncs D.Device result device.old device.new }
        ensures unwritten { SyncsAtMost D.Device result device.old device.new }

        // The map is the one that the disk holds.
        ensures agrees { HoldsCommitted D.Device result device.old device.new }
        ensures map { IfOk result IsAsCommitted }
        ensures ready { IfOk result (IsJustOpened (D.sectors device.old)) }
        ensures filled { IfOk result (HasFilled 0) }
        ensures cache { IfOk result (HasCapacity capacity) }

        // Where neither the device nor memory fails, it opens exactly what holds a map, and answers `ForeignMark` exactly where the
        // newest root is another format's, and `Damaged` otherwise.
        ensures refused { RefusesDisk D.Device result device.old }
        ensures opens { IfHoldsMap D.Device device.old (IsReadError result) }
        ensures foreign { IfHoldsForeign D.Device device.old
            (FailsWithError PagesError.ForeignMark result) }
        ensures damaged { IfDamaged D.Device device.old
            (FailsWithError PagesError.Damaged result) }
        ensures cause { IsOpenError result }
    {
        let volume = open_volume(alloc, device)?;
        let pages = PageMap::of_volume(alloc, volume, capacity)?;
        Ok(pages)
    }

    /// The page of the catalog's root, 0 for none.
    pub fn catalog(&self) -> u32
        ensures { result ≡ catalog_of self.now }
    {
        self.catalog
    }

    /// Sets the page of the catalog's root. It is a change, like that of a page.
    pub fn set_catalog(&mut self, page: u32)
        ensures catalog { catalog_of self.new ≡ page }
        ensures pages { (image : List Sector)
            → (map_now self.new image).pages ≡ (map_now self.old image).pages }
        ensures changed_pages { changed_pages_of self.new ≡ changed_pages_of self.old }
        ensures filled { filled_of self.new ≡ filled_of self.old }
        ensures committed { SameCommitted self.old self.new }
        ensures agrees { (disk : Disk) → Agrees self.old disk → Agrees self.new disk }
        ensures cache { cache_of self.new ≡ cache_of self.old }
    {
        self.catalog = page;
    }

    /// The mark that the next commit gives the volume.
    pub fn mark(&self) -> VolumeMark
        ensures is { version_of result ≡ mark_of self.now }
    {
        self.mark
    }

    /// Sets the mark, to this one or a later one. It is a change, like that of a page.
    pub fn set_mark(&mut self, mark: VolumeMark)
        requires later { mark_of self.old ≤ version_of mark }
        ensures mark { mark_of self.new ≡ version_of mark }
        ensures catalog { catalog_of self.new ≡ catalog_of self.old }
        ensures pages { (image : List Sector)
            → (map_now self.new image).pages ≡ (map_now self.old image).pages }
        ensures changed_pages { changed_pages_of self.new ≡ changed_pages_of self.old }
        ensures filled { filled_of self.new ≡ filled_of self.old }
        ensures committed { committed_of self.new ≡ committed_of self.old }
        ensures spent { is_spent self.new ≡ is_spent self.old }
        ensures agrees { (disk : Disk) → Agrees self.old disk → Agrees self.new disk }
        ensures cache { cache_of self.new ≡ cache_of self.old }
    {
        self.mark = mark;
    }

    /// How many pages were changed since the last commit, each counted once.
    pub fn changed_pages(&self) -> usize
        ensures { result ≡ length (changed_pages_of self.now) }
    {
        self.changes.len()
    }

    /// The generation of the last commit. Each commit that writes raises it by one.
    pub fn generation(&self) -> u64
        ensures is { (image : List Sector) → (map_now self.now image).generation ≡ result }
        ensures few { is_spent self.now ≡ false → result < 2 ^ 63 }
    {
        self.volume.generation
    }

    /// Whether a commit was refused before, so that each call that may be refused answers `Spent`.
    pub fn is_spent(&self) -> bool
        ensures { result ≡ is_spent self.now }
    {
        self.spent
    }

    /// Whether a page is in the map, whatever its number.
    pub fn has_page(&self, page: u32) -> bool
        requires unspent { is_spent self.now ≡ false }
        ensures { (image : List Sector) → result ≡ is_some (page_of (map_now self.now image) page) }
    {
        if page == 0 {
            return false;
        }
        if page as usize >= self.volume.table.entries().len() {
            return false;
        }
        is_kept(
            self.volume.table.entries(),
            &self.changes,
            &self.places,
            page,
        )
    }

    /// How many page numbers the volume has, 0 among them.
    pub fn page_count(&self) -> usize
        ensures count { result ≡ page_count self.now }
        ensures pages { (image : List Sector)
            → length (map_now self.now image).pages ≡ page_count self.now }
        ensures few { is_spent self.now ≡ false → result ≤ 921600 }
    {
        self.volume.table.entries().len()
    }

    /// How many sectors the volume has.
    pub fn sectors(&self) -> u32
        ensures { result ≡ sectors_of self.now }
    {
        self.volume.sectors
    }

    /// How many sectors neither the root of the last commit nor its maps use.
    pub fn free_sectors(&self) -> u32
        ensures { is_spent self.now ≡ false → result ≡ free_count (committed_of self.now) }
    {
        self.volume.free
    }

    /// How many pages the cache holds.
    pub fn cached(&self) -> usize
        ensures count { result ≡ length (cache_of self.now).entries }
        ensures bounded { result ≤ (cache_of self.now).cap }
    {
        self.cache.len()
    }

    /// The page of a number, or none. A page that wasn't changed since the last commit is kept in the cache, so far as memory allows.
    pub fn read<D: Device>(
        &mut self,
        device: &mut D,
        page: u32,
    ) -> Result<Option<[u8; 4096]>, PagesError>
        requires sectors { FitsDevice D.Device self.old device.old }
        ensures only { OnlyReadsDevice D.Device result device.old device.new }
        ensures page { ReadsPage D.Device result self.old device.old page }

        // The map stays, and what is known of it. A refusal changes nothing.
        ensures unchanged { IsUnchanged self.old self.new }
        ensures agrees { KeepsAgreement D.Device self.old self.new device.old device.new }
        ensures err { SameOnErr result self.old self.new }

        // A page in memory is answered without the device, and so is none. The cache has another as its most recently used one, if memory has a place for it.
        ensures changed { StaysIfChanged page self.old self.new device.old device.new }
        ensures absent { LeavesDeviceIfNone result device.old device.new }
        ensures hit { LeavesDeviceIfCached page self.old device.old device.new }
        ensures recalls { RecallsPage self.old self.new page result }
        ensures capacity { SameCapacity self.old self.new }

        // `Spent` comes exactly where the value is spent, and otherwise the device alone refuses.
        ensures spent { ReportsSpent self.old result }
        ensures cause { IsPageReadRefusal result }
    {
        if self.spent {
            return Err(PagesError::Spent);
        }
        match find_change(&self.changes, &self.places, page) {
            Some(i) => Ok(self.changes[i].bytes()),
            None => recall_page(
                self.alloc,
                &mut self.cache,
                self.volume.table.entries(),
                device,
                page,
            ),
        }
    }

    /// Reads a page of the map past the cache, which stays with its order of use. It returns whether the map has the page. The buffer
    /// stays if the map hasn't, and if the value is spent. It may have any bytes after the device refused.
    pub fn read_past<D: Device>(
        &self,
        device: &mut D,
        page: u32,
        bytes: &mut [u8; 4096],
    ) -> Result<bool, PagesError>
        requires sectors { FitsDevice D.Device self.now device.old }
        ensures only { OnlyReadsDevice D.Device result device.old device.new }
        ensures page { IfDiskAgrees D.Device self.now device.old (IfOk result
            (λ is_there. page_of (map_on D.Device self.now device.old) page
            ≡ (if is_there then Some bytes.new else None))) }

        // A page in memory is read without the device, and so is none.
        ensures changed { IfChanged self.now page (device.new ≡ device.old) }
        ensures hit { LeavesDeviceIfCached page self.now device.old device.new }
        ensures absent { result ≡ Ok false
            → (device.new ≡ device.old) × (bytes.new ≡ bytes.old) }

        // `Spent` comes exactly where the value is spent, and otherwise the device alone refuses.
        ensures spent { ReportsSpent self.now result }
        ensures kept { result ≡ Err PagesError.Spent
            → (device.new ≡ device.old) × (bytes.new ≡ bytes.old) }
        ensures cause { IsPageReadRefusal result }
    {
        if self.spent {
            return Err(PagesError::Spent);
        }
        match find_change(&self.changes, &self.places, page) {
            Some(i) => Ok(copy_page(self.changes[i].view(), bytes)),
            None => fetch_page(
                &self.cache,
                self.volume.table.entries(),
                device,
                page,
                bytes,
            ),
        }
    }

    /// Brings a page into memory, where `view` finds it: one that was neither changed since the last commit nor is in the cache comes
    /// there from the device, as the most recently used one, so far as memory has a place for it.
    #[cold]
    #[inline(never)]
    pub fn load<D: Device>(&mut self, device: &mut D, page: u32) -> Result<(), PagesError>
        requires sectors { FitsDevice D.Device self.old device.old }
        ensures only { OnlyReadsDevice D.Device result device.old device.new }

        // The map stays, and what is known of it. A refusal leaves the cache too.
        ensures unchanged { IsUnchanged self.old self.new }
        ensures agrees { KeepsAgreement D.Device self.old self.new device.old device.new }
        ensures err { OnErr result (SameCache self.old self.new) }

        // What is in memory stays as it is, and the device isn't asked. Nor is it for a page that the map hasn't, and the cache stays.
        ensures changed { StaysIfChanged page self.old self.new device.old device.new }
        ensures hit { StaysIfCached page self.old self.new device.old device.new }
        ensures absent { LoadsNothingIfAbsent page self.old self.new device.old device.new }
        ensures loads { Loads page (cache_of self.old) (cache_of self.new) }

        // `Spent` comes exactly where the value is spent, and otherwise the device alone refuses.
        ensures spent { ReportsSpent self.old result }
        ensures cause { IsPageReadRefusal result }
    {
        if self.spent {
            return Err(PagesError::Spent);
        }
        if find_change(&self.changes, &self.places, page).is_some() {
            return Ok(());
        }
        if seen_page(&self.cache, page).is_some() {
            return Ok(());
        }
        load_page(
            self.alloc,
            &mut self.cache,
            &mut self.spares,
            self.volume.table.entries(),
            device,
            page,
        )
    }

    /// The bytes of a page where they stand in memory: of one that was changed since the last commit, or is in the cache. The order of
    /// use stays; `visit` and `note_use` change it. A value that is spent has none.
    pub fn view(&self, page: u32) -> Option<&[u8; 4096]>
        ensures page { (disk : Disk) → Agrees self.now disk → IfSome result
            (λ bytes. page_of (map_now self.now disk.present) page ≡ Some bytes.now) }
        ensures changed { is_spent self.now ≡ false → Contains (changed_pages_of self.now) page
            → (image : List Sector) → option_copied result ≡ page_of (map_now self.now image) page }
        ensures cached { is_spent self.now ≡ false → (Contains (changed_pages_of self.now) page → ⊥)
            → option_copied result ≡ lookup (nat_eq page) (cache_of self.now).entries }
        ensures spent { is_spent self.now ≡ true → result ≡ None }
    {
        if self.spent {
            return None;
        }
        match find_change(&self.changes, &self.places, page) {
            Some(i) => self.changes[i].view(),
            None => seen_page(&self.cache, page),
        }
    }

    /// The bytes of a page where they stand in memory, as `view` gives them. A page of the cache becomes the most recently used one.
    pub fn visit(&mut self, page: u32) -> Option<&[u8; 4096]>
        ensures* visits { sem 𝓛 (EndsVisited self.entry page) }
        ensures page { (disk : Disk) → Agrees self.old disk → IfSome result
            (λ bytes. page_of (map_now self.old disk.present) page ≡ Some bytes.now) }
        ensures changed { is_spent self.old ≡ false → Contains (changed_pages_of self.old) page
            → (image : List Sector) → option_copied result ≡ page_of (map_now self.old image) page }
        ensures cached { is_spent self.old ≡ false → (Contains (changed_pages_of self.old) page → ⊥)
            → option_copied result ≡ lookup (nat_eq page) (cache_of self.old).entries }
        ensures spent { is_spent self.old ≡ true → result ≡ None }
    {
        if self.spent {
            return None;
        }
        if let Some(i) = find_change(&self.changes, &self.places, page) {
            return self.changes[i].view();
        }
        if !promote_page(&mut self.cache, page) {
            return None;
        }
        most_recent_page(&self.cache)
    }

    /// A page of the cache becomes the most recently used one.
    pub fn note_use(&mut self, page: u32)
        ensures unchanged { IsUnchanged self.old self.new }
        ensures keeps { KeepsCommitted self.old self.new }
        ensures cache { cache_of self.new ≡ lru_cache
            (promoted (nat_eq page) (cache_of self.old).entries) (cache_of self.old).cap }
    {
        promote_page(&mut self.cache, page);
    }

    /// Gives a page new bytes. A page that isn't in the map comes into it.
    pub fn edit(&mut self, page: u32, bytes: &[u8; 4096]) -> Result<(), PagesError>
        requires page { IsPage self.old page }
        ensures map { PutsPage result self.old self.new page bytes.now }
        ensures changes_page { OnOk result (AddsChange self.old self.new page) }
        ensures unchanged { SameChangesOnErr result self.old self.new }
        ensures filled { FillsAtMost 1 self.old self.new }
        ensures fills { OnOk result (FillsPage self.old self.new page) }
        ensures unfilled { SameFilledOnErr result self.old self.new }
        ensures err { SameMapOnErr result self.old self.new }
        ensures capacity { SameCapacity self.old self.new }
        ensures forgets { OnOk result (ForgetsPage self.old self.new page) }
        ensures cache { SameCacheOnErr result self.old self.new }
        ensures keeps { KeepsCommitted self.old self.new }
        ensures cause { IsEditRefusal result }
        ensures spent { ReportsSpent self.old result }
    {
        if self.spent {
            return Err(PagesError::Spent);
        }
        if seen_page(&self.cache, page).is_some() {
            return self.rewrite(page, bytes);
        }
        let kept = spare_copy(self.alloc, &mut self.spares, bytes, true)?;
        self.change(page, Some(kept))
    }

    /// Gives a page new bytes, as `edit` does, for a page that `read_past` reads. After a commit the page stays out of the cache, so
    /// that it doesn't take the place of another one there. That it stays out is not promised by a clause.
    pub fn edit_past(&mut self, page: u32, bytes: &[u8; 4096]) -> Result<(), PagesError>
        requires page { IsPage self.old page }

        // After `Ok` the page has these bytes.
        ensures map { PutsPage result self.old self.new page bytes.now }
        ensures changes_page { OnOk result (AddsChange self.old self.new page) }
        ensures fills { OnOk result (FillsPage self.old self.new page) }
        ensures forgets { OnOk result (ForgetsPage self.old self.new page) }

        // A refusal changes nothing.
        ensures err { SameMapOnErr result self.old self.new }
        ensures unchanged { SameChangesOnErr result self.old self.new }
        ensures unfilled { SameFilledOnErr result self.old self.new }
        ensures cache { SameCacheOnErr result self.old self.new }

        // Whatever the result is.
        ensures filled { FillsAtMost 1 self.old self.new }
        ensures capacity { SameCapacity self.old self.new }
        ensures keeps { KeepsCommitted self.old self.new }
        ensures cause { IsEditRefusal result }
        ensures spent { ReportsSpent self.old result }
    {
        if self.spent {
            return Err(PagesError::Spent);
        }
        let kept = spare_copy(self.alloc, &mut self.spares, bytes, false)?;
        self.change(page, Some(kept))
    }

    /// Adds a page with these bytes to the map, as `allocate` does with zeros, for a page that `read_past` reads. After a commit the page
    /// stays out of the cache. That it stays out is not promised by a clause. `Full` means that there is no unused page number.
    pub fn allocate_past(&mut self, bytes: &[u8; 4096]) -> Result<u32, PagesError>

        // After `Ok` the page has these bytes.
        ensures page { IfOk result (IsPage self.old) }
        ensures unused { IfOk result (LacksPage self.old) }
        ensures map { AddsPage result self.old self.new bytes.now }
        ensures changes_page { IfOk result (AddsChange self.old self.new) }
        ensures fills { IfOk result (FillsPage self.old self.new) }
        ensures forgets { IfOk result (ForgetsPage self.old self.new) }

        // A refusal changes nothing.
        ensures err { SameMapOnErr result self.old self.new }
        ensures unchanged { SameChangesOnErr result self.old self.new }
        ensures unfilled { SameFilledOnErr result self.old self.new }
        ensures cache { SameCacheOnErr result self.old self.new }
        ensures same { IfFull result (self.new ≡ self.old) }

        // Whatever the result is.
        ensures filled { FillsAtMost 1 self.old self.new }
        ensures capacity { SameCapacity self.old self.new }
        ensures keeps { KeepsCommitted self.old self.new }
        ensures full { ReportsFull self.old result }
        ensures cause { IsAllocateRefusal result }
        ensures spent { ReportsSpent self.old result }
    {
        let page = self.find_unused()?;
        self.edit_past(page, bytes)?;
        pass_runs(&mut self.passed, self.next_page, page);
        self.next_page = page + 1;
        Ok(page)
    }

    /// A page that wasn't in the map comes into it, with zeros. `Full` means that there is no unused page number.
    pub fn allocate(&mut self) -> Result<u32, PagesError>
        ensures page { IfOk result (IsPage self.old) }
        ensures unused { IfOk result (LacksPage self.old) }
        ensures map { AddsPage result self.old self.new (replicate 4096 0) }
        ensures changes_page { IfOk result (AddsChange self.old self.new) }
        ensures unchanged { SameChangesOnErr result self.old self.new }
        ensures filled { FillsAtMost 1 self.old self.new }
        ensures fills { IfOk result (FillsPage self.old self.new) }
        ensures unfilled { SameFilledOnErr result self.old self.new }
        ensures err { SameMapOnErr result self.old self.new }
        ensures capacity { SameCapacity self.old self.new }
        ensures forgets { IfOk result (ForgetsPage self.old self.new) }
        ensures cache { SameCacheOnErr result self.old self.new }
        ensures keeps { KeepsCommitted self.old self.new }
        ensures full { ReportsFull self.old result }
        ensures same { IfFull result (self.new ≡ self.old) }
        ensures cause { IsAllocateRefusal result }
        ensures spent { ReportsSpent self.old result }
    {
        let page = self.find_unused()?;
        self.edit(page, &[0; 4096])?;
        pass_runs(&mut self.passed, self.next_page, page);
        self.next_page = page + 1;
        Ok(page)
    }

    /// Takes a page out of the map.
    pub fn release(&mut self, page: u32) -> Result<(), PagesError>
        requires page { IsPage self.old page }
        ensures map { OnOk result (ReplacesPage None self.old self.new page) }
        ensures changes_page { OnOk result (AddsChange self.old self.new page) }
        ensures unchanged { SameChangesOnErr result self.old self.new }
        ensures filled { filled_of self.new ≤ filled_of self.old }
        ensures unfilled { SameFilledOnErr result self.old self.new }
        ensures err { SameMapOnErr result self.old self.new }
        ensures capacity { SameCapacity self.old self.new }
        ensures forgets { OnOk result (ForgetsPage self.old self.new page) }
        ensures cache { SameCacheOnErr result self.old self.new }
        ensures keeps { KeepsCommitted self.old self.new }
        ensures cause { IsEditRefusal result }
        ensures spent { ReportsSpent self.old result }
    {
        self.change(page, None)?;
        forget_run(&mut self.passed, page);
        if page < self.next_page {
            self.next_page = page;
        }
        Ok(())
    }

    /// The map of a volume, with nothing changed.
    fn of_volume(alloc: Global, volume: VolumeMap, capacity: usize) -> Result<PageMap, AllocError>
        requires sound { IsSound volume }
        requires some { 0 < capacity }
        ensures { IfOk result (IsMapOf volume capacity) }
    {
        let catalog = volume.catalog;
        let mark = volume.mark;
        let cache = new_cache(alloc, capacity)?;
        let passed = vec![in alloc; false; volume.maps.len()]?;
        Ok(PageMap {
            alloc,
            volume,
            changes: Vec::new(alloc),
            cache,
            places: HashMap::new(alloc),
            next_page: 1,
            passed,
            spares: Vec::new(alloc),
            catalog,
            mark,
            spent: false,
        })
    }

    /// Whether nothing was changed since the last commit: no page, not the page of the catalog's root, and not the mark.
    fn is_at_rest(&self) -> bool
        ensures rest { result ≡ true → (self.now.changes.items ≡ [])
            × (self.now.catalog ≡ self.now.volume.catalog)
            × (mark_of self.now ≡ version_of self.now.volume.mark) }
        ensures changed { result ≡ false → HasChanges self.now }
    {
        self.changes.is_empty()
            && self.catalog == self.volume.catalog
            && self.mark == self.volume.mark
    }

    /// A page number that isn't used.
    fn find_unused(&self) -> Result<u32, PagesError>
        ensures page { IfOk result (IsPage self.now) }
        ensures unused { IfOk result (LacksPage self.now) }
        ensures full { ReportsFull self.now result }
        ensures spent { ReportsSpent self.now result }
        ensures cause { OnErr result
            ((result ≡ Err PagesError.Full) ⊎ (result ≡ Err PagesError.Spent)) }
    {
        if self.spent {
            return Err(PagesError::Spent);
        }
        match unused_page(
            self.volume.table.entries(),
            &self.changes,
            &self.places,
            self.next_page as usize,
            &self.passed,
        ) {
            Some(page) => Ok(page),
            None => Err(PagesError::Full),
        }
    }

    /// Gives a page new bytes, or none.
    fn change(&mut self, page: u32, bytes: Option<PageBytes>) -> Result<(), PagesError>
        requires page { IsPage self.old page }
        ensures keeps { KeepsCommitted self.old self.new }
        ensures cause { IsEditRefusal result }
        ensures map { OnOk result (ReplacesPage bytes self.old self.new page) }
        ensures changes_page { OnOk result (AddsChange self.old self.new page) }
        ensures unchanged { OnErr result (SameChanges self.old self.new) }
        ensures filled { filled_of self.new
            ≤ filled_of self.old + (if is_some bytes then 1 else 0) }
        ensures fills { OnOk result (IfSome bytes (λ _. FillsPage self.old self.new page)) }
        ensures unfilled { OnErr result (SameFilled self.old self.new) }
        ensures err { OnErr result (SameMap self.old self.new) }
        ensures capacity { SameCapacity self.old self.new }
        ensures forgets { OnOk result (ForgetsPage self.old self.new page) }
        ensures cache { OnErr result (SameCache self.old self.new) }
        ensures spent { ReportsSpent self.old result }
    {
        if self.spent {
            return Err(PagesError::Spent);
        }
        set_change(&mut self.changes, &mut self.places, page, bytes)?;
        forget_page(&mut self.cache, page);
        Ok(())
    }

    /// Gives a page of the cache new bytes, which come where the old ones stand in memory.
    fn rewrite(&mut self, page: u32, bytes: &[u8; 4096]) -> Result<(), PagesError>
        requires page { IsPage self.old page }
        requires unspent { is_spent self.old ≡ false }
        requires cached { IsSome (lookup (nat_eq page) (cache_of self.old).entries) }
        ensures cause { IsOkUnless result PagesError.Memory }
        ensures keeps { KeepsCommitted self.old self.new }
        ensures map { OnOk result (ReplacesPage (Some bytes.now) self.old self.new page) }
        ensures changes_page { OnOk result (AddsChange self.old self.new page) }
        ensures unchanged { OnErr result (SameChanges self.old self.new) }
        ensures filled { FillsAtMost 1 self.old self.new }
        ensures fills { OnOk result (FillsPage self.old self.new page) }
        ensures unfilled { OnErr result (SameFilled self.old self.new) }
        ensures err { OnErr result (SameMap self.old self.new) }
        ensures capacity { SameCapacity self.old self.new }
        ensures forgets { OnOk result (ForgetsPage self.old self.new page) }
        ensures cache { OnErr result (SameCache self.old self.new) }
    {
        reserve_change(&mut self.changes, &mut self.places)?;
        let kept = take_page(&mut self.cache, page, bytes);
        set_change(&mut self.changes, &mut self.places, page, kept)?;
        Ok(())
    }

    /// Puts the map on the disk. Where nothing was changed, nothing is written. A refused commit spends the value: each later call
    /// that returns a `Result` answers `Spent`, until the volume is opened again.
    pub fn commit<D: Device>(&mut self, device: &mut D) -> Result<(), PagesError>
        requires sectors { FitsDevice D.Device self.old device.old }
        ensures only { OnlyWritesDevice D.Device result device.old device.new }

        // At each moment a crash leaves the map of the last commit, or this one.
        ensures moments { LeavesOldOrNew D.Device self.old device.old device.new }

        // After `Ok` the disk holds this one: the map of the next generation, where something was changed.
        ensures holds { HoldsNewMap D.Device result self.old self.new device.old device.new }
        ensures settles { SettlesChanges result self.new }
        ensures mark { SameMark self.old self.new }
        ensures same_sectors { SameSectors self.old self.new }

        // With nothing changed nothing is done, and nothing is other than before.
        ensures rest { RestsIfUnchanged D.Device result self.old self.new device.old device.new }

        // `Full` means that too few sectors are free, or that no generation is left, and then nothing was done.
        ensures room { RefusesForRoom D.Device result self.old device.old device.new }
        ensures refused { IsSpentOnErr result self.new }
        ensures cause { IsCommitRefusal result }
        ensures spent { ReportsSpent self.old result }

        // The pages that were changed come into the cache, so far as memory and its capacity allow.
        ensures caches { CachesChanges result self.old self.new }
    {
        if self.spent {
            return Err(PagesError::Spent);
        }
        if self.is_at_rest() {
            return Ok(());
        }
        self.spent = true;
        commit_volume(
            self.alloc,
            device,
            &mut self.volume,
            &self.changes,
            self.mark,
            self.catalog,
        )?;
        settle_changes(
            self.alloc,
            &mut self.changes,
            &mut self.places,
            &mut self.cache,
            &mut self.spares,
        );
        self.spent = false;
        Ok(())
    }
}
