//! Pages as committed, so many as the cache may hold, the most recently used first.
ghost use Rattle.std.specs.Prelude.{◌≡◌, ◌<◌, ◌↔◌, if◌then◌else◌, ℕ, List, [], ◌∷◌, true, false, Ok, Err, Some, None, is_some, option_map, slice_get, slice_index_or, nat_eq, option_copied, Contains, IfOk, IfNone, OnErr, IsSome};
ghost use Rattle.std.specs.List.{All};
ghost use Rattle.std.specs.Map.{lookup};
ghost use Rattle.station.specs.Calls.{OnlyReads};
ghost use Rattle.lru.specs.LruCache.{lru_cache, promoted, IsValid};
ghost use Rattle.pages.specs.Image.{pages_in};
ghost use Rattle.pages.specs.Cache.{IsCacheOf, is_first, Recalls, CachesPage, Loads, KeepsChanges, cache_without};

use crate::change::{Change, clear_places};
use crate::error::PagesError;
use crate::page_bytes::PageBytes;
use crate::reading::{fill_page, read_page, sector_of};
use crate::spares::{keep_spare, take_spare};
use lru::LruCache;
use station::Device;
use std::alloc::{AllocError, Global};
use std::collections::HashMap;
use std::mem;
use std::num::NonZeroUsize;

/// A cache for so many pages, without a page.
pub(crate) fn new_cache(
    alloc: Global,
    capacity: usize,
) -> Result<LruCache<u32, PageBytes>, AllocError>
    requires { 0 < capacity }
    ensures { IfOk result (λ cache. cache ≡ lru_cache [] capacity) }
{
    let most = NonZeroUsize::new(capacity).unwrap();
    LruCache::new(alloc, most)
}

/// The page of a number, if the cache has it. It becomes the most recently used one.
fn cached_page(cache: &mut LruCache<u32, PageBytes>, page: u32) -> Option<[u8; 4096]>
    ensures value { result ≡ lookup (nat_eq page) cache.old.entries }
    ensures entries { cache.new
        ≡ lru_cache (promoted (nat_eq page) cache.old.entries) cache.old.cap }
    ensures none { IfNone result (cache.new ≡ cache.old) }
{
    match cache.get(&page) {
        Some(kept) => Some(kept.bytes()),
        None => None,
    }
}

/// The page of a number, if the cache has it. The order of use stays.
pub(crate) fn seen_page(cache: &LruCache<u32, PageBytes>, page: u32) -> Option<&[u8; 4096]>
    ensures { option_copied result ≡ lookup (nat_eq page) cache.now.entries }
{
    match cache.peek(&page) {
        Some(kept) => Some(kept.view()),
        None => None,
    }
}

/// Whether a page is the most recently used one. It takes no look-up.
fn is_most_recent(cache: &LruCache<u32, PageBytes>, page: u32) -> bool
    ensures { result ≡ is_first page cache.now.entries }
{
    match cache.peek_mru() {
        Some((first, _)) => page == *first,
        None => false,
    }
}

/// A page of the cache becomes the most recently used one. It returns whether the cache has the page.
pub(crate) fn promote_page(cache: &mut LruCache<u32, PageBytes>, page: u32) -> bool
    ensures is_there { result ≡ is_some (lookup (nat_eq page) cache.old.entries) }
    ensures entries { cache.new
        ≡ lru_cache (promoted (nat_eq page) cache.old.entries) cache.old.cap }
{
    if is_most_recent(cache, page) {
        return true;
    }
    cache.promote(&page)
}

/// The most recently used page, if the cache has any. It takes no look-up.
pub(crate) fn most_recent_page(cache: &LruCache<u32, PageBytes>) -> Option<&[u8; 4096]>
    ensures { option_copied result ≡ option_map (λ e. e.1) (slice_get cache.now.entries 0) }
{
    match cache.peek_mru() {
        Some((_, kept)) => Some(kept.view()),
        None => None,
    }
}

/// The page of a number in a table, or none: from the cache where it is there, and otherwise from the device, by way of the cache.
/// Where memory has no place for it, it stays out of the cache.
pub(crate) fn recall_page<D: Device>(
    alloc: Global,
    cache: &mut LruCache<u32, PageBytes>,
    table: &[u32],
    device: &mut D,
    page: u32,
) -> Result<Option<[u8; 4096]>, PagesError>
    requires { All (λ s. s < D.sectors device.old) table.now }
    ensures only { OnlyReads D.Device (result ≡ Err PagesError.Device) device.old device.new }
    ensures cause { OnErr result (result ≡ Err PagesError.Device) }

    // The page is that of the table, where the cache's pages are.
    ensures page { (changed : List ℕ) → D.is_honest device.old
        → IsCacheOf (pages_in (D.state device.old).disk.present table.now) changed cache.old.entries
        →
        IfOk result (λ bytes. bytes
        ≡ slice_index_or (pages_in (D.state device.old).disk.present table.now) page None) }
    ensures right { (changed : List ℕ) → (Contains changed page → ⊥) → D.is_honest device.old
        → IsCacheOf (pages_in (D.state device.old).disk.present table.now) changed cache.old.entries
        →
        IsCacheOf (pages_in (D.state device.old).disk.present table.now) changed cache.new.entries }

    // The device isn't asked for a page of the cache, nor for one that the table hasn't.
    ensures absent { result ≡ Ok None → device.new ≡ device.old }
    ensures hit { IsSome (lookup (nat_eq page) cache.old.entries) → device.new ≡ device.old }
    ensures recalls { IfOk result (λ bytes. Recalls page bytes cache.old cache.new) }
    ensures capacity { cache.new.cap ≡ cache.old.cap }
    ensures err { OnErr result (cache.new ≡ cache.old) }
{
    if let Some(bytes) = cached_page(cache, page) {
        return Ok(Some(bytes));
    }
    let found = read_page(table, device, page)?;
    if let Some(bytes) = found {
        keep_page(alloc, cache, page, bytes);
    }
    Ok(found)
}

/// A page comes into the cache, so far as memory allows.
#[cold]
#[inline(never)]
fn keep_page(alloc: Global, cache: &mut LruCache<u32, PageBytes>, page: u32, bytes: [u8; 4096])
    ensures { CachesPage page bytes cache.old cache.new }
{
    match PageBytes::new(alloc, bytes) {
        Ok(kept) => put_page(cache, page, kept),
        Err(_) => {}
    }
}

/// The same of a page that stands on the heap.
fn put_page(cache: &mut LruCache<u32, PageBytes>, page: u32, bytes: PageBytes)
    ensures { CachesPage page bytes cache.old cache.new }
{
    match cache.put(page, bytes) {
        Ok(_) => {}
        Err(_) => {}
    }
}

/// The same. The place in memory of a page that leaves the cache for it becomes a spare one.
fn push_page(
    cache: &mut LruCache<u32, PageBytes>,
    spares: &mut Vec<PageBytes>,
    page: u32,
    bytes: PageBytes,
)
    ensures { CachesPage page bytes cache.old cache.new }
{
    match cache.push(page, bytes) {
        Ok(Some((_, left))) => keep_spare(spares, left),
        Ok(None) => {}
        Err(_) => {}
    }
}

/// A page of a table enters the cache from the device, if memory has a place for it. It is read into that place.
pub(crate) fn load_page<D: Device>(
    alloc: Global,
    cache: &mut LruCache<u32, PageBytes>,
    spares: &mut Vec<PageBytes>,
    table: &[u32],
    device: &mut D,
    page: u32,
) -> Result<(), PagesError>
    requires { All (λ s. s < D.sectors device.old) table.now }
    ensures only { OnlyReads D.Device (result ≡ Err PagesError.Device) device.old device.new }
    ensures cause { OnErr result (result ≡ Err PagesError.Device) }
    ensures right { (changed : List ℕ) → (Contains changed page → ⊥) → D.is_honest device.old
        → IsCacheOf (pages_in (D.state device.old).disk.present table.now) changed cache.old.entries
        →
        IsCacheOf (pages_in (D.state device.old).disk.present table.now) changed cache.new.entries }
    ensures absent { slice_index_or table.now page 0 ≡ 0
        → (device.new ≡ device.old) × (cache.new ≡ cache.old) }
    ensures loads { Loads page cache.old cache.new }
    ensures err { OnErr result (cache.new ≡ cache.old) }
{
    let sector = sector_of(table, page);
    if sector == 0 {
        return Ok(());
    }
    let mut kept = match take_spare(alloc, spares) {
        Some(kept) => kept,
        None => return Ok(()),
    };
    kept.fill(device, sector)?;
    kept.set_cached(true);
    push_page(cache, spares, page, kept);
    Ok(())
}

/// Reads the page of a number in a table into a buffer: from the cache where it is there, and otherwise from the device. It returns
/// whether the table has it. The buffer stays if the table hasn't.
pub(crate) fn fetch_page<D: Device>(
    cache: &LruCache<u32, PageBytes>,
    table: &[u32],
    device: &mut D,
    page: u32,
    bytes: &mut [u8; 4096],
) -> Result<bool, PagesError>
    requires { All (λ s. s < D.sectors device.old) table.now }
    ensures only { OnlyReads D.Device (result ≡ Err PagesError.Device) device.old device.new }

    // The page is that of the table, where the cache's pages are.
    ensures page { (changed : List ℕ) → D.is_honest device.old
        → IsCacheOf (pages_in (D.state device.old).disk.present table.now) changed cache.now.entries
        → IfOk result (λ is_there.
        slice_index_or (pages_in (D.state device.old).disk.present table.now) page None
        ≡ (if is_there then Some bytes.new else None)) }
    ensures hit { IsSome (lookup (nat_eq page) cache.now.entries) → device.new ≡ device.old }
    ensures absent { result ≡ Ok false → (device.new ≡ device.old) × (bytes.new ≡ bytes.old) }
    ensures cause { OnErr result (result ≡ Err PagesError.Device) }
{
    match seen_page(cache, page) {
        Some(held) => Ok(copy_page(Some(held), bytes)),
        None => fill_page(table, device, page, bytes),
    }
}

/// Copies the bytes of a page into a buffer, if there are any, and returns whether there are.
pub(crate) fn copy_page(page: Option<&[u8; 4096]>, bytes: &mut [u8; 4096]) -> bool
    ensures copied { option_copied page.entry ≡ (if result then Some bytes.new else None) }
    ensures absent { result ≡ false → bytes.new ≡ bytes.old }
{
    match page {
        Some(held) => {
            *bytes = *held;
            true
        }
        None => false,
    }
}

/// A page that was changed enters the cache, if it has bytes that are to be cached and memory allows. The place of other bytes becomes
/// a spare one.
fn keep_change(cache: &mut LruCache<u32, PageBytes>, spares: &mut Vec<PageBytes>, change: Change)
    ensures { KeepsChanges (change ∷ []) cache.old cache.new }
{
    let Change { page, bytes } = change;
    match bytes {
        Some(bytes) => {
            if bytes.is_cached() {
                push_page(cache, spares, page, bytes);
            } else {
                keep_spare(spares, bytes);
            }
        }
        None => {}
    }
}

/// The pages that a commit wrote enter the cache, one after the other, so far as memory and its capacity allow. Their bytes stay in
/// their places on the heap. Pages that are not to be cached stay out.
fn keep_changes(
    cache: &mut LruCache<u32, PageBytes>,
    spares: &mut Vec<PageBytes>,
    changes: Vec<Change>,
)
    ensures { KeepsChanges changes.items cache.old cache.new }
{
    for change in changes {
        keep_change(cache, spares, change);
    }
}

/// What a commit wrote is no longer a change, and enters the cache as `keep_changes` says. What a large commit took of memory is given
/// back, except for the pages that come into the cache.
pub(crate) fn settle_changes(
    alloc: Global,
    changes: &mut Vec<Change>,
    places: &mut HashMap<u32, usize>,
    cache: &mut LruCache<u32, PageBytes>,
    spares: &mut Vec<PageBytes>,
)
    ensures changes { changes.new.items ≡ [] }
    ensures places { places.new.entries ≡ [] }
    ensures cache { KeepsChanges changes.old.items cache.old cache.new }
{
    let settled = mem::replace(changes, Vec::new(alloc));
    clear_places(alloc, places);
    keep_changes(cache, spares, settled);
}

/// A page leaves the cache, and what it had there becomes these bytes.
pub(crate) fn take_page(
    cache: &mut LruCache<u32, PageBytes>,
    page: u32,
    bytes: &[u8; 4096],
) -> Option<PageBytes>
    ensures bytes { IsSome (lookup (nat_eq page) cache.old.entries) → result ≡ Some bytes.now }
    ensures missing { lookup (nat_eq page) cache.old.entries ≡ None → result ≡ None }
    ensures entries { cache.new ≡ cache_without page cache.old }
    ensures valid { IsValid nat_eq cache.old }
{
    // This tells that each page is there once.
    let _count = cache.len();
    let mut kept = cache.pop(&page)?;
    kept.set(bytes);
    Some(kept)
}

/// A page leaves the cache.
pub(crate) fn forget_page(cache: &mut LruCache<u32, PageBytes>, page: u32)
    ensures entries { cache.new ≡ cache_without page cache.old }
    ensures valid { IsValid nat_eq cache.old }
{
    // This tells that each page is there once.
    let _count = cache.len();
    cache.pop(&page);
}
