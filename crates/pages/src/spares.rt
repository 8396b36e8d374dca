//! Places in memory of pages that nothing needs any more.
ghost use Rattle.std.specs.Prelude.{◌≡◌, IfOk};

use crate::page_bytes::PageBytes;
use std::alloc::{AllocError, Global};

/// At most so many places are kept, in 64 KB.
const MOST_SPARES: usize = 16;

/// A place in memory for a page, with any bytes: a spare one, or a new one, if memory has one.
pub(crate) fn take_spare(alloc: Global, spares: &mut Vec<PageBytes>) -> Option<PageBytes> {
    match spares.pop() {
        Some(bytes) => Some(bytes),
        None => PageBytes::new(alloc, [0; 4096]).ok(),
    }
}

/// A copy of these bytes, in a spare place or a new one, and whether the page enters the cache after a commit.
pub(crate) fn spare_copy(
    alloc: Global,
    spares: &mut Vec<PageBytes>,
    bytes: &[u8; 4096],
    is_cached: bool,
) -> Result<PageBytes, AllocError>
    ensures { IfOk result (λ page. page ≡ bytes.now) }
{
    let mut kept = match spares.pop() {
        Some(mut spare) => {
            spare.set(bytes);
            spare
        }
        None => PageBytes::copied(alloc, bytes)?,
    };
    kept.set_cached(is_cached);
    Ok(kept)
}

/// The place of a page becomes a spare one, or is given back, if there are enough of them.
pub(crate) fn keep_spare(spares: &mut Vec<PageBytes>, bytes: PageBytes) {
    if spares.len() < MOST_SPARES {
        match spares.push(bytes) {
            Ok(_) => {}
            Err(_) => {}
        }
    }
}
