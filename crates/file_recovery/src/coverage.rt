//! Whether each page that a map uses is marked.
ghost use Rattle.std.specs.Prelude.{◌≡◌, ◌≢◌, ◌<◌, true, false, List, length, None, slice_index_or};
ghost use Rattle.station.specs.Disk.{Sector};
ghost use Rattle.pages.specs.Pages.{map_now, page_count, is_spent};
ghost use Rattle.file_recovery.specs.Covered.{IsStray, IsCovered};

use pages::PageMap;

/// Whether each page that is used is marked.
pub(crate) fn are_covered(pages: &PageMap, seen: &[bool]) -> bool
    requires unspent { is_spent pages.now ≡ false }
    requires count { length seen.now ≡ page_count pages.now }
    ensures yes { result ≡ true → (image : List Sector)
        → IsCovered (map_now pages.now image).pages seen.now }
    ensures no { result ≡ false → (image : List Sector)
        → IsCovered (map_now pages.now image).pages seen.now → ⊥ }
{
    let count = pages.page_count() as u32;
    for page in 0..count {
        if is_stray(pages, seen, page) {
            return false;
        }
    }
    true
}

fn is_marked(seen: &[bool], page: u32) -> bool
    requires { page < length seen.now }
    ensures { result ≡ slice_index_or seen.now page false }
{
    seen[page as usize]
}

/// Whether a page is used, and isn't marked.
fn is_stray(pages: &PageMap, seen: &[bool], page: u32) -> bool
    requires unspent { is_spent pages.now ≡ false }
    requires page { page < length seen.now }
    ensures yes { result ≡ true → (image : List Sector)
        → IsStray (map_now pages.now image).pages seen.now page }
    ensures no { result ≡ false
        → (image : List Sector) → slice_index_or (map_now pages.now image).pages page None ≢ None
        → slice_index_or seen.now page false ≡ true }
{
    if is_marked(seen, page) {
        return false;
    }
    pages.has_page(page)
}
