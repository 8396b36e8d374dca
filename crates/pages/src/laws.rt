//! The laws of what an image holds.
ghost use Rattle.std.specs.Prelude.{◌≡◌, List};
ghost use Rattle.station.specs.Disk.{Sector};
ghost use Rattle.pages.specs.Layout.{IsForeign};
ghost use Rattle.pages.specs.Image.{Map, IsImageOf};
ghost use Rattle.pages.specs.Pages.{FewNeeded, NeededBy, ShortBy, MapBounds, OpenBounds, FewFree};

/// An image holds at most one map.
pub fn one_map()
    ensures { (image : List Sector) (m n : Map) → IsImageOf image m → IsImageOf image n → m ≡ n }
{}

/// An image that holds a map isn't of another format.
pub fn map_is_own()
    ensures { (image : List Sector) (m : Map) → IsImageOf image m → IsForeign image → ⊥ }
{}

/// A commit needs at most two sectors for each page that was changed: one for its bytes, and one for its map sector.
pub fn few_needed()
    ensures { FewNeeded }
{}

/// A commit needs at most a sector for each changed page that has bytes, and the sectors of the map. It answers `Full` only where
/// fewer sectors than that are free, or no generation is left.
pub fn needed_by()
    ensures needed { NeededBy }
    ensures short { ShortBy }
{}

/// A map that an image holds, and one of an opened volume, has a generation below 2^63 and at most 921,600 page numbers.
pub fn map_bounds()
    ensures held { MapBounds }
    ensures open { OpenBounds }
{}

/// Where `allocate` answers `Full`, the volume has fewer free sectors than pages were changed since the last commit.
pub fn few_free()
    ensures { FewFree }
{}
