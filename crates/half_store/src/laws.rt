//! The law of what an image holds.
ghost use Rattle.std.specs.Prelude.{◌≡◌, List};
ghost use Rattle.station.specs.Disk.{Sector};
ghost use Rattle.records.specs.Files.{Files};
ghost use Rattle.half_store.specs.Half.{Holds};

/// An image holds at most one list of files.
pub fn one_list_of_files()
    ensures { (image : List Sector) (one other : Files) → Holds image one → Holds image other
        → one ≡ other }
{}
