//! The law of what an image holds.
ghost use Rattle.file_recovery.specs.Laws.{OneFiles};

/// An image holds at most one list of files, whichever store wrote it.
pub fn one_list_of_files()
    ensures { OneFiles }
{
    volume_format::one_list_of_files();
    half_store::one_list_of_files();
}
