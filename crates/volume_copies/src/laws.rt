//! Laws of lines.
ghost use Rattle.volume_copies.specs.Unloaded.{UnloadedLinesSpellRecords, UnloadedRowsComeBack};

/// What `unload` prints of a file spells its records again, a line each, in order.
pub fn unloaded_lines_spell_records()
    ensures { UnloadedLinesSpellRecords }
{}

/// These lines, loaded into an empty file of the same description, give the records back in order.
pub fn unloaded_rows_come_back()
    ensures { UnloadedRowsComeBack }
{}
