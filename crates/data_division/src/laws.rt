//! What holds of the rules and their readers: each reader answers what its rule spells, and nothing else.

ghost use Rattle.expressions.specs.Laws.{IsSoundReader, Only};
ghost use Rattle.data_division.specs.Stated.{stated_clauses, stated_reader};
ghost use Rattle.data_division.specs.Entries.{entry};
ghost use Rattle.data_division.specs.EntryReading.{entry_reader};
ghost use Rattle.data_division.specs.Division.{data_division, data_division_reader};

/// Clauses in any order, each at most once.
pub fn clauses_law()
    ensures spelled { IsSoundReader stated_clauses stated_reader }
    ensures only { Only stated_clauses stated_reader }
{}

/// Entries of items and of condition names.
pub fn entry_law()
    ensures spelled { IsSoundReader entry entry_reader }
    ensures only { Only entry entry_reader }
{}

/// The data division.
pub fn data_division_law()
    ensures spelled { IsSoundReader data_division data_division_reader }
    ensures only { Only data_division data_division_reader }
{}
