//! The laws of trees in one map, of the order of keys, and of what an image holds.
ghost use Rattle.volume_format.specs.Catalog.{ListingReadsBack, ValueReadsBack, RowsSpelledLow, NamesInOrder};
ghost use Rattle.file_bytes.specs.Description.{OneSpec};
ghost use Rattle.volume_format.specs.Pairs.{KeysInOrder};
ghost use Rattle.volume_format.specs.Comes.{RowComes, PairComes};
ghost use Rattle.volume_format.specs.Laws.{ForestMoves, NextHolds, EmptyHolds, RowsFit, LayoutsFit, OneRows, OneFiles};

/// One tree of a forest became another, and the others stay.
pub fn forest_moves()
    ensures { ForestMoves }
{}

/// Keys of a tree compare as the pairs of its rows do.
pub fn keys_in_order()
    ensures { KeysInOrder }
{}

/// The entry of a new row comes to the place that the row comes to.
pub fn row_comes()
    ensures { RowComes }
{}

/// The pair of a new row comes to those of the others.
pub fn pair_comes()
    ensures { PairComes }
{}

/// The next generation holds the same files.
pub fn next_holds()
    ensures { NextHolds }
{}

/// What the catalog says of a file is read back from its bytes.
pub fn listing_reads_back()
    ensures { ListingReadsBack }
{}

/// A listing and a number of rows are read back from a value of the catalog. The number is spelled by its lowest eight bytes.
pub fn value_reads_back()
    ensures value { ValueReadsBack }
    ensures rows { RowsSpelledLow }
{}

/// The catalog's bytes tell what a file is, and its keys have the order of names.
pub fn catalog_tells()
    ensures spec { OneSpec }
    ensures names { NamesInOrder }
{}

/// A volume without pages holds no files.
pub fn empty_holds()
    ensures { EmptyHolds }
{}

/// The rows of a file can be keys of its trees.
pub fn rows_fit()
    ensures { RowsFit }
{}

/// Each key of a file has a layout that trees can have.
pub fn layouts_fit()
    ensures { LayoutsFit }
{}

/// The tree of rows tells the rows.
pub fn one_rows()
    ensures { OneRows }
{}

/// An image holds at most one list of files.
pub fn one_list_of_files()
    ensures { OneFiles }
{}
