//! The laws of chains.
ghost use Rattle.chains.specs.Laws.{ChainOnce, ChainStays, ChainThere, OneLength};
ghost use Rattle.chains.specs.Rows.{RowsInsert, RowsRelease, RowsRemove, RowsRewrite, RowsStay, TreeMoves, ValuesDontSteer};

/// No page stands in a chain twice.
pub fn chain_once()
    ensures { ChainOnce }
{}

/// The chains from one page on have one number of pages.
pub fn one_length()
    ensures { OneLength }
{}

/// Each page of a chain is in the map, and none of them is page 0.
pub fn chain_there()
    ensures { ChainThere }
{}

/// A change of pages that a chain hasn't leaves the chain as it is, and the chain has none of the new pages.
pub fn chain_stays()
    ensures { ChainStays }
{}

/// A change of entries that keeps their keys commutes with the operations on lists of entries.
pub fn values_dont_steer()
    ensures { ValuesDontSteer }
{}

/// The chain of a new entry was laid, and the entry came into the tree.
pub fn rows_insert()
    ensures { RowsInsert }
{}

/// An entry left the tree, and its chain was released.
pub fn rows_remove()
    ensures { RowsRemove }
{}

/// The chain of an entry got another record, and the entry another value with the same chain.
pub fn rows_rewrite()
    ensures { RowsRewrite }
{}

/// A change of pages that neither a tree nor its chains have leaves them as they are, and they have none of the new pages.
pub fn rows_stay()
    ensures { RowsStay }
{}

/// The chain of the first entry of a tree was released: the other entries keep theirs.
pub fn rows_release()
    ensures { RowsRelease }
{}

/// What a tree became is a change of its pages, of which none stands twice.
pub fn tree_moves()
    ensures { TreeMoves }
{}
