//! The laws of trees.
ghost use Rattle.btree.specs.Laws.{EntriesAscend, EntryOfKey, EntryThere, FewLeaves, FewLevels, LevelsAscend, OnceInParts, OneTree, PagesOnce, TreeStays};

/// The entry that `get` answers has the key that was asked for, and that key's value.
pub fn entry_of_key()
    ensures { EntryOfKey }
{}

/// The keys of each level of a tree ascend.
pub fn levels_ascend()
    ensures { LevelsAscend }
{}

/// The pages under a root are one tree at most.
pub fn one_tree()
    ensures { OneTree }
{}

/// A tree has at most 20 levels.
pub fn few_levels()
    ensures { FewLevels }
{}

/// A tree has at most four leaves for as many entries as one has room for, besides those that have less than a quarter of them.
pub fn few_leaves()
    ensures { FewLeaves }
{}

/// A change of another tree's pages leaves a tree as it is, where they have no page in common, and they have none then.
pub fn tree_stays()
    ensures { TreeStays }
{}

/// No page stands in a tree twice; and where no page stands twice in the pages of some trees, each has its own.
pub fn pages_once()
    ensures tree { PagesOnce }
    ensures nodes { OnceInParts }
{}

/// The keys of a tree's entries ascend.
pub fn entries_ascend()
    ensures { EntriesAscend }
{}

/// Among entries whose keys ascend each is the entry of its key.
pub fn entry_there()
    ensures { EntryThere }
{}
