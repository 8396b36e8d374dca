//! The laws of rows and pages, which the crates above stand on.
ghost use Rattle.btree_pages.specs.Laws.{ChildReadsBack, GreatestAreLast, KeyReadsBack, NumbersInOrder, PartsInOrder, RestReadsBack, SpellsNode, ZerosAreFirst};

/// A row made of a key and what follows it has these as its parts, and a child's page is read as it was written.
pub fn row_reads_back()
    ensures key { KeyReadsBack }
    ensures rest { RestReadsBack }
    ensures child { ChildReadsBack }
{}

/// What a page's bytes spell has rows of the layout's length, and no more than fit.
pub fn spells_node()
    ensures { SpellsNode }
{}

/// Numbers that are spelled big-endian in as many bytes compare as the numbers.
pub fn numbers_in_order()
    ensures { NumbersInOrder }
{}

/// Keys whose first parts are of one length compare by those, and then by what is after them.
pub fn parts_in_order()
    ensures { PartsInOrder }
{}

/// A key is below some bytes and zeros exactly where it begins below them, and above them and the greatest bytes exactly where it
/// begins above them: so keys that begin with them stand from the one on, up to the other.
pub fn beginnings_in_order()
    ensures first { ZerosAreFirst }
    ensures last { GreatestAreLast }
{}
