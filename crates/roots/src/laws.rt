//! The laws of the roots, which the crates above stand on.
ghost use Rattle.roots.specs.Laws.{NextIsNewest, ReadsBack, RootsStand};

/// The next root, once it stands in its sector, is the newest. A root's bytes are read as that root.
pub fn next_is_newest()
    ensures newest { NextIsNewest }
    ensures reads_back { ReadsBack }
{}

/// The roots of an image are roots that it has: each is in the sector of its parity, within the bounds of a volume and with a mark that is known.
/// The newest has a mark of the reader's own family.
pub fn roots_stand()
    ensures { RootsStand }
{}
