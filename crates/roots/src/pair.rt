//! The two roots of a volume.
ghost use Rattle.std.specs.Prelude.{◌≡◌, ◌+◌, ◌==◌};
ghost use Rattle.roots.specs.Pair.{pair_of, both_of, may_follow, newest_root};

use crate::root::{Mark, Root, RootSector};

/// The roots of a volume that isn't damaged.
#[derive(Clone, Copy, PartialEq, Eq)]
pub struct Roots {
    pub newest: Root,
    /// The root of the generation before.
    pub older: Option<Root>,
}

/// Why a volume has no root for the reader.
#[derive(Clone, Copy, Debug, PartialEq, Eq)]
pub enum RootsFault {
    /// Both sectors are blank, one is broken, or the two don't belong together.
    Damaged,
    /// The newest root has another format's mark.
    ForeignMark,
}

/// Whether a root of the one mark may come after one of the other.
fn marks_agree(older: Mark, newer: Mark) -> bool
    ensures { result ≡ may_follow older newer }
{
    older.family == newer.family && older.version <= newer.version
}

/// Whether a generation comes right after another.
fn is_next(older: u64, newer: u64) -> bool
    ensures { result ≡ (older + 1 == newer) }
{
    older < newer && newer - older == 1
}

/// Two roots, the older first, if they belong together.
fn joined(older: Root, newer: Root) -> Option<Roots>
    ensures { result ≡ pair_of older newer }
{
    if is_next(older.generation, newer.generation)
        && older.sectors == newer.sectors
        && marks_agree(older.mark, newer.mark)
    {
        Some(Roots {
            newest: newer,
            older: Some(older),
        })
    } else {
        None
    }
}

/// Two roots in either order.
fn ordered(first: Root, second: Root) -> Option<Roots>
    ensures { result ≡ both_of first second }
{
    if first.generation < second.generation {
        joined(first, second)
    } else {
        joined(second, first)
    }
}

/// The roots that two root sectors make. Both have marks of one family, and the newer root has no earlier mark than the older one. The
/// reader's own family is the first; a newest root of another family is `ForeignMark`.
pub fn newest_of(first: RootSector, second: RootSector) -> Result<Roots, RootsFault>
    ensures { result ≡ newest_root first second }
{
    let roots = match (first, second) {
        (RootSector::Blank, RootSector::Valid(root)) => Some(Roots {
            newest: root,
            older: None,
        }),
        (RootSector::Valid(root), RootSector::Blank) => Some(Roots {
            newest: root,
            older: None,
        }),
        (RootSector::Valid(first), RootSector::Valid(second)) => ordered(first, second),
        _ => None,
    };
    match roots {
        Some(roots) if roots.newest.mark.family == 0 => Ok(roots),
        Some(_) => Err(RootsFault::ForeignMark),
        None => Err(RootsFault::Damaged),
    }
}
