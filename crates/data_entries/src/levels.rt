//! Which entries stand in a group (COBOL-85, Nucleus, "Level-numbers").

ghost use Rattle.std.specs.Prelude.{◌≡◌, ◌+◌, ◌<◌, ◌≤◌, length, min, nat_lt};
ghost use Rattle.source_tree.specs.Levels.{level_of, deeper, beyond, leading_conditions, forest_of};
ghost use Rattle.data_entries.specs.Nesting as spec;
ghost use Rattle.data_entries.specs.Nesting.{HasLevel, IsNextItem};

use crate::integers::{MOST, number};
use source_tree::{Entry, ItemEntry};

/// An entry that stands by itself, as a 01 does.
const INDEPENDENT: u32 = 77;

/// An item, the entries in it with its condition names at the front, and the entries after it.
#[derive(Clone, Copy)]
pub struct Sibling<'a> {
    pub entry: &'a ItemEntry,
    pub inner: &'a [Entry],
    pub next: &'a [Entry],
}

/// The level by which an entry nests, up to `MOST`: 77 stands by itself, as 01 does.
pub fn level(entry: &ItemEntry) -> u32
    ensures { result ≡ min (level_of entry.now) MOST }
{
    match number(&entry.level) {
        INDEPENDENT => 1,
        level => level,
    }
}

/// The entries in a group of that level at the front, its condition names before them, and the entries after it.
pub fn split_group(group: u32, entries: &[Entry]) -> (&[Entry], &[Entry])
    requires { group < MOST }
    ensures inner { forest_of result.0.now ≡ deeper group (forest_of entries.now) }
    ensures next { forest_of result.1.now ≡ beyond group (forest_of entries.now) }
    ensures conditions { leading_conditions result.0.now ≡ leading_conditions entries.now }
    ensures lengths { length result.0.now + length result.1.now ≡ length entries.now }
{
    entries.split_at(deeper_count(group, entries))
}

/// The first item of the entries.
pub fn next_item(entries: &[Entry]) -> Option<Sibling<'_>>
    requires { HasLevel (forest_of entries.now) }
    ensures { IsNextItem entries.now result }
{
    match entries {
        [Entry::Item(entry), more @ ..] => {
            let (inner, next) = split_group(level(entry), more);
            Some(Sibling { entry, inner, next })
        }
        [Entry::Condition(_), more @ ..] => next_item(more),
        [] => None,
    }
}

/// The entry stands in a group of that level before it.
fn is_deeper(group: u32, entry: &Entry) -> bool
    requires { group < MOST }
    ensures { result ≡ spec.is_deeper group entry.now }
{
    match entry {
        Entry::Item(one) => group < level(one),
        Entry::Condition(_) => true,
    }
}

/// How many entries at the front stand in a group of that level before them.
#[tactic(auto, unfolding(crate::specs::Nesting::deeper_count))]
fn deeper_count(group: u32, entries: &[Entry]) -> usize
    requires { group < MOST }
    ensures value { result ≡ spec.deeper_count group entries.now }
    ensures within { result ≤ length entries.now }
{
    for (index, entry) in entries.iter().enumerate() {
        if !is_deeper(group, entry) {
            return index;
        }
    }
    entries.len()
}
