//! Rule 46: REDEFINES (COBOL-85, Nucleus, "The REDEFINES clause").

ghost use Rattle.std.specs.Prelude.{◌≡◌, ◌<◌};
ghost use Rattle.source_tree.specs.EntryRules.{redefinition_rules};
ghost use Rattle.source_tree.specs.Integers.{number_of};
ghost use Rattle.source_tree.specs.Names as names;
ghost use Rattle.source_tree.specs.RedefinitionRules as spec;
ghost use Rattle.entry_rules.specs.Checks.{IsFirstBreach};
ghost use Rattle.entry_rules.specs.Walk.{HasLevelLast, redefinable_of};

use crate::rule::{BrokenRule, Rule};
use data_entries::number;
use source_tree::{ItemEntry, Name};

/// The level of records, which may be redefined by longer ones.
const RECORD: u32 = 1;

/// The last entry before one, in its group, that redefines nothing, with the bytes of all its occurrences: the one that
/// may be redefined.
#[derive(Clone, Copy)]
pub struct Redefinable<'a> {
    pub entry: &'a ItemEntry,
    pub bytes: u64,
}

/// What may be redefined after an entry of so many bytes.
pub fn remembered<'a>(
    entry: &'a ItemEntry,
    bytes: u64,
    last: Option<Redefinable<'a>>,
) -> Option<Redefinable<'a>>
    ensures { redefinable_of result
        ≡ spec.redefinable_after entry.now bytes (redefinable_of last.entry) }
{
    if entry.redefines.is_some() {
        last
    } else {
        Some(Redefinable { entry, bytes })
    }
}

fn is_called(name: &Name, other: &Option<Name>) -> bool
    ensures { result ≡ names.is_called name.now other.now }
{
    match other {
        Some(other) => name.characters.as_slice() == other.characters.as_slice(),
        None => false,
    }
}

/// An entry of so many bytes can't redefine what stands under that name.
fn wrong_object(entry: &ItemEntry, bytes: u64, name: &Name, last: Option<Redefinable<'_>>) -> bool
    requires own { number_of entry.now.level < 100000 }
    requires level { HasLevelLast last }
    ensures { result ≡ spec.wrong_object entry.now bytes name.now (redefinable_of last.entry) }
{
    let Some(last) = last else {
        return true;
    };
    let level = number(&entry.level);
    !is_called(name, &last.entry.name)
        || level != number(&last.entry.level)
        || last.entry.occurs.is_some()
        || (level != RECORD && last.bytes < bytes)
}

/// REDEFINES of an entry of so many bytes, after the one that may be redefined. Records of a file redefine nothing.
pub fn redefinition_rules(
    is_record: bool,
    entry: &ItemEntry,
    bytes: u64,
    last: Option<Redefinable<'_>>,
) -> Result<(), BrokenRule>
    requires own { number_of entry.now.level < 100000 }
    requires level { HasLevelLast last }
    ensures { IsFirstBreach result (redefinition_rules is_record entry.now bytes entry.now.redefines
        (redefinable_of last.entry)) }
{
    match &entry.redefines {
        Some(name) => {
            let wrong = is_record || wrong_object(entry, bytes, name, last);
            Rule::Redefinition.broken_if(wrong, name.place)
        }
        None => Ok(()),
    }
}
