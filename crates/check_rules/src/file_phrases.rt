//! What organization, access and phrases of a file statement are: rule 62 of AT END and INVALID KEY.

ghost use Rattle.std.specs.Prelude.{◌≡◌, ◌||◌};
ghost use Rattle.entry_rules.specs.Checks.{IsFirstBreach};
ghost use Rattle.records.specs.Steps as records;
ghost use Rattle.records.specs.Tests as tests;
ghost use Rattle.source_tree.specs.FilingRules as spec;
ghost use Rattle.check_rules.specs.Filed as filed;

use entry_rules::{BrokenRule, Rule};
use records::Organization;
use source_tree::{Access, FilePhrases, Place};

pub(crate) fn is_sequential(organization: Organization) -> bool
    ensures { result ≡ spec.is_sequential_file organization }
{
    matches!(organization, Organization::Sequential)
}

pub(crate) fn is_relative(organization: Organization) -> bool
    ensures { result ≡ records.is_relative organization }
{
    matches!(organization, Organization::Relative)
}

pub(crate) fn is_random(access: Access) -> bool
    ensures { result ≡ spec.is_random access }
{
    matches!(access, Access::Random)
}

/// READ goes on in sequence, in place of by a key.
pub(crate) fn is_in_sequence(access: Access, next: bool) -> bool
    ensures { result ≡ (tests.is_sequential access || next) }
{
    matches!(access, Access::Sequential) || next
}

fn has_at_end<S>(phrases: &FilePhrases<S>) -> bool
    ensures { result ≡ spec.has_at_end phrases.now }
{
    matches!(phrases, FilePhrases::AtEnd(_))
}

fn has_invalid_key<S>(phrases: &FilePhrases<S>) -> bool
    ensures { result ≡ spec.has_invalid_key phrases.now }
{
    matches!(phrases, FilePhrases::InvalidKey(_))
}

/// Phrases of a statement that isn't READ: AT END stands nowhere, and INVALID KEY not on a sequential file.
pub(crate) fn phrase_kind_rules<S>(
    place: Place,
    organization: Organization,
    phrases: &FilePhrases<S>,
) -> Result<(), BrokenRule>
    ensures { IsFirstBreach result (filed.phrase_kind_rules place organization phrases.now) }
{
    let is_wrong = has_at_end(phrases) || (has_invalid_key(phrases) && is_sequential(organization));
    Rule::FilePhrase.broken_if(is_wrong, place)
}

/// Phrases of READ: AT END stands at one in sequence alone, and INVALID KEY at one by a key.
pub(crate) fn read_phrase_rules<S>(
    place: Place,
    in_sequence: bool,
    phrases: &FilePhrases<S>,
) -> Result<(), BrokenRule>
    ensures { IsFirstBreach result (filed.read_phrase_rules place in_sequence phrases.now) }
{
    let is_wrong = (has_at_end(phrases) && !in_sequence)
        || (has_invalid_key(phrases) && in_sequence);
    Rule::FilePhrase.broken_if(is_wrong, place)
}
