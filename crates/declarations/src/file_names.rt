//! The names of files: 69 of their number, 42 a name that is given twice, 57 a SELECT without FD or an FD without SELECT.

ghost use Rattle.std.specs.Prelude.{◌≡◌, [], IfOk, drop};
ghost use Rattle.entry_rules.specs.Checks.{IsFirstBreach, IsFirstFault};
ghost use Rattle.name_table.specs.Table.{names_of};
ghost use Rattle.source_tree.specs.Broken.{each};
ghost use Rattle.source_tree.specs.FileRules as spec;
ghost use Rattle.source_tree.specs.PerformRules as given;

use entry_rules::{BrokenRule, CheckError, Rule};
use source_tree::{FileDescription, Name, Select};
use std::alloc::{AllocError, Global};

/// The most files of a program (own choice).
const MOST_FILES: usize = 15;

/// The names of a program's files.
pub(crate) fn file_name_rules(
    alloc: Global,
    selects: &[Select],
    descriptions: &[FileDescription],
) -> Result<(), CheckError>
    ensures { IsFirstFault result (spec.file_name_rules (spec.select_names selects.now)
        (spec.description_names descriptions.now)) }
{
    let selected = select_names(alloc, selects)?;
    described_rules(alloc, &selected, descriptions)
}

/// The names of SELECTs and those of FDs.
fn described_rules(
    alloc: Global,
    selected: &[&Name],
    descriptions: &[FileDescription],
) -> Result<(), CheckError>
    ensures { IsFirstFault result (spec.file_name_rules (names_of selected.now)
        (spec.description_names descriptions.now)) }
{
    let described = description_names(alloc, descriptions)?;
    let ruled = name_rules(selected, &described);
    drop(described);
    Ok(ruled?)
}

fn select_names(alloc: Global, selects: &[Select]) -> Result<Vec<&Name>, AllocError>
    ensures { IfOk result (λ names. names_of names.items ≡ spec.select_names selects.now) }
{
    let mut names = Vec::new(alloc);
    for one in selects {
        names.push(&one.name)?;
    }
    Ok(names)
}

fn description_names(
    alloc: Global,
    descriptions: &[FileDescription],
) -> Result<Vec<&Name>, AllocError>
    ensures { IfOk result
        (λ names. names_of names.items ≡ spec.description_names descriptions.now) }
{
    let mut names = Vec::new(alloc);
    for one in descriptions {
        names.push(&one.name)?;
    }
    Ok(names)
}

fn is_among(name: &Name, others: &[&Name]) -> bool
    ensures { result ≡ given.is_among name.now (names_of others.now) }
{
    for other in others {
        if name.characters.as_slice() == other.characters.as_slice() {
            return true;
        }
    }
    false
}

/// There are no more files than may be.
fn count_rules(names: &[&Name]) -> Result<(), BrokenRule>
    ensures { IsFirstBreach result
        (each (spec.broken_at 69) (drop spec.most_files (names_of names.now))) }
{
    match names.get(MOST_FILES) {
        Some(one) => Rule::Limit.broken_if(true, one.place),
        None => Ok(()),
    }
}

/// Each name is given once.
fn once_rules(names: &[&Name]) -> Result<(), BrokenRule>
    ensures { IsFirstBreach result (given.given_once [] (names_of names.now)) }
{
    for (i, one) in names.iter().enumerate() {
        let is_given = is_among(one, &names[..i]);
        Rule::GivenTwice.broken_if(is_given, one.place)?;
    }
    Ok(())
}

/// Each name is among the others.
fn matched_rules(names: &[&Name], others: &[&Name]) -> Result<(), BrokenRule>
    ensures { IsFirstBreach result
        (each (spec.broken_match_rule (names_of others.now)) (names_of names.now)) }
{
    for one in names {
        Rule::UnmatchedFile.broken_if(!is_among(one, others), one.place)?;
    }
    Ok(())
}

/// The names of SELECTs and of FDs.
fn name_rules(selected: &[&Name], described: &[&Name]) -> Result<(), BrokenRule>
    ensures { IsFirstBreach result
        (spec.file_name_rules (names_of selected.now) (names_of described.now)) }
{
    count_rules(selected)?;
    once_rules(selected)?;
    once_rules(described)?;
    matched_rules(selected, described)?;
    matched_rules(described, selected)
}
