//! Rules of the whole procedure division: 56, sections without any paragraph or sentence are no procedure, and 69, its statements are
//! too many.

ghost use Rattle.std.specs.Prelude.{◌≡◌};
ghost use Rattle.entry_rules.specs.Checks.{IsFirstBreach};
ghost use Rattle.source_tree.specs.Rules as spec;

use crate::statement_count::statement_count_rules;
use entry_rules::{BrokenRule, Rule};
use source_tree::{Place, Program, Section};

/// There is a procedure, and it has no more statements than may be.
pub(crate) fn procedure_rules(program: &Program) -> Result<(), BrokenRule>
    ensures { IsFirstBreach result (spec.procedure_rules program.now) }
{
    let sections = program.sections.as_slice();
    let place = procedures_place(program.name.place, sections);
    Rule::NoProcedure.broken_if(are_empty(sections), place)?;
    statement_count_rules(program)
}

/// No section has a paragraph.
fn are_empty(sections: &[Section]) -> bool
    ensures { result ≡ spec.are_empty sections.now }
{
    for one in sections {
        if !one.paragraphs.as_slice().is_empty() {
            return false;
        }
    }
    true
}

/// Where the first section's name stands; where it has none, that place.
fn procedures_place(other: Place, sections: &[Section]) -> Place
    ensures { result ≡ spec.procedures_place other sections.now }
{
    match sections {
        [] => other,
        [one, ..] => match &one.name {
            None => other,
            Some(name) => name.place,
        },
    }
}
