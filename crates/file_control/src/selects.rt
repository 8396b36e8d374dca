//! SELECTs and the input-output section.

ghost use Rattle.std.specs.Prelude.{◌≡◌};
ghost use Rattle.grammar.specs.Reading as read;
ghost use Rattle.grammar.specs.Reading.{Reads};
ghost use Rattle.file_control.specs.Selects as spec;

use crate::stated::{Stated, stated_clauses};
use grammar::{Part, ReadFault, Tokens, beside, name, several};
use source_tree::{Access, AssignedName, Name, OrganizationClause, Select};
use sqlite_items::Items;
use std::alloc::Global;
use tokens::{Kind, Reserved};

/// The SELECTs of FILE-CONTROL; none where INPUT-OUTPUT doesn't come next.
#[tactic(auto, unfolding(crate::specs::Selects::input_output_reader, crate::specs::Selects::file_control_reader))]
pub fn input_output(alloc: Global, tokens: &mut Tokens<'_>) -> Result<Items<Select>, ReadFault>
    ensures { Reads (spec.input_output_reader tokens.old) result tokens.new }
{
    if !tokens.at_word(Reserved::InputOutput) {
        return Ok(Items::new(alloc));
    }
    tokens.heading(&[Reserved::InputOutput, Reserved::Section])?;
    tokens.heading(&[Reserved::FileControl])?;
    several(&Selects, alloc, tokens)
}

/// The file's name on the volume: a nonnumeric literal or a word.
#[tactic(auto, unfolding(grammar::specs::Reading::one_token))]
fn assigned_name(alloc: Global, tokens: &mut Tokens<'_>) -> Result<AssignedName, ReadFault>
    ensures { Reads (read.one_token spec.assigned_in tokens.old) result tokens.new }
{
    let [next, rest @ ..] = tokens.rest() else {
        return Err(tokens.refuse());
    };
    let text = match &next.kind {
        Kind::Word(text) | Kind::Nonnumeric(text) => text,
        _ => return Err(tokens.refuse()),
    };
    let characters = Items::from_slice(alloc, text.as_slice())?;
    tokens.go_to(rest);
    Ok(AssignedName {
        characters,
        place: next.place,
    })
}

/// A file's name, and after ASSIGN its name on the volume.
#[tactic(auto, unfolding(crate::specs::Selects::assigned_reader))]
fn assigned(alloc: Global, tokens: &mut Tokens<'_>) -> Result<(Name, AssignedName), ReadFault>
    ensures { Reads (spec.assigned_reader tokens.old) result tokens.new }
{
    let name = name(alloc, tokens)?;
    let (name, ()) = beside(name, tokens.expect(Reserved::Assign))?;
    tokens.skip(Reserved::To);
    beside(name, assigned_name(alloc, tokens))
}

/// The SELECT with these clauses. Without their clauses organization and access are sequential.
fn select_of(optional: bool, name: Name, assigned: AssignedName, clauses: Stated) -> Select
    ensures { result ≡ spec.select_of optional name assigned clauses }
{
    Select {
        optional,
        name,
        assigned,
        organization: clauses
            .organization
            .unwrap_or(OrganizationClause::Sequential),
        access: clauses.access.unwrap_or(Access::Sequential),
        relative_key: clauses.relative_key,
        record_key: clauses.record_key,
        alternate_keys: clauses.alternate_keys,
        status: clauses.status,
    }
}

/// A SELECT up to its period.
#[tactic(auto, unfolding(crate::specs::Selects::select_reader))]
fn select(alloc: Global, tokens: &mut Tokens<'_>) -> Result<Select, ReadFault>
    ensures { Reads (spec.select_reader tokens.old) result tokens.new }
{
    tokens.expect(Reserved::Select)?;
    let optional = tokens.take(Reserved::Optional);
    let head = assigned(alloc, tokens)?;
    let ((name, assigned), clauses) = beside(head, stated_clauses(alloc, tokens))?;
    let (select, ()) = beside(
        select_of(optional, name, assigned, clauses),
        tokens.period(),
    )?;
    Ok(select)
}

/// SELECTs in a list.
struct Selects;

impl Part<Select> for Selects {
    ghost use Rattle.file_control.specs.Selects as spec;

    ghost ready = { λ _. Unit {0} };

    ghost reading = { λ _. spec.select_reader };

    ghost beginning = { λ _. spec.begins_select };

    fn read(&self, alloc: Global, tokens: &mut Tokens<'_>) -> Result<Select, ReadFault> {
        select(alloc, tokens)
    }

    fn begins(&self, tokens: &Tokens<'_>) -> bool {
        tokens.at_word(Reserved::Select)
    }
}
