//! A reader for each clause.

ghost use Rattle.std.specs.Prelude.{◌≡◌};
ghost use Rattle.std.specs.Option.{option_copied};
ghost use Rattle.grammar.specs.Reading as read;
ghost use Rattle.grammar.specs.Reading.{Reads};
ghost use Rattle.file_control.specs.Clauses as rule;
ghost use Rattle.file_control.specs.ClauseReading as spec;

use crate::clause::{Clause, ClauseKind};
use crate::words::{access_in, organization_in};
use expressions::reference;
use grammar::{ReadFault, Tokens, after_word, past_word, skip_led};
use source_tree::{Access, AlternateKeyClause, OrganizationClause, Reference};
use std::alloc::Global;
use tokens::{Reserved, Token};

/// A clause of this kind.
#[tactic(auto, unfolding(crate::specs::ClauseReading::clause_reader))]
pub fn clause_of_kind(
    kind: ClauseKind,
    alloc: Global,
    tokens: &mut Tokens<'_>,
) -> Result<Clause, ReadFault>
    ensures { Reads (spec.clause_reader kind tokens.old) result tokens.new }
{
    match kind {
        ClauseKind::Organization => organization(tokens),
        ClauseKind::Access => access(tokens),
        ClauseKind::RelativeKey => relative_key(alloc, tokens),
        ClauseKind::RecordKey => record_key(alloc, tokens),
        ClauseKind::AlternateKey => alternate_key(alloc, tokens),
        ClauseKind::Status => status(alloc, tokens),
    }
}

/// A word that stands for an organization.
#[tactic(auto, unfolding(grammar::specs::Reading::one_token))]
fn organization_word(tokens: &mut Tokens<'_>) -> Result<OrganizationClause, ReadFault>
    ensures { Reads (read.one_token rule.organization_in tokens.old) result tokens.new }
{
    let [next, rest @ ..] = tokens.rest() else {
        return Err(tokens.refuse());
    };
    let Some(organization) = organization_in(next) else {
        return Err(tokens.refuse());
    };
    tokens.go_to(rest);
    Ok(organization)
}

#[tactic(auto, unfolding(crate::specs::ClauseReading::organization_reader))]
fn organization(tokens: &mut Tokens<'_>) -> Result<Clause, ReadFault>
    ensures { Reads (spec.organization_reader tokens.old) result tokens.new }
{
    skip_led(tokens, Reserved::Organization)?;
    Ok(Clause::Organization(organization_word(tokens)?))
}

/// A word that stands for an access.
#[tactic(auto, unfolding(grammar::specs::Reading::one_token))]
fn access_word(tokens: &mut Tokens<'_>) -> Result<Access, ReadFault>
    ensures { Reads (read.one_token rule.access_in tokens.old) result tokens.new }
{
    let [next, rest @ ..] = tokens.rest() else {
        return Err(tokens.refuse());
    };
    let Some(access) = access_in(next) else {
        return Err(tokens.refuse());
    };
    tokens.go_to(rest);
    Ok(access)
}

#[tactic(auto, unfolding(crate::specs::ClauseReading::access_reader))]
fn access(tokens: &mut Tokens<'_>) -> Result<Clause, ReadFault>
    ensures { Reads (spec.access_reader tokens.old) result tokens.new }
{
    tokens.expect(Reserved::Access)?;
    tokens.skip(Reserved::Mode);
    tokens.skip(Reserved::Is);
    Ok(Clause::Access(access_word(tokens)?))
}

/// The item of a key, with KEY and IS before it or without.
#[tactic(auto, unfolding(crate::specs::ClauseReading::key_reader))]
fn key(alloc: Global, tokens: &mut Tokens<'_>) -> Result<Reference, ReadFault>
    ensures { Reads (spec.key_reader tokens.old) result tokens.new }
{
    tokens.skip(Reserved::Key);
    tokens.skip(Reserved::Is);
    reference(alloc, tokens)
}

#[tactic(auto, unfolding(crate::specs::ClauseReading::relative_key_reader))]
fn relative_key(alloc: Global, tokens: &mut Tokens<'_>) -> Result<Clause, ReadFault>
    ensures { Reads (spec.relative_key_reader tokens.old) result tokens.new }
{
    tokens.expect(Reserved::Relative)?;
    Ok(Clause::RelativeKey(key(alloc, tokens)?))
}

#[tactic(auto, unfolding(crate::specs::ClauseReading::record_key_reader))]
fn record_key(alloc: Global, tokens: &mut Tokens<'_>) -> Result<Clause, ReadFault>
    ensures { Reads (spec.record_key_reader tokens.old) result tokens.new }
{
    tokens.expect(Reserved::Record)?;
    Ok(Clause::RecordKey(key(alloc, tokens)?))
}

/// The tokens after `[WITH] DUPLICATES`, where that comes first.
#[tactic(auto, unfolding(crate::specs::ClauseReading::after_with_duplicates))]
fn after_with_duplicates(tokens: &[Token]) -> Option<&[Token]>
    ensures { option_copied result ≡ spec.after_with_duplicates tokens.now }
{
    after_word(past_word(tokens, Reserved::With), Reserved::Duplicates)
}

/// Passes `[WITH] DUPLICATES`, if that comes next, and tells whether it did.
#[tactic(auto, unfolding(grammar::specs::Reading::presence_reader))]
fn take_duplicates(tokens: &mut Tokens<'_>) -> bool
    ensures { read.presence_reader spec.after_with_duplicates tokens.old ≡ Ok (result, tokens.new) }
{
    match after_with_duplicates(tokens.rest()) {
        Some(rest) => {
            tokens.go_to(rest);
            true
        }
        None => false,
    }
}

#[tactic(auto, unfolding(crate::specs::ClauseReading::alternate_key_reader))]
fn alternate_key(alloc: Global, tokens: &mut Tokens<'_>) -> Result<Clause, ReadFault>
    ensures { Reads (spec.alternate_key_reader tokens.old) result tokens.new }
{
    tokens.expect(Reserved::Alternate)?;
    tokens.skip(Reserved::Record);
    let key = key(alloc, tokens)?;
    let duplicates = take_duplicates(tokens);
    Ok(Clause::AlternateKey(AlternateKeyClause { key, duplicates }))
}

#[tactic(auto, unfolding(crate::specs::ClauseReading::status_reader))]
fn status(alloc: Global, tokens: &mut Tokens<'_>) -> Result<Clause, ReadFault>
    ensures { Reads (spec.status_reader tokens.old) result tokens.new }
{
    tokens.skip(Reserved::File);
    tokens.expect(Reserved::Status)?;
    tokens.skip(Reserved::Is);
    Ok(Clause::Status(reference(alloc, tokens)?))
}
