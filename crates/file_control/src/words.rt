//! The words that begin clauses, and those that stand for an organization or an access.

ghost use Rattle.std.specs.Prelude.{◌≡◌};
ghost use Rattle.file_control.specs.Clauses as spec;

use crate::clause::ClauseKind;
use grammar::{Tokens, after_word, begins_name};
use source_tree::{Access, OrganizationClause};
use tokens::{Kind, Reserved, Token};

/// The organization that a token stands for.
pub fn organization_in(token: &Token) -> Option<OrganizationClause>
    ensures { result ≡ spec.organization_in token.now }
{
    match token.kind {
        Kind::Reserved(Reserved::Sequential) => Some(OrganizationClause::Sequential),
        Kind::Reserved(Reserved::Relative) => Some(OrganizationClause::Relative),
        Kind::Reserved(Reserved::Indexed) => Some(OrganizationClause::Indexed),
        _ => None,
    }
}

/// The access that a token stands for.
pub fn access_in(token: &Token) -> Option<Access>
    ensures { result ≡ spec.access_in token.now }
{
    match token.kind {
        Kind::Reserved(Reserved::Sequential) => Some(Access::Sequential),
        Kind::Reserved(Reserved::Random) => Some(Access::Random),
        Kind::Reserved(Reserved::Dynamic) => Some(Access::Dynamic),
        _ => None,
    }
}

/// KEY, IS or a user-defined word comes next.
fn begins_key(tokens: &Tokens<'_>) -> bool
    ensures { result ≡ spec.begins_key tokens.now }
{
    tokens.at_word(Reserved::Key) || tokens.at_word(Reserved::Is) || begins_name(tokens)
}

/// RELATIVE comes next, with KEY, IS or a user-defined word right after it.
fn begins_relative_key(tokens: &Tokens<'_>) -> bool
    ensures { result ≡ spec.begins_relative_key tokens.now }
{
    match after_word(tokens.rest(), Reserved::Relative) {
        Some(after) => begins_key(&Tokens::new(after)),
        None => false,
    }
}

/// The clause that a word begins, where RELATIVE is an organization.
fn clause_of(word: Reserved) -> Option<ClauseKind>
    ensures { result ≡ spec.clause_of word }
{
    match word {
        Reserved::Organization | Reserved::Sequential | Reserved::Relative | Reserved::Indexed => {
            Some(ClauseKind::Organization)
        }
        Reserved::Access => Some(ClauseKind::Access),
        Reserved::Record => Some(ClauseKind::RecordKey),
        Reserved::Alternate => Some(ClauseKind::AlternateKey),
        Reserved::File | Reserved::Status => Some(ClauseKind::Status),
        _ => None,
    }
}

/// The clause that begins with the next token.
pub fn clause_at(tokens: &Tokens<'_>) -> Option<ClauseKind>
    ensures { result ≡ spec.clause_at tokens.now }
{
    if begins_relative_key(tokens) {
        return Some(ClauseKind::RelativeKey);
    }
    match tokens.rest() {
        [next, ..] => match next.kind {
            Kind::Reserved(word) => clause_of(word),
            _ => None,
        },
        [] => None,
    }
}
